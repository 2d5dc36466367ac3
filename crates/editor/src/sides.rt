// Keys on one side: a text in a gap store and its recall text in a pair store of the same length. A key that leaves the recall text
// alone is not lent it, or lent it for reading: so the two stores stand beside the sizes, which are handed over and back by value as hosts do
// with the record. No line of the text is longer than a limit, and none may become longer.
ghost use Rattle.std.specs.Prelude.{◌≡◌, true, ℕ, ◌≤◌};
ghost use Rattle.gap.specs.Rules.Doc.{content};
ghost use Rattle.gap.specs.Rules.Layout.{ungap, IsGap};
ghost use Rattle.gap.specs.Rules.LineLimits.{lines_fit};
ghost use Rattle.editor.specs.declared.Action.TheVariants.{Move, Delete};
ghost use Rattle.editor.specs.Rules.Keys.{inserted, carried, function, recalled};
ghost use Rattle.editor.specs.Wording.Promise.{room_of, deleted_by, OnSide, EditsSide, EditsText, editing, side_reply, side_done};

use crate::indents::{newline_side, spaced_side, tab_side};
use crate::passages::place_passage;
use crate::records::{QUIET, RANG, moved_by, went};
use crate::refusals::Refusal;
use crate::splices::{join_fits, pair_fits};
use crate::{Action, Edit, Passage, Place, SideDone, Sizes};
use gap::Direction;
use gap::texts::{delete, move_cursor, place_pair};
use gap::views::View;

// A byte goes in, with no spaces behind it, and is not reported as a step.
pub fn insert_side(limit: usize, b: u8, n: Sizes, text: &mut [u8]) -> Result<SideDone, Refusal>
    requires gap { IsGap n.l n.r text.old }
    requires text_value { lines_fit limit (content (ungap n.l n.r text.old)) ≡ true }
    ensures { EditsText limit (side_reply n result) n (inserted b) text.old text.new }
{
    let t = spaced_side(limit, b, 0, n, text)?;
    Ok(SideDone { report: QUIET, ..t })
}

// A move. The lines stay as they are.
pub fn move_side(way: Direction, passage: Passage, n: Sizes, text: &mut [u8]) -> SideDone
    requires gap { IsGap n.l n.r text.old }
    requires steps_bound { passage.steps ≤ room_of way n }
    ensures { (limit : ℕ) → EditsText limit (side_done result) n (carried Move way (Some passage)) text.old text.new }
{
    let d = passage.steps;
    let m = moved_by(way, d, n);
    move_cursor(text, n.l, n.r, way, d);
    SideDone {
        report: went(d, passage.lines),
        sizes: m,
    }
}

// The sizes after d deletions: what they take away is the recall text.
fn deleted_by(way: Direction, d: usize, n: Sizes) -> Sizes
    requires { d ≤ room_of way n }
    ensures { result ≡ deleted_by way d n }
{
    match way {
        Direction::Left => Sizes {
            l: n.l - d,
            r: n.r,
            rl: d,
            rr: 0,
        },
        Direction::Right => Sizes {
            l: n.l,
            r: n.r - d,
            rl: 0,
            rr: d,
        },
    }
}

// The bytes that a move would cross go over into the recall text.
pub fn delete_side(
    limit: usize,
    way: Direction,
    passage: Passage,
    n: Sizes,
    text: &mut [u8],
    recall: &mut [u8],
) -> Result<SideDone, Refusal>
    requires on_side { OnSide limit n text.old recall.old }
    requires steps_bound { passage.steps ≤ room_of way n }
    ensures { EditsSide limit (side_reply n result) n (carried Delete way (Some passage)) text.old recall.old
        text.new recall.new }
{
    let d = passage.steps;
    let m = deleted_by(way, d, n);
    if !join_fits(limit, View::of(text, m.l, m.r)) {
        return Err(Refusal::Line);
    }
    delete(text, n.l, n.r, way, d, recall);
    Ok(SideDone {
        report: went(d, passage.lines),
        sizes: m,
    })
}

// A move or deletion.
fn carry_side(
    limit: usize,
    action: Action,
    way: Direction,
    passage: Passage,
    n: Sizes,
    text: &mut [u8],
    recall: &mut [u8],
) -> Result<SideDone, Refusal>
    requires on_side { OnSide limit n text.old recall.old }
    requires steps_bound { passage.steps ≤ room_of way n }
    ensures { EditsSide limit (side_reply n result) n (carried action way (Some passage)) text.old recall.old
        text.new recall.new }
{
    match action {
        Action::Move => Ok(move_side(way, passage, n, text)),
        Action::Delete => delete_side(limit, way, passage, n, text, recall),
    }
}

// A function key: as many single steps as the distance to its place. Where there is none, the bell, and nothing is touched.
pub fn function_side(
    limit: usize,
    action: Action,
    way: Direction,
    place: Place,
    n: Sizes,
    text: &mut [u8],
    recall: &mut [u8],
) -> Result<SideDone, Refusal>
    requires { OnSide limit n text.old recall.old }
    ensures { EditsSide limit (side_reply n result) n (function action way place) text.old recall.old
        text.new recall.new }
{
    let Some(passage) = place_passage(place, way, View::of(text, n.l, n.r)) else {
        return Ok(SideDone {
            report: RANG,
            sizes: n,
        });
    };
    carry_side(limit, action, way, passage, n, text, recall)
}

// The recall pair goes in around the cursor, if it fits.
pub fn recall_side(
    limit: usize,
    n: Sizes,
    text: &mut [u8],
    recall: &[u8],
) -> Result<SideDone, Refusal>
    requires { OnSide limit n text.old recall.now }
    ensures { EditsSide limit (side_reply n result) n recalled text.old recall.now text.new recall.now }
{
    if text.len() - (n.l + n.r) < n.rl + n.rr {
        return Err(Refusal::Full);
    }
    let pair = View::of_pair(recall, n.rl, n.rr);
    if !pair_fits(limit, View::of(text, n.l, n.r), pair) {
        return Err(Refusal::Line);
    }
    place_pair(text, n.l, n.r, pair);
    Ok(SideDone {
        report: QUIET,
        sizes: Sizes {
            l: n.l + n.rl,
            r: n.r + n.rr,
            ..n
        },
    })
}

// A key on one side.
pub fn on_side(
    limit: usize,
    e: Edit,
    n: Sizes,
    text: &mut [u8],
    recall: &mut [u8],
) -> Result<SideDone, Refusal>
    requires { OnSide limit n text.old recall.old }
    ensures { EditsSide limit (side_reply n result) n (editing e) text.old recall.old
        text.new recall.new }
{
    match e {
        Edit::Insert(b) => insert_side(limit, b, n, text),
        Edit::Function(action, way, place) => {
            function_side(limit, action, way, place, n, text, recall)
        }
        Edit::Recall => recall_side(limit, n, text, recall),
        Edit::Newline => newline_side(limit, n, text),
        Edit::Tab => tab_side(limit, n, text),
    }
}
