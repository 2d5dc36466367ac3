// Keys about the quotation: edits of it, QUOTE, and its end in a search or a REPLACE. Each is lent the side store alone.
ghost use Rattle.std.specs.Prelude.{◌≡◌, ◌+◌, ◌*◌, ◌≤◌, length, drop};
ghost use Rattle.gap.specs.Rules.Sequence.{patch, zeros};
ghost use Rattle.gap.specs.Rules.Layout.{paired, ungap};
ghost use Rattle.editor.specs.Rules.Keys.{other_mode, quoted, bounded};
ghost use Rattle.editor.specs.Rules.Bytes.{quarter, quarter_of};
ghost use Rattle.editor.specs.Wording.Promise.{OnSide, EditsSide, editing, EditsQuotation, handed, side_reply, editor_done};

use crate::records::{QUIET, cleared};
use crate::refusals::Refusal;
use crate::sides::on_side;
use crate::{Edit, EditorDone, Lengths, Mode, QUARTER, SideDone, Sizes};
use gap::runs::{clear, vacate};
use gap::texts::hand_over;
use gap::views::View;

// The quotation's text and its recall text are lent as they stand. No line can be longer than the quarter, so that this limits none.
#[tactic(auto, unfolding(crate::specs::Rules::Bytes::quarter))]
pub fn edit_quotation(e: Edit, n: Sizes, side: &mut [u8]) -> Result<SideDone, Refusal>
    requires side_len { length side.old ≡ 4 * quarter }
    requires on_side { OnSide quarter n (quarter_of quarter 0 side.old) (quarter_of quarter 1 side.old) }
    ensures edits_side { EditsSide quarter (side_reply n result) n (editing e) (quarter_of quarter 0 side.old) (quarter_of quarter 1 side.old)
        (quarter_of quarter 0 side.new) (quarter_of quarter 1 side.new) }
    ensures side_unchanged { drop (2 * quarter) side.new ≡ drop (2 * quarter) side.old }
{
    let (text, others) = side.split_at_mut(QUARTER);
    on_side(QUARTER, e, n, text, &mut others[..QUARTER])
}

fn other_mode(mode: Mode) -> Mode
    ensures { result ≡ other_mode mode }
{
    match mode {
        Mode::Main => Mode::Quoted,
        Mode::Quoted => Mode::Main,
    }
}

// QUOTE: the other mode, with an empty quotation.
#[tactic(auto, unfolding(crate::specs::Rules::Bytes::quarter))]
pub fn quote_key(n: Lengths, side: &mut [u8]) -> EditorDone
    requires { length side.old ≡ 4 * quarter }
    ensures { EditsQuotation (editor_done result) n (λ T p. bounded T quarter (quoted p)) side.old side.new }
{
    vacate(side, 0, 2 * QUARTER);
    EditorDone {
        report: QUIET,
        lengths: cleared(n, other_mode(n.mode)),
    }
}

// The quotation's text goes over to the quarter at `at` as a pair, and both of its own quarters become free.
#[tactic(auto, unfolding(crate::specs::Rules::Bytes::quarter))]
fn give_quotation(l: usize, r: usize, at: usize, side: &mut [u8])
    requires side_len { (length side.old ≡ 4 * quarter) × (l + r ≤ quarter) }
    requires quarter_bound { (2 * quarter ≤ at) × (at + quarter ≤ 4 * quarter) }
    ensures { side.new ≡ patch 0 (zeros (2 * quarter))
        (patch at (paired quarter (ungap l r (quarter_of quarter 0 side.old))) side.old) }
{
    let (own, others) = side.split_at_mut(2 * QUARTER);
    let from = at - 2 * QUARTER;
    let to = from + QUARTER;
    hand_over(View::of(&own[..QUARTER], l, r), &mut others[from..to]);
    clear(own);
}

// In QUOTED the quotation is given to the quarter at `at`; in MAIN there is none.
pub fn hand_quotation(mode: Mode, n: Sizes, at: usize, side: &mut [u8])
    requires side_len { (length side.old ≡ 4 * quarter) × (n.l + n.r ≤ quarter) }
    requires quarter_bound { (2 * quarter ≤ at) × (at + quarter ≤ 4 * quarter) }
    ensures { side.new ≡ handed quarter mode n at side.old }
{
    match mode {
        Mode::Main => {}
        Mode::Quoted => give_quotation(n.l, n.r, at, side),
    }
}
