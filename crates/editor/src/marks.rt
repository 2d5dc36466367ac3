// MARK, CUT and PASTE, and the mark through every change of the document.
ghost use Rattle.std.specs.Prelude.{◌≡◌, true, ◌+◌, ◌^◌, ◌≤◌, ◌<◌};
ghost use Rattle.editor.specs.declared.Key.TheVariants.{Replace};
ghost use Rattle.editor.specs.Rules.LongLines.{longest_line};
ghost use Rattle.editor.specs.Rules.Marks.{mark_within};
ghost use Rattle.editor.specs.Rules.Keys.{marked_here, cut, pasted, bounded};
ghost use Rattle.editor.specs.Rules.Bytes.{quarter, holding_sizes};
ghost use Rattle.editor.specs.Wording.Promise.{OnSide, EditsAny, EditsHeld, editor_reply, editor_done};
ghost use Rattle.editor.specs.Wording.Marks.{in_document, coming, going, exchange_of, mark_exchanged, followed_reply, Moderate, Followable};

use crate::records::{QUIET, RANG, holding_sizes, lifted_held, marked_at};
use crate::refusals::Refusal;
use crate::sides::{delete_side, recall_side};
use crate::{Action, EditorDone, Exchange, Key, LONGEST_LINE, Lengths, Mode, Passage, Report};
use gap::Direction;

// ---- The three keys

// MARK: the mark at the cursor.
pub fn mark_key(n: Lengths) -> EditorDone
    ensures { EditsAny (editor_done result) n (λ T p. bounded T quarter (marked_here p)) }
{
    EditorDone {
        report: QUIET,
        lengths: marked_at(n, Some(n.main.l)),
    }
}

// CUT: a deletion of the bytes between cursor and mark, with the held text's store lent for the recall text's.
pub fn cut_key(n: Lengths, text: &mut [u8], held: &mut [u8]) -> Result<EditorDone, Refusal>
    requires on_side { OnSide longest_line (holding_sizes n) text.old held.old }
    requires mark_value { mark_within (n.main.l + n.main.r) n.mark ≡ true }
    ensures { EditsHeld (editor_reply n result) n (λ T p. bounded T quarter (cut p)) text.old held.old text.new held.new }
{
    let Some(m) = n.mark else {
        return Ok(EditorDone {
            report: RANG,
            lengths: n,
        });
    };
    let sizes = holding_sizes(n);
    let l = sizes.l;
    if m <= l {
        let before = Passage {
            steps: l - m,
            lines: 0,
        };
        let t = delete_side(LONGEST_LINE, Direction::Left, before, sizes, text, held)?;
        return Ok(lifted_held(n, None, t));
    }
    let behind = Passage {
        steps: m - l,
        lines: 0,
    };
    let t = delete_side(LONGEST_LINE, Direction::Right, behind, sizes, text, held)?;
    Ok(lifted_held(n, None, t))
}

// PASTE: the held pair goes in as RECALL puts the recall pair in.
pub fn paste_key(n: Lengths, text: &mut [u8], held: &[u8]) -> Result<EditorDone, Refusal>
    requires { OnSide longest_line (holding_sizes n) text.old held.now }
    ensures { EditsHeld (editor_reply n result) n (λ T p. bounded T quarter (pasted p)) text.old held.now text.new held.now }
{
    let t = recall_side(LONGEST_LINE, holding_sizes(n), text, held)?;
    Ok(lifted_held(n, n.mark, t))
}

// ---- The mark through a change

const NOTHING: Exchange = Exchange {
    before: 0,
    behind: 0,
    come: 0,
};

// In QUOTED an edit changes nothing of the document.
fn in_document(mode: Mode, e: Exchange) -> Exchange
    ensures { result ≡ in_document mode e }
{
    match mode {
        Mode::Main => e,
        Mode::Quoted => NOTHING,
    }
}

fn coming(n: usize) -> Exchange
    ensures { result ≡ coming n }
{
    Exchange {
        before: 0,
        behind: 0,
        come: n,
    }
}

fn going(way: Direction, n: usize) -> Exchange
    ensures { result ≡ going way n }
{
    match way {
        Direction::Left => Exchange {
            before: n,
            behind: 0,
            come: 0,
        },
        Direction::Right => Exchange {
            before: 0,
            behind: n,
            come: 0,
        },
    }
}

// REPLACE with the bell changes nothing.
#[tactic(auto, unfolding(crate::specs::Wording::Marks::exchange_of))]
fn replacing(report: Report, m: Lengths) -> Exchange
    requires { m.xl + m.xr < 2 ^ 64 }
    ensures { result ≡ exchange_of Replace m report m }
{
    if report.bell {
        return NOTHING;
    }
    Exchange {
        before: 0,
        behind: m.pl,
        come: m.xl + m.xr,
    }
}

// What a key changes of the document, once it is done: n are the lengths before it, m those behind it.
#[tactic(auto, unfolding(crate::specs::Wording::Marks::exchange_of))]
fn exchange_of(k: Key, n: Lengths, report: Report, m: Lengths) -> Exchange
    requires rr_bound { (n.main.rl + n.main.rr < 2 ^ 64) × (n.hl + n.hr < 2 ^ 64) }
    requires xr_bound { m.xl + m.xr < 2 ^ 64 }
    ensures { result ≡ exchange_of k n report m }
{
    match k {
        Key::Insert(_) => in_document(n.mode, coming(1)),
        Key::Function(action, way, _) => match action {
            Action::Move => NOTHING,
            Action::Delete => in_document(n.mode, going(way, report.steps)),
        },
        Key::Recall => in_document(n.mode, coming(n.main.rl + n.main.rr)),
        Key::Quote => NOTHING,
        Key::Find(_) => NOTHING,
        Key::Replace => replacing(report, m),
        Key::Mark => NOTHING,
        Key::Cut => NOTHING,
        Key::Paste => coming(n.hl + n.hr),
        Key::Newline => in_document(n.mode, coming(report.steps)),
        Key::Tab => in_document(n.mode, coming(report.steps)),
    }
}

// The mark through a change at a cursor with l bytes before it.
fn mark_through(e: Exchange, l: usize, mark: Option<usize>) -> Option<usize>
    requires { Moderate e l mark }
    ensures { result ≡ mark_exchanged e l mark }
{
    let Some(m) = mark else {
        return None;
    };
    let from = l - e.before;
    let gone = e.before + e.behind;
    if m <= from {
        return Some(m);
    }
    if m < from + gone {
        return None;
    }
    if m == from + gone {
        return Some(from);
    }
    Some(m - gone + e.come)
}

// A key that is done, with the mark where its change leaves it.
pub fn followed(k: Key, n: Lengths, done: EditorDone) -> EditorDone
    requires { Followable k n (editor_done done) }
    ensures { editor_done result ≡ followed_reply k n (editor_done done) }
{
    let m = done.lengths;
    let e = exchange_of(k, n, done.report, m);
    EditorDone {
        report: done.report,
        lengths: marked_at(m, mark_through(e, n.main.l, m.mark)),
    }
}
