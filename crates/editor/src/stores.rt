// The four stores: their sizes, the session test without the window's part, and a text newly opened. The tests take the length of a quarter,
// since a conversion has them look at an old session.
ghost use Rattle.std.specs.Prelude.{◌≡◌, true, ◌+◌, ◌*◌, ◌^◌, ◌≤◌, ◌<◌, length};
ghost use Rattle.editor.specs.Rules.Marks.{mark_within};
ghost use Rattle.editor.specs.Rules.Bytes.{quarter, sized, one_half, unquoted, editor_ok};
ghost use Rattle.editor.specs.Wording.Promise.{stores, Opens};
ghost use Rattle.editor.specs.Wording.Stores.{stores_as, SameStores};

use crate::records::{NO_SIZES, holding_sizes, opening_lengths};
use crate::{LONGEST_LINE, Lengths, Mode, Sizes};
use gap::line_limits::sound_document;
use gap::runs::clear;
use gap::sound::{sound_gap, sound_pair};
use gap::texts::open_text;

// The four stores, lent together to what works on all of them. A function that does not touch one of them is lent the others one by one.
#[derive(Drop)]
pub struct Stores<'a> {
    pub text: &'a mut [u8],
    pub recall: &'a mut [u8],
    pub held: &'a mut [u8],
    pub side: &'a mut [u8],
}

// The stores have the lengths that the table asks for.
pub fn sized_stores(q: usize, text: &[u8], recall: &[u8], held: &[u8], side: &[u8]) -> bool
    requires { 4 * q < 2 ^ 64 }
    ensures { result ≡ sized q (stores text.now recall.now held.now side.now) }
{
    let t = text.len();
    ((1 <= t) & (t <= 65536)) & (((recall.len() == t) & (held.len() == t)) & (side.len() == 4 * q))
}

// A recall text lies on one side only.
fn one_half(n: Sizes) -> bool
    ensures { result ≡ one_half n }
{
    (n.rl == 0) | (n.rr == 0)
}

// Without QUOTED there is no quotation.
fn no_quotation(mode: Mode, n: Sizes) -> bool
    ensures { result ≡ unquoted mode n }
{
    match mode {
        Mode::Main => n == NO_SIZES,
        Mode::Quoted => true,
    }
}

// The mark lies within a document of l and r bytes. Their sum is not taken: in a damaged record it could wrap.
fn mark_within(l: usize, r: usize, mark: Option<usize>) -> bool
    ensures { result ≡ mark_within (l + r) mark }
{
    let Some(m) = mark else {
        return true;
    };
    if m <= l {
        return true;
    }
    m - l <= r
}

// Record and stores are a session's, but for the cursor on the screen. Every byte is read, and nothing is left early.
pub fn editor_ok(q: usize, n: Lengths, text: &[u8], recall: &[u8], held: &[u8], side: &[u8]) -> bool
    requires { sized q (stores text.now recall.now held.now side.now) ≡ true }
    ensures { result ≡ editor_ok q n (stores text.now recall.now held.now side.now) }
{
    let document = sound_document(LONGEST_LINE, text, n.main.l, n.main.r)
        & sound_pair(recall, n.main.rl, n.main.rr);
    let quotation = sound_gap(&side[..q], n.quoted.l, n.quoted.r)
        & sound_pair(&side[q..2 * q], n.quoted.rl, n.quoted.rr);
    let others = sound_pair(&side[2 * q..3 * q], n.pl, 0)
        & sound_pair(&side[3 * q..4 * q], n.xl, n.xr);
    let kept = sound_pair(held, n.hl, n.hr) & mark_within(n.main.l, n.main.r, n.mark);
    let shape = (one_half(n.main) & one_half(n.quoted))
        & (one_half(holding_sizes(n)) & no_quotation(n.mode, n.quoted));
    document & (quotation & (others & (kept & shape)))
}

// The first n bytes of the text store become the document, with the cursor at its beginning; everything else is emptied.
pub fn open_stores(n: usize, lent: &mut Stores) -> Lengths
    requires side_value { sized quarter (stores_as lent.old) ≡ true }
    requires n_in_bounds { n ≤ length lent.old.text.now }
    ensures opens { Opens result n (stores_as lent.old) (stores_as lent.new) }
    ensures same { SameStores lent.old lent.new }
{
    open_text(&mut *lent.text, n);
    clear(&mut *lent.recall);
    clear(&mut *lent.held);
    clear(&mut *lent.side);
    opening_lengths(n)
}
