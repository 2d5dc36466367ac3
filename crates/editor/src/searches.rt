// FIND, UPFIND and REPLACE. Nothing is written before it is known that the key is accepted. Whether the pattern stands right of the cursor is
// found once and asked by each step (`here`), so that the refusals of REPLACE are one equation whether it stands there or not.
ghost use Rattle.std.specs.Prelude.{◌≡◌, true, not, ◌||◌, ◌+◌, ◌-◌, ◌*◌, ◌≤◌, leb, length};
ghost use Rattle.gap.specs.Wording.Views.{seen};
ghost use Rattle.editor.specs.Rules.Plain.{done};
ghost use Rattle.editor.specs.Rules.Keys.{searched, found, substituted, replaced, bounded};
ghost use Rattle.editor.specs.Rules.Bytes.{quarter};
ghost use Rattle.editor.specs.Wording.Promise.{SoundUnheld, EditsUnheld, Searchable, EditsTexts, SubstitutesUnheld};
ghost use Rattle.editor.specs.Wording.Promise.{Exchanges, ReadableExchanged, editor_reply, editor_done, replacing};

use crate::finds::text_begins;
use crate::passages::match_passage;
use crate::quotations::hand_quotation;
use crate::records::{QUIET, RANG, lifted, pattern_taken, replacement_taken};
use crate::refusals::Refusal;
use crate::sides::move_side;
use crate::{EditorDone, LONGEST_LINE, Lengths, Mode, QUARTER, SideDone, Sizes};
use gap::Direction;
use gap::line_limits::runs_fit;
use gap::runs::hold;
use gap::texts::{drop_right, place_pair};
use gap::views::View;

// A search with the stored pattern: to the nearest match, or the bell.
#[tactic(auto, unfolding(crate::specs::Rules::Bytes::quarter))]
fn search(way: Direction, n: Lengths, text: &mut [u8], side: &[u8]) -> EditorDone
    requires { Searchable n text.old side.now }
    ensures { EditsTexts (editor_done result) n (λ T p. done (searched way p)) text.old side.now text.new side.now }
{
    let end = 2 * QUARTER + n.pl;
    let document = View::of(text, n.main.l, n.main.r);
    let Some(passage) = match_passage(way, document, &side[2 * QUARTER..end]) else {
        return EditorDone {
            report: RANG,
            lengths: n,
        };
    };
    let t = move_side(way, passage, n.main, text);
    lifted(Mode::Main, n, t)
}

// FIND and UPFIND: in QUOTED the quotation becomes the pattern first.
#[tactic(auto, unfolding(crate::specs::Rules::Bytes::quarter))]
pub fn find_key(way: Direction, n: Lengths, text: &mut [u8], side: &mut [u8]) -> EditorDone
    requires { Searchable n text.old side.old }
    ensures { EditsTexts (editor_done result) n (λ T p. bounded T quarter (found way p)) text.old side.old text.new side.new }
{
    hand_quotation(n.mode, n.quoted, 2 * QUARTER, side);
    search(way, pattern_taken(n), text, side)
}

// The pattern right of the cursor is exchanged for the replacement and becomes the recall text; or, where it does not stand there,
// the bell. The finished text and its lines are known to fit.
fn substitute(here: bool, n: Lengths, text: &mut [u8], recall: &mut [u8], side: &[u8]) -> EditorDone
    requires { SubstitutesUnheld here n text.old recall.old side.now }
    ensures { EditsUnheld (editor_done result) n (λ T p. done (substituted p)) text.old recall.old side.now
        text.new recall.new side.now }
{
    if !here {
        return EditorDone {
            report: RANG,
            lengths: n,
        };
    }
    let main = n.main;
    let rest = main.r - n.pl;
    let replacement = View::of_pair(&side[3 * QUARTER..4 * QUARTER], n.xl, n.xr);
    let end = 2 * QUARTER + n.pl;
    drop_right(text, main.l, main.r, n.pl);
    place_pair(text, main.l, rest, replacement);
    hold(recall, &side[2 * QUARTER..end]);
    let done = SideDone {
        report: QUIET,
        sizes: Sizes {
            l: main.l + n.xl,
            r: rest + n.xr,
            rl: 0,
            rr: n.pl,
        },
    };
    lifted(Mode::Main, n, done)
}

// Where the pattern stands, the text with the replacement in its place fits: the pattern's room is given back first.
#[tactic(auto, unfolding(crate::specs::Rules::Bytes::quarter))]
fn exchange_fits(here: bool, size: usize, n: Lengths) -> bool
    requires r_bound { n.main.l + n.main.r ≤ size }
    requires pl_le_r { here ≡ true → n.pl ≤ n.main.r }
    requires xr_bound { n.xl + n.xr ≤ quarter }
    ensures { result ≡ (not here || leb (n.main.l + n.main.r - n.pl + (n.xl + n.xr)) size) }
{
    if !here {
        return true;
    }
    n.xl + n.xr <= size - (n.main.l + n.main.r - n.pl)
}

// What REPLACE puts in: in MAIN the replacement, in QUOTED the quotation, which becomes the replacement.
#[tactic(auto, unfolding(crate::specs::Rules::Bytes::quarter))]
fn replacing<'a>(n: Lengths, side: &'a [u8]) -> View<'a>
    requires side_len { length side.now ≡ 4 * quarter }
    requires fits { (n.xl + n.xr ≤ quarter) × (n.quoted.l + n.quoted.r ≤ quarter) }
    ensures { seen result ≡ replacing n.mode n side.now }
{
    match n.mode {
        Mode::Main => View::of_pair(&side[3 * QUARTER..4 * QUARTER], n.xl, n.xr),
        Mode::Quoted => View::of(&side[..QUARTER], n.quoted.l, n.quoted.r),
    }
}

// Where the pattern stands, no line of the document with the replacement in its place is too long.
fn exchange_readable(here: bool, n: Lengths, document: View<'_>, side: &[u8]) -> bool
    requires { Exchanges here n (seen document) side.now }
    ensures { ReadableExchanged result n (seen document.entry) side.now }
{
    if !here {
        return true;
    }
    let put = replacing(n, side);
    runs_fit(LONGEST_LINE, document.l, put.l, put.r, &document.r[n.pl..])
}

// REPLACE: FULL and then LINE are tested before anything is written; in QUOTED the quotation then becomes the replacement.
pub fn replace_key(
    n: Lengths,
    text: &mut [u8],
    recall: &mut [u8],
    side: &mut [u8],
) -> Result<EditorDone, Refusal>
    requires { SoundUnheld n text.old recall.old side.old }
    ensures { EditsUnheld (editor_reply n result) n (λ T p. bounded T quarter (replaced p)) text.old recall.old side.old
        text.new recall.new side.new }
{
    let end = 2 * QUARTER + n.pl;
    let document = View::of(text, n.main.l, n.main.r);
    let here = text_begins(document, n.main.l, &side[2 * QUARTER..end]);
    let m = replacement_taken(n);
    if !exchange_fits(here, text.len(), m) {
        return Err(Refusal::Full);
    }
    if !exchange_readable(here, n, document, side) {
        return Err(Refusal::Line);
    }
    hand_quotation(n.mode, n.quoted, 3 * QUARTER, side);
    Ok(substitute(here, m, text, recall, side))
}
