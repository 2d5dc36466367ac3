// The opening call and the key call: every record, every five stores and every key get an answer.
ghost use Rattle.std.specs.Prelude.{◌≡◌, true, ◌*◌, ◌≤◌, length, IfOk};
ghost use Rattle.editor.specs.Rules.Bytes.{quarter, sized};
ghost use Rattle.editor.specs.Wording.Promise.{stores, editor_done};
ghost use Rattle.editor.specs.Wording.Stores.{stores_as, SameStores};
ghost use Rattle.window.specs.Rules.Core.{rows_and_columns, tabled, opened_text};
ghost use Rattle.window.specs.Wording.Painter.{FromOne};
ghost use Rattle.window.specs.Wording.Promise.{OpenPromise, KeyPromise};
ghost use Rattle.window.specs.Wording.Calls.{newlines_left, session_test, Texts, lent, lent_as, called, accepted_reply, Openable, open_reply, key_reply, Shows};

use crate::cursor::{cursor, follow, is_visible, newlines_left, newlines_now};
use crate::painter::refresh;
use crate::{Accepted, Frame, Rows, Session, Unopened};
use editor::keys::press_session;
use editor::records::QUIET;
use editor::refusals::Refusal;
use editor::stores::{Stores, editor_ok, open_stores, sized_stores};
use editor::{EditorDone, Key, LONGEST_LINE, QUARTER};
use gap::line_limits::long_line;
use gap::sound::bad_byte;

// ---- Sizes and sessions

// H and W are as tabled.
pub fn rows_and_columns(h: usize, w: usize) -> bool
    ensures { result ≡ rows_and_columns h w }
{
    matches!(h, 1..=64) && matches!(w, 1..=256)
}

// All lengths are as tabled. H and W are known to be small before they are multiplied.
pub fn tabled_stores(
    h: usize,
    w: usize,
    text: &[u8],
    recall: &[u8],
    held: &[u8],
    side: &[u8],
    screen: &[u8],
) -> bool
    ensures { result ≡ tabled h w (lent text.now recall.now held.now side.now screen.now) }
{
    if !rows_and_columns(h, w) {
        return false;
    }
    sized_stores(QUARTER, text, recall, held, side) & (screen.len() == h * w)
}

// The same of stores that are lent together.
fn lent_tabled(h: usize, w: usize, lent: &Stores, screen: &[u8]) -> bool
    ensures { result ≡ tabled h w (lent_as lent.now screen.now) }
{
    tabled_stores(
        h,
        w,
        &*lent.text,
        &*lent.recall,
        &*lent.held,
        &*lent.side,
        screen,
    )
}

// Whether record and stores are a session in quarters of q bytes. The newlines counted on the way are handed on.
pub fn session_test(
    q: usize,
    s: Session,
    text: &[u8],
    recall: &[u8],
    held: &[u8],
    side: &[u8],
) -> Option<usize>
    requires { (q ≤ quarter) × (sized q (stores text.now recall.now held.now side.now) ≡ true) }
    ensures { result ≡ session_test q s (stores text.now recall.now held.now side.now) }
{
    if !editor_ok(q, s.lengths, text, recall, held, side) {
        return None;
    }
    let above = newlines_left(s.lengths, text);
    if !is_visible(s.frame, cursor(above, s.lengths, text, side)) {
        return None;
    }
    Some(above)
}

// The same of stores that are lent together, in quarters as they are now.
#[tactic(auto, unfolding(editor::specs::Rules::Bytes::quarter))]
fn lent_test(s: Session, lent: &Stores) -> Option<usize>
    requires { sized quarter (stores_as lent.now) ≡ true }
    ensures { result ≡ session_test quarter s (stores_as lent.now) }
{
    session_test(
        QUARTER,
        s,
        &*lent.text,
        &*lent.recall,
        &*lent.held,
        &*lent.side,
    )
}

// ---- Opening

// A text that is sound becomes the document; everything else is emptied, and the screen is painted whole.
fn open_sound(n: usize, h: usize, w: usize, lent: &mut Stores, screen: &mut [u8]) -> Accepted
    requires screen_value { tabled h w (lent_as lent.old screen.old) ≡ true }
    requires n_in_bounds { n ≤ length lent.old.text.now }
    ensures opens { called (accepted_reply result) (lent_as lent.new screen.new) ≡ opened_text n h w (lent_as lent.old screen.old) }
    ensures from_one { FromOne result.named }
    ensures same { SameStores lent.old lent.new }
{
    let frame = Frame { r: 0, c: 0, h, w };
    let lengths = open_stores(n, lent);
    // Both are only read; the check covers two loans through one `&mut` where each is a `&mut`.
    let text = &mut *lent.text;
    let side = &mut *lent.side;
    refresh(lengths, frame, text, side, screen);
    Accepted {
        report: QUIET,
        named: Some(Rows { first: 1, last: h }),
        row: 1,
        column: 0,
        session: Session { lengths, frame },
    }
}

// What refuses an opening: SIZE, LONG, TEXT or LINE, in this order.
fn openable(n: usize, h: usize, w: usize, lent: &Stores, screen: &[u8]) -> Result<(), Unopened>
    ensures { Openable result n h w (lent_as lent.now screen.now) }
{
    if !lent_tabled(h, w, lent, screen) {
        return Err(Unopened::Size);
    }
    let text = &*lent.text;
    if text.len() < n {
        return Err(Unopened::Long);
    }
    if let Some(i) = bad_byte(&text[..n]) {
        return Err(Unopened::Text(i));
    }
    if let Some(i) = long_line(LONGEST_LINE, &text[..n]) {
        return Err(Unopened::Line(i));
    }
    Ok(())
}

// The opening call: a refusal, or the text opened. n is the stated length of the text.
pub fn open(
    n: usize,
    h: usize,
    w: usize,
    lent: &mut Stores,
    screen: &mut [u8],
) -> Result<Accepted, Unopened>
    ensures answers { OpenPromise n h w (lent_as lent.old screen.old) (called (open_reply result) (lent_as lent.new screen.new)) }
    ensures from_one { IfOk result (λ a. FromOne a.named) }
    ensures same { SameStores lent.old lent.new }
{
    openable(n, h, w, lent, screen)?;
    Ok(open_sound(n, h, w, lent, screen))
}

// ---- A key

// An accepted key: the offsets follow the cursor, the screen becomes the window, and the changed rows are named.
fn show(
    f: Frame,
    above: usize,
    done: EditorDone,
    text: &[u8],
    side: &[u8],
    screen: &mut [u8],
) -> Accepted
    requires texts { Texts done.lengths text.now side.now }
    requires above_value { above ≡ newlines_left done.lengths.main.l text.now }
    requires w_value { (rows_and_columns f.h f.w ≡ true) × (length screen.old ≡ f.h * f.w) }
    ensures shows { Shows (accepted_reply result) f (editor_done done) text.now side.now screen.old screen.new }
    ensures from_one { FromOne result.named }
{
    let spot = cursor(above, done.lengths, text, side);
    let g = follow(f, spot);
    let named = refresh(done.lengths, g, text, side, screen);
    Accepted {
        report: done.report,
        named,
        row: spot.row - g.r,
        column: spot.column - g.c,
        session: Session {
            lengths: done.lengths,
            frame: g,
        },
    }
}

// The key call: SIZE, SESSION, KEY, FULL, LINE, or done.
pub fn press(s: Session, k: Key, lent: &mut Stores, screen: &mut [u8]) -> Result<Accepted, Refusal>
    ensures answers { KeyPromise s k (lent_as lent.old screen.old) (called (key_reply s result) (lent_as lent.new screen.new)) }
    ensures from_one { IfOk result (λ a. FromOne a.named) }
    ensures same { SameStores lent.old lent.new }
{
    if !lent_tabled(s.frame.h, s.frame.w, lent, screen) {
        return Err(Refusal::Size);
    }
    let Some(above) = lent_test(s, lent) else {
        return Err(Refusal::Session);
    };
    let done = press_session(s.lengths, k, lent)?;
    // Both are only read, as in `open_sound`.
    let text = &mut *lent.text;
    let side = &mut *lent.side;
    let below = newlines_now(k, above, s.lengths.main, done, text);
    Ok(show(s.frame, below, done, text, side, screen))
}
