// The cursor of the virtual text, its visibility, and the policy. Offsets may be any number: no sum of one is formed before it is
// known to be small.
ghost use Rattle.std.specs.Prelude.{◌≡◌, false, cond, ◌+◌, ◌-◌, ◌≤◌, ltb, length};
ghost use Rattle.editor.specs.Wording.Marks.{cuts};
ghost use Rattle.window.specs.Wording.Calls.{newlines_left, LeftCounted, visible_at, policy_at, HasTexts, IsSpot};

use crate::{Frame, Spot};
use editor::{EditorDone, Key, Lengths, Mode, Sizes};
use gap::lines::{count_newlines, since_newline};

// The newlines left of the document's cursor.
pub fn newlines_left(n: Lengths, text: &[u8]) -> usize
    requires { n.main.l ≤ length text.now }
    ensures { result ≡ newlines_left n.main.l text.now }
{
    count_newlines(&text[..n.main.l])
}

// The same after a key: with the lines that it reports, or without them. Where it reports none they are counted in what the text left of the
// cursor has gained.
pub fn newlines_after(above: usize, was: Sizes, done: EditorDone, text: &[u8]) -> usize
    requires l_in_bounds { done.lengths.main.l ≤ length text.now }
    requires left_counted { LeftCounted above was.l done.lengths.main.l done.report.lines text.now }
    ensures { result ≡ newlines_left done.lengths.main.l text.now }
{
    let l = was.l;
    let m = done.lengths.main.l;
    let lines = done.report.lines;
    if m < l {
        return above - lines;
    }
    if (l < m) & (0 < lines) {
        return above + lines;
    }
    above + count_newlines(&text[l..m])
}

// CUT is the one key that reports no lines of what it takes from before the cursor, so that after it they are counted anew. (02, M-104: lines,
// 0 for other keys.)
pub fn newlines_now(k: Key, above: usize, was: Sizes, done: EditorDone, text: &[u8]) -> usize
    requires l_in_bounds { done.lengths.main.l ≤ length text.now }
    requires left_counted { cuts k ≡ false → LeftCounted above was.l done.lengths.main.l done.report.lines text.now }
    ensures { result ≡ newlines_left done.lengths.main.l text.now }
{
    match k {
        Key::Cut => newlines_left(done.lengths, text),
        _ => newlines_after(above, was, done, text),
    }
}

// Row from 1 and column from 0, over the texts left of the cursor only.
pub fn cursor(above: usize, n: Lengths, text: &[u8], side: &[u8]) -> Spot
    requires has_texts { HasTexts n text.now side.now }
    requires above_value { above ≡ newlines_left n.main.l text.now }
    ensures { IsSpot result n text.now side.now }
{
    match n.mode {
        Mode::Main => Spot {
            row: above + 1,
            column: since_newline(0, &text[..n.main.l]),
        },
        Mode::Quoted => {
            let quotation = &side[..n.quoted.l];
            Spot {
                row: above + count_newlines(quotation) + 2,
                column: since_newline(1, quotation),
            }
        }
    }
}

// The cursor can be shown.
pub fn is_visible(f: Frame, s: Spot) -> bool
    ensures { result ≡ visible_at f s }
{
    f.r < s.row && s.row - f.r <= f.h && f.c <= s.column && s.column - f.c <= f.w
}

// An offset shows the places from offset + first to offset + last: the one that shows this place, moved as little as it takes.
fn moved_to(offset: usize, first: usize, last: usize, place: usize) -> usize
    requires { first ≤ place }
    ensures { result ≡ cond (ltb (place - first) offset) (place - first)
        (cond (ltb (offset + last) place) (place - last) offset) }
{
    if place - first < offset {
        return place - first;
    }
    if last < place - offset {
        return place - last;
    }
    offset
}

// The policy: rows count from 1, columns from 0.
pub fn follow(f: Frame, s: Spot) -> Frame
    requires { 1 ≤ s.row }
    ensures { result ≡ policy_at f s }
{
    Frame {
        r: moved_to(f.r, 1, f.h, s.row),
        c: moved_to(f.c, 0, f.w, s.column),
        ..f
    }
}
