// Lines that are longer than a limit of bytes.
ghost use Rattle.std.specs.Prelude.{◌≡◌, true, ◌&&◌, ◌++◌, ◌+◌, ◌^◌, ◌<◌, leb, length};
ghost use Rattle.gap.specs.Rules.Doc.{content};
ghost use Rattle.gap.specs.Rules.Layout.{ungap, sound_gap};
ghost use Rattle.gap.specs.Rules.Fields.{line_of};
ghost use Rattle.gap.specs.Rules.LineLimits.{lines_fit, long_line};
ghost use Rattle.gap.specs.Wording.LinesAfter.{lines_fit_after};

use crate::lines::{end_at, since_newline};
use crate::sound::sound_gap;

// No line is longer than the limit, of a run that follows n bytes of its line. Lines are not walked one by one: `room` bytes may still stand
// on the line that goes on with the rest, and among one more than these the last newline is looked for from the back. Whatever lines lie before
// it are within the limit; where there is none, the line is too long.
pub fn lines_fit(limit: usize, n: usize, s: &[u8]) -> bool
    ensures { result ≡ lines_fit_after limit n s.now }
{
    if limit < n {
        return false;
    }
    let mut room = limit - n;
    let mut rest = s;
    while room < rest.len() {
        let end = room + 1;
        let since = since_newline(0, &rest[..end]);
        if room < since {
            return false;
        }
        rest = &rest[end - since..];
        room = limit;
    }
    true
}

// The first line of a run, with the bytes of it that stand before the run. No sum is formed, so that none can wrap.
pub fn line_fits(limit: usize, at: usize, behind: &[u8]) -> bool
    ensures { result ≡ leb (at + length (line_of behind.now)) limit }
{
    if limit < at {
        return false;
    }
    end_at(behind, 0) <= limit - at
}

// Two runs are put into a text that has no longer line: only they are read, the line that they go on with, and the one that goes on
// behind them.
pub fn runs_fit(limit: usize, front: &[u8], x: &[u8], y: &[u8], behind: &[u8]) -> bool
    requires front_value { (lines_fit limit front.now ≡ true) × (lines_fit limit behind.now ≡ true) }
    requires y_len_bound { length front.now + (length x.now + length y.now) < 2 ^ 64 }
    ensures { result ≡ lines_fit limit (front.now ++ (x.now ++ (y.now ++ behind.now))) }
{
    let at_x = since_newline(0, front);
    if !lines_fit(limit, at_x, x) {
        return false;
    }
    let at_y = since_newline(at_x, x);
    if !lines_fit(limit, at_y, y) {
        return false;
    }
    let at_behind = since_newline(at_y, y);
    line_fits(limit, at_behind, behind)
}

// The store is a sound gap store for these lengths, and its document has no longer line.
pub fn sound_document(limit: usize, s: &[u8], l: usize, r: usize) -> bool
    ensures { result ≡ (sound_gap l r s.now && lines_fit limit (content (ungap l r s.now))) }
{
    if !sound_gap(s, l, r) {
        return false;
    }
    let start = s.len() - r;
    let front = &s[..l];
    if !lines_fit(limit, 0, front) {
        return false;
    }
    let at = since_newline(0, front);
    lines_fit(limit, at, &s[start..])
}

// Where the first longer line begins. Line by line only where there is one; `split` would give the lines without their places, which had to be
// counted beside them.
pub fn long_line(limit: usize, s: &[u8]) -> Option<usize>
    ensures { result ≡ long_line limit s.now }
{
    if lines_fit(limit, 0, s) {
        return None;
    }
    let mut i = 0;
    while i < s.len() {
        let end = end_at(s, i);
        if limit < end - i {
            return Some(i);
        }
        if s.len() <= end {
            return None;
        }
        i = end + 1;
    }
    None
}
