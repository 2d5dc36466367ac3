// Newlines of a run of bytes.
ghost use Rattle.std.specs.Prelude.{◌≡◌, ◌≢◌, not, ℕ, ◌+◌, ◌^◌, ◌≤◌, ◌<◌, eqb, length, slice_index, IfSome, IfNone};
ghost use Rattle.gap.specs.Rules.Sequence.{every};
ghost use Rattle.gap.specs.Rules.Lines.{newline, newlines, since_after, Unbroken};
ghost use Rattle.gap.specs.Rules.Fields.{end_at};

use crate::sound::all_pass;

// The newlines of a short run, in a byte, so that the loop is vectorised.
fn newlines_short(s: &[u8]) -> u8
    requires { length s.now ≤ 255 }
    ensures { result ≡ newlines s.now }
{
    let mut count = 0;
    for b in s {
        count += u8::from(*b == b'\n');
    }
    count
}

// How many newlines there are, counted block by block. A block of 192 bytes is whole vectors, with no rest to count byte by byte.
pub fn count_newlines(s: &[u8]) -> usize
    ensures { result ≡ newlines s.now }
{
    let mut count = 0;
    for block in s.chunks(192) {
        count += usize::from(newlines_short(block));
    }
    count
}

// A run has a newline.
fn has_newline(s: &[u8]) -> bool
    ensures { result ≡ not (every (λ b. not (eqb b newline)) s.now) }
{
    !all_pass(s, |b| b != b'\n')
}

// A place from which on there is no newline: from the back, in blocks of 32 bytes, only as far as one that has a newline.
fn back_without(s: &[u8]) -> usize
    ensures { Unbroken s.now result (length s.now) }
{
    let mut i = s.len();
    for block in s.rchunks_exact(32) {
        if has_newline(block) {
            return i;
        }
        i -= block.len();
    }
    i
}

// A place up to which there is no newline from place `at` on: the same in the other direction. One function over both would have to be handed
// how the place goes on from a block.
fn front_without(s: &[u8], at: usize) -> usize
    requires { at ≤ length s.now }
    ensures { Unbroken s.now at result }
{
    let mut i = at;
    for block in s[at..].chunks_exact(32) {
        if has_newline(block) {
            return i;
        }
        i += block.len();
    }
    i
}

// Where the first newline of a run stands. `end_at` rests on this and `since_newline` on the next: the one answers a place, the other a
// distance that may go on from bytes before the run.
fn first_newline(s: &[u8]) -> Option<usize>
    ensures inside { IfSome result (λ i. i < length s.now) }
    ensures newline { IfSome result (λ i. slice_index s.now i ≡ newline) }
    ensures none_before { IfSome result (λ i. (k : ℕ) → k < i → slice_index s.now k ≢ newline) }
    ensures none { IfNone result ((k : ℕ) → k < length s.now → slice_index s.now k ≢ newline) }
{
    s.iter().position(|b| *b == b'\n')
}

// Where the last one stands.
fn last_newline(s: &[u8]) -> Option<usize>
    ensures inside { IfSome result (λ i. i < length s.now) }
    ensures newline { IfSome result (λ i. slice_index s.now i ≡ newline) }
    ensures none_behind { IfSome result (λ i. (k : ℕ) → i < k → k < length s.now → slice_index s.now k ≢ newline) }
    ensures none { IfNone result ((k : ℕ) → k < length s.now → slice_index s.now k ≢ newline) }
{
    s.iter().rposition(|b| *b == b'\n')
}

// Where the line that starts at `at` ends: at a newline, or at the end.
pub fn end_at(s: &[u8], at: usize) -> usize
    requires { at ≤ length s.now }
    ensures { result ≡ end_at s.now at }
{
    let start = front_without(s, at);
    match first_newline(&s[start..]) {
        Some(i) => start + i,
        None => s.len(),
    }
}

// The bytes since the last newline, of a run that follows n bytes of its line: from the back, only as far as that newline.
pub fn since_newline(n: usize, s: &[u8]) -> usize
    requires { n + length s.now < 2 ^ 64 }
    ensures { result ≡ since_after n s.now }
{
    let end = back_without(s);
    match last_newline(&s[..end]) {
        Some(last) => s.len() - (last + 1),
        None => n + s.len(),
    }
}
