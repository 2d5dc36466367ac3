// Lines by their places, and lines that have a word and a number: read, and written into a lent store.
ghost use Rattle.std.specs.Prelude.{◌≡◌, ◌+◌, ◌≤◌, length};
ghost use Rattle.gap.specs.Rules.Decimal.{word_digits};
ghost use Rattle.gap.specs.Rules.Fields.{next_at, line_number, field_of, header_at, entry};
ghost use Rattle.gap.specs.Wording.Written.{Wrote};

use crate::decimals::{number_of, put_decimal};
use crate::lines::{count_newlines, end_at};
use crate::writers::put;

// Where the next line starts.
pub fn next_at(s: &[u8], at: usize) -> usize
    requires { at ≤ length s.now }
    ensures { result ≡ next_at s.now at }
{
    let end = end_at(s, at);
    if end < s.len() {
        return end + 1;
    }
    end
}

// The number of the line that starts at `at`.
pub fn line_number(s: &[u8], at: usize) -> usize
    requires { at ≤ length s.now }
    ensures { result ≡ line_number s.now at }
{
    count_newlines(&s[..at]) + 1
}

// The number behind a word, on a line that has nothing else.
pub fn field_of(word: &[u8], most: usize, line: &[u8]) -> Option<usize>
    requires { most ≤ word_digits }
    ensures { result ≡ field_of word.now most line.now }
{
    number_of(most, line.strip_prefix(word)?)
}

// The number of a line that must end in a newline.
pub fn header_at(word: &[u8], most: usize, s: &[u8], at: usize) -> Option<usize>
    requires at_in_bounds { at ≤ length s.now }
    requires most_le_word_digits { most ≤ word_digits }
    ensures { result ≡ header_at word.now most s.now at }
{
    let end = end_at(s, at);
    if s.len() <= end {
        return None;
    }
    field_of(word, most, &s[at..end])
}

// A word, a number, a newline. Room is asked for a number of 20 digits, the most that one can have, so that callers count on the
// length of the word alone.
pub fn put_entry(word: &[u8], n: usize, out: &mut [u8], at: usize) -> usize
    requires { at + (length word.now + 21) ≤ length out.old }
    ensures wrote { Wrote at (entry word.now n) out.old result out.new }
    ensures upper_bound { result ≤ at + (length word.now + 21) }
{
    let number_at = put(word, out, at);
    let end = put_decimal(n, out, number_at);
    put(b"\n", out, end)
}
