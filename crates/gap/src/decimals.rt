// Decimal numbers read and written.
ghost use Rattle.std.specs.Prelude.{◌≡◌, true, [], ◌∷◌, ◌+◌, ◌≤◌, ◌<◌, length};
ghost use Rattle.gap.specs.Rules.Sequence.{every};
ghost use Rattle.gap.specs.Rules.Decimal.{digit, value, word_digits, is_number, number_of, decimal};
ghost use Rattle.gap.specs.Wording.Written.{Wrote};

use crate::sound::all_pass;

// Every byte is a digit.
fn all_digits(s: &[u8]) -> bool
    ensures { result ≡ every digit s.now }
{
    all_pass(s, |b| (b'0' <= b) & (b <= b'9'))
}

// The bytes write a number of at most so many digits. The length comes first, so that a long line is not gone through.
fn is_number(most: usize, s: &[u8]) -> bool
    ensures { result ≡ is_number most s.now }
{
    if s.len() < 1 {
        return false;
    }
    if most < s.len() {
        return false;
    }
    all_digits(s) & ((s.len() == 1) | (s[0] != b'0'))
}

// What the digits are worth: there are no more than a machine word has room for, so that no sum can wrap.
fn value_of(s: &[u8]) -> usize
    requires { (length s.now ≤ word_digits) × (every digit s.now ≡ true) }
    ensures { result ≡ value s.now }
{
    let mut n = 0;
    for b in s {
        n = n * 10 + usize::from(*b - b'0');
    }
    n
}

// The number that these bytes write, all of them, in at most so many digits. `parse` would take a sign and zeros in front.
pub fn number_of(most: usize, s: &[u8]) -> Option<usize>
    requires { most ≤ word_digits }
    ensures { result ≡ number_of most s.now }
{
    if is_number(most, s) {
        return Some(value_of(s));
    }
    None
}

// One digit goes to place `at` of the store.
fn put_digit(d: usize, out: &mut [u8], at: usize) -> usize
    requires { (d < 10) × (at < length out.old) }
    ensures { Wrote at ((48 + d) ∷ []) out.old result out.new }
{
    out[at] = (48 + d) as u8;
    at + 1
}

// The digits of n go to place `at` of the store: first those of its tenth part, then the last one.
pub fn put_decimal(n: usize, out: &mut [u8], at: usize) -> usize
    requires { at + length (decimal n) ≤ length out.old }
    ensures { Wrote at (decimal n) out.old result out.new }
{
    if n < 10 {
        return put_digit(n, out, at);
    }
    let last = put_decimal(n / 10, out, at);
    put_digit(n % 10, out, last)
}

// How many digits n has: asked before one of them is written, so it stands beside `put_decimal` with the same steps.
pub fn decimal_size(n: usize) -> usize
    ensures { result ≡ length (decimal n) }
{
    if n < 10 {
        return 1;
    }
    decimal_size(n / 10) + 1
}
