// Tests of bytes and of whole stores.
ghost use Rattle.std.specs.Prelude.{◌≡◌, ℕ, Bool, true, false, not, ◌&&◌, ◌++◌, ◌+◌, ◌-◌, ◌≤◌, ◌<◌, length, take, drop, get_or};
ghost use Rattle.gap.specs.Rules.Sequence.{every, part};
ghost use Rattle.gap.specs.Rules.Nearest.{nearest};
ghost use Rattle.gap.specs.Rules.Layout.{printable, allowed, free, sound_gap, sound_pair};
ghost use Rattle.gap.specs.Wording.Closures.{Says};

// A byte that is printed. By `&` and not as a range: `all_pass` is vectorised over tests without a branch.
fn is_printable(b: u8) -> bool
    ensures { result ≡ printable b }
{
    (b' ' <= b) & (b <= b'~')
}

// A byte that a text may have.
pub fn is_allowed(b: u8) -> bool
    ensures { result ≡ allowed b }
{
    (b == b'\n') | is_printable(b)
}

// Every byte passes the test. The loop carries a flag and has neither branch nor exit, so that it is vectorised.
pub(crate) fn all_pass<F: Fn(u8) -> bool>(s: &[u8], test: F) -> bool
    requires { F.IsAlwaysCallable test }
    ensures { (passes : ℕ → Bool) → Says (F.post test) passes → result ≡ every passes s.now }
{
    let mut ok = true;
    for b in s {
        ok &= test(*b);
    }
    ok
}

// The first byte that fails the test. Byte by byte only where there is one.
fn first_failing<F: Fn(u8) -> bool>(s: &[u8], test: F) -> Option<usize>
    requires { F.IsAlwaysCallable test }
    ensures { (passes : ℕ → Bool) → Says (F.post test) passes → result ≡ nearest (λ i. not (passes (get_or s.now i 0))) (length s.now) 0 }
{
    if all_pass(s, &test) {
        return None;
    }
    s.iter().position(|b| !test(*b))
}

// Every byte is allowed in a text.
pub fn all_allowed(s: &[u8]) -> bool
    ensures { result ≡ every allowed s.now }
{
    all_pass(s, is_allowed)
}

// Every byte is 0.
pub fn all_free(s: &[u8]) -> bool
    ensures { result ≡ every free s.now }
{
    all_pass(s, |b| b == 0)
}

// The first byte that is not allowed.
pub fn bad_byte(s: &[u8]) -> Option<usize>
    ensures { result ≡ nearest (λ i. not (allowed (get_or s.now i 0))) (length s.now) 0 }
{
    first_failing(s, is_allowed)
}

// The first byte that is not printed.
pub fn bad_cell(s: &[u8]) -> Option<usize>
    ensures { result ≡ nearest (λ i. not (printable (get_or s.now i 0))) (length s.now) 0 }
{
    first_failing(s, is_printable)
}

// Texts of l and r bytes fit into n. No sum is formed, so that none can wrap.
fn fit(n: usize, l: usize, r: usize) -> bool
    ensures { (result ≡ true → l + r ≤ n) × (result ≡ false → n < l + r) }
{
    if n < l {
        return false;
    }
    r <= n - l
}

// The bytes in front of a and from b on are allowed, and those between are free.
fn free_between(s: &[u8], a: usize, b: usize) -> bool
    requires { (a ≤ b) × (b ≤ length s.now) }
    ensures { result ≡ (every allowed (take a s.now ++ drop b s.now) && every free (part a (b - a) s.now)) }
{
    let front = all_allowed(&s[..a]);
    let behind = all_allowed(&s[b..]);
    let between = all_free(&s[a..b]);
    front & behind & between
}

// The store is a sound gap store for these lengths.
pub fn sound_gap(s: &[u8], l: usize, r: usize) -> bool
    ensures { result ≡ sound_gap l r s.now }
{
    let n = s.len();
    if fit(n, l, r) {
        return free_between(s, l, n - r);
    }
    false
}

// The store is a sound pair store for these lengths: the same test, with all free bytes behind the texts.
pub fn sound_pair(s: &[u8], l: usize, r: usize) -> bool
    ensures { result ≡ sound_pair l r s.now }
{
    let n = s.len();
    if fit(n, l, r) {
        return free_between(s, l + r, n);
    }
    false
}
