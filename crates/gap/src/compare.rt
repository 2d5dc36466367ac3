// Comparing runs of bytes, and whether a run has a word or a pattern at a place.
ghost use Rattle.std.specs.Prelude.{◌≡◌, ◌≤◌, length, drop};
ghost use Rattle.gap.specs.Rules.Sequence.{same_bytes, begins};

// Both are the same, byte for byte.
#[tactic(auto, using(crate::proofs::Laws::Compared::pointwise_same))]
pub fn same_bytes(a: &[u8], b: &[u8]) -> bool
    ensures { result ≡ same_bytes a.now b.now }
{
    a == b
}

// A run of bytes has the pattern at place `at`.
pub fn run_begins(t: &[u8], at: usize, pattern: &[u8]) -> bool
    requires { at ≤ length t.now }
    ensures { result ≡ begins pattern.now (drop at t.now) }
{
    begins_with(pattern, &t[at..])
}

// The word stands at the front.
#[tactic(auto, using(crate::proofs::Laws::Compared::starts_begins))]
pub fn begins_with(word: &[u8], s: &[u8]) -> bool
    ensures { result ≡ begins word.now s.now }
{
    s.starts_with(word)
}
