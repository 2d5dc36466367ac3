// Runs of bytes: filling, clearing, copying, taking a run out of a store into a pair store, and shifting a run within a store.
ghost use Rattle.std.specs.Prelude.{◌≡◌, ◌++◌, ◌+◌, ◌-◌, ◌≤◌, ◌<◌, length, take, drop, replicate};
ghost use Rattle.gap.specs.Rules.Sequence.{part, patch, zeros};

// Every byte becomes 0.
#[tactic(auto, unfolding(crate::specs::Rules::Sequence::zeros))]
pub fn clear(s: &mut [u8])
    ensures { s.new ≡ zeros (length s.old) }
{
    s.fill(0);
}

// The run is copied to the front.
pub fn copy_front(s: &mut [u8], run: &[u8])
    requires { length run.now ≤ length s.old }
    ensures { s.new ≡ run.now ++ drop (length run.now) s.old }
{
    s[..run.len()].copy_from_slice(run);
}

// The run goes to place `at`.
pub fn copy_at(s: &mut [u8], at: usize, run: &[u8])
    requires { at + length run.now ≤ length s.old }
    ensures { s.new ≡ patch at run.now s.old }
{
    copy_front(&mut s[at..], run);
}

// The d bytes from `at` on become b.
pub fn fill_at(s: &mut [u8], at: usize, d: usize, b: u8)
    requires { at + d ≤ length s.old }
    ensures { s.new ≡ patch at (replicate d b) s.old }
{
    let end = at + d;
    s[at..end].fill(b);
}

// The d bytes from `at` on become 0: vacated bytes are cleared at once.
#[tactic(auto, unfolding(crate::specs::Rules::Sequence::zeros))]
pub fn vacate(s: &mut [u8], at: usize, d: usize)
    requires { at + d ≤ length s.old }
    ensures { s.new ≡ patch at (zeros d) s.old }
{
    fill_at(s, at, d, 0);
}

// From place n on, every byte becomes 0.
pub fn clear_from(s: &mut [u8], n: usize)
    requires { n ≤ length s.old }
    ensures { s.new ≡ take n s.old ++ zeros (length s.old - n) }
{
    let rest = s.len() - n;
    vacate(s, n, rest);
}

// The run is all that the store holds: the run, then zeros to the end.
pub fn hold(s: &mut [u8], run: &[u8])
    requires { length run.now ≤ length s.old }
    ensures { s.new ≡ run.now ++ zeros (length s.old - length run.now) }
{
    let n = run.len();
    copy_front(s, run);
    clear_from(s, n);
}

// The d bytes from `at` on become all that a pair store holds, and their place becomes 0.
pub fn take_out(s: &mut [u8], at: usize, d: usize, pair: &mut [u8])
    requires { (at + d ≤ length s.old) × (d ≤ length pair.old) }
    ensures s_after { s.new ≡ patch at (zeros d) s.old }
    ensures pair_after { pair.new ≡ part at d s.old ++ zeros (length pair.old - d) }
{
    let end = at + d;
    hold(pair, &s[at..end]);
    vacate(s, at, d);
}

// A run of any length goes from one place to another, which may overlap, and its old place becomes 0. The run is copied first; then only
// what its new place leaves bare of the old one has to be cleared: bytes at the front on the way up, else at the end. At an empty gap the two
// places are one, and nothing is done: `copy_within` would copy each byte onto itself, one by one.
pub fn shift(s: &mut [u8], from: usize, to: usize, d: usize)
    requires { (from + d ≤ length s.old) × (to + d ≤ length s.old) }
    ensures { s.new ≡ patch to (part from d s.old) (patch from (zeros d) s.old) }
{
    if to == from {
        return;
    }
    s.copy_within(from..from + d, to);
    if from < to {
        let bare = d.min(to - from);
        vacate(s, from, bare);
        return;
    }
    let bare = d.min(from - to);
    vacate(s, from + (d - bare), bare);
}
