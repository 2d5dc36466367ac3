// Runs of bytes written one behind the other into a lent store. Not by `Display` or `write!`: what is promised is which byte stands where in the
// store, and that is as long as it was lent.
ghost use Rattle.std.specs.Prelude.{◌+◌, ◌≤◌, length};
ghost use Rattle.gap.specs.Wording.Written.{Wrote};

use crate::runs::copy_at;

// The run goes to place `at` of the store.
pub fn put(run: &[u8], out: &mut [u8], at: usize) -> usize
    requires { at + length run.now ≤ length out.old }
    ensures { Wrote at run.now out.old result out.new }
{
    copy_at(out, at, run);
    at + run.len()
}
