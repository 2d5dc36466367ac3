// Longer quarters: the side store of an old session becomes one of this layer's. (02, M-109.)
ghost use Rattle.std.specs.Prelude.{◌≡◌, ◌+◌, ◌*◌, ◌≤◌, length};
ghost use Rattle.gap.specs.Rules.Sequence.{patch};
ghost use Rattle.gap.specs.Rules.Layout.{ungap};
ghost use Rattle.editor.specs.Rules.Bytes.{quarter, quarter_of};
ghost use Rattle.editor.specs.Rules.Conversion.{old_quarter};
ghost use Rattle.editor.specs.Wording.Conversion.{spread, lengthened};

use crate::QUARTER;
use gap::runs::{copy_at, vacate};

// The length that a quarter had before.
pub const OLD_QUARTER: usize = 256;

// The quotation's l and r bytes go to the two ends of its new quarter.
fn lengthen_quotation(l: usize, r: usize, old: &[u8], side: &mut [u8])
    requires len { (length old.now ≡ 4 * old_quarter) × (length side.old ≡ 4 * quarter) }
    requires r_bound { l + r ≤ old_quarter }
    ensures { side.new ≡ spread quarter (ungap l r (quarter_of old_quarter 0 old.now)) side.old }
{
    let quotation = &old[..OLD_QUARTER];
    let behind = OLD_QUARTER - r;
    copy_at(side, 0, &quotation[..l]);
    copy_at(side, QUARTER - r, &quotation[behind..]);
}

// Quarter i goes to the front of its new one.
fn lengthen_quarter(i: usize, old: &[u8], side: &mut [u8])
    requires len { (length old.now ≡ 4 * old_quarter) × (length side.old ≡ 4 * quarter) }
    requires i_bound { i ≤ 3 }
    ensures { side.new ≡ patch (i * quarter) (quarter_of old_quarter i old.now) side.old }
{
    let end = (i + 1) * OLD_QUARTER;
    copy_at(side, i * QUARTER, &old[end - OLD_QUARTER..end]);
}

// Whatever the new side store held is cleared; then each quarter goes into its longer one.
pub fn lengthen(l: usize, r: usize, old: &[u8], side: &mut [u8])
    requires len { (length old.now ≡ 4 * old_quarter) × (length side.old ≡ 4 * quarter) }
    requires r_bound { l + r ≤ old_quarter }
    ensures { side.new ≡ lengthened old_quarter quarter l r old.now }
{
    vacate(side, 0, 4 * QUARTER);
    lengthen_quotation(l, r, old, side);
    lengthen_quarter(1, old, side);
    lengthen_quarter(2, old, side);
    lengthen_quarter(3, old, side);
}
