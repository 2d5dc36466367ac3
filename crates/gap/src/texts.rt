// Gap stores: moving the cursor, inserting, deleting into a pair store, and placing a pair into the text. The store and its two lengths come one
// by one: a struct over them would promise besides, at each call, that its store is the one that was lent; and hosts keep the lengths.
ghost use Rattle.std.specs.Prelude.{◌≡◌, [], ◌∷◌, ◌+◌, ◌≤◌, ◌<◌, length, take};
ghost use Rattle.gap.specs.Rules.Doc.{empty, move, delete, times, removed, splice};
ghost use Rattle.gap.specs.Rules.Indents.{spaces};
ghost use Rattle.gap.specs.Rules.Layout.{gapped, paired, ungap, IsGap};
ghost use Rattle.gap.specs.Wording.Sides.{side};
ghost use Rattle.gap.specs.Wording.Views.{seen};

use crate::Direction;
use crate::runs::{clear_from, copy_at, fill_at, hold, shift, take_out, vacate};
use crate::views::View;

// The cursor goes d bytes in a direction: they cross the gap.
pub fn move_cursor(s: &mut [u8], l: usize, r: usize, way: Direction, d: usize)
    requires gap { IsGap l r s.old }
    requires d_bound { d ≤ side way l r }
    ensures { s.new ≡ gapped (length s.old) (times (move way) d (ungap l r s.old)) }
{
    let back = s.len() - r;
    match way {
        Direction::Left => shift(s, l - d, back - d, d),
        Direction::Right => shift(s, back, l, d),
    }
}

// A byte and n spaces behind it go in left of the cursor.
pub fn insert_spaced(s: &mut [u8], l: usize, r: usize, b: u8, n: usize)
    requires gap { IsGap l r s.old }
    requires n_in_bounds { l + r + n < length s.old }
    ensures { s.new ≡ gapped (length s.old) (splice 0 0 (record { l = b ∷ spaces n; r = [] }) (ungap l r s.old)) }
{
    s[l] = b;
    fill_at(s, l + 1, n, b' ');
}

// The d bytes beside the cursor in a direction go into the pair store, which then holds nothing else.
pub fn delete(s: &mut [u8], l: usize, r: usize, way: Direction, d: usize, pair: &mut [u8])
    requires gap { IsGap l r s.old }
    requires d_bound { (d ≤ side way l r) × (d ≤ length pair.old) }
    ensures s_after { s.new ≡ gapped (length s.old) (times (delete way) d (ungap l r s.old)) }
    ensures pair_after { pair.new ≡ paired (length pair.old) (removed way d (ungap l r s.old)) }
{
    let at = match way {
        Direction::Left => l - d,
        Direction::Right => s.len() - r,
    };
    take_out(s, at, d, pair);
}

// Both halves of a pair go in around the cursor.
pub fn place_pair(s: &mut [u8], l: usize, r: usize, pair: View<'_>)
    requires gap { IsGap l r s.old }
    requires in_bounds { l + r + (length pair.l.now + length pair.r.now) ≤ length s.old }
    ensures { s.new ≡ gapped (length s.old) (splice 0 0 (seen pair.entry) (ungap l r s.old)) }
{
    let at = s.len() - r - pair.r.len();
    copy_at(s, l, pair.l);
    copy_at(s, at, pair.r);
}

// The first d bytes right of the cursor are dropped.
pub fn drop_right(s: &mut [u8], l: usize, r: usize, d: usize)
    requires gap { IsGap l r s.old }
    requires d_le_r { d ≤ r }
    ensures { s.new ≡ gapped (length s.old) (splice 0 d empty (ungap l r s.old)) }
{
    let at = s.len() - r;
    vacate(s, at, d);
}

// A document becomes all that a pair store holds.
pub fn hand_over(d: View<'_>, pair: &mut [u8])
    requires { length d.l.now + length d.r.now ≤ length pair.old }
    ensures { pair.new ≡ paired (length pair.old) (seen d.entry) }
{
    hold(pair, d.l);
    copy_at(pair, d.l.len(), d.r);
}

// The first n bytes become the text right of the cursor, with nothing left of it; whatever stood behind them is cleared.
pub fn open_text(s: &mut [u8], n: usize)
    requires { n ≤ length s.old }
    ensures { s.new ≡ gapped (length s.old) (record { l = []; r = take n s.old }) }
{
    clear_from(s, n);
    move_cursor(s, n, 0, Direction::Left, n);
}
