// Documents to be read: the two runs of bytes that stand left and right of a cursor.
ghost use Rattle.std.specs.Prelude.{◌≡◌, ◌+◌, ◌≤◌, length};
ghost use Rattle.gap.specs.Rules.Layout.{ungap, unpair};
ghost use Rattle.gap.specs.Wording.Views.{seen, toward};

use crate::Direction;

#[derive(Clone, Copy)]
pub struct View<'a> {
    pub l: &'a [u8],
    pub r: &'a [u8],
}

impl<'a> View<'a> {
    // What a gap store holds.
    pub fn of(s: &'a [u8], l: usize, r: usize) -> View<'a>
        requires { l + r ≤ length s.now }
        ensures holds { seen result ≡ ungap l r s.now }
        ensures lengths { (length result.l.now ≡ l) × (length result.r.now ≡ r) }
    {
        let back = s.len() - r;
        View {
            l: &s[..l],
            r: &s[back..],
        }
    }

    // What a pair store holds.
    pub fn of_pair(s: &'a [u8], x: usize, y: usize) -> View<'a>
        requires { x + y ≤ length s.now }
        ensures holds { seen result ≡ unpair x y s.now }
        ensures lengths { (length result.l.now ≡ x) × (length result.r.now ≡ y) }
    {
        let end = x + y;
        View {
            l: &s[..x],
            r: &s[x..end],
        }
    }

    // The text that lies in a direction of the cursor.
    #[tactic(auto, unfolding(crate::specs::Wording::Views::seen))]
    pub fn toward(self, way: Direction) -> &'a [u8]
        ensures { result.now ≡ toward way (seen self.entry) }
    {
        match way {
            Direction::Left => self.l,
            Direction::Right => self.r,
        }
    }
}
