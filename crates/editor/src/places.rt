// Places, and the distance to the nearest one. Going left only the text left of the cursor matters, going right only the other.
ghost use Rattle.std.specs.Prelude.{◌≡◌, List, ℕ, ◌+◌, ◌≤◌, length, take, drop};
ghost use Rattle.gap.specs.Rules.Nearest.{distance};
ghost use Rattle.gap.specs.Wording.Views.{seen};
ghost use Rattle.editor.specs.Rules.Places.{neighbour_of, word, is_at};
ghost use Rattle.editor.specs.Wording.Promise.{whole_of};
ghost use Rattle.editor.specs.Wording.Searches.{lowest, beside, line_end, facing};

use crate::finds::lowest_place;
use crate::{Neighbour, Place};
use gap::Direction;
use gap::views::View;

// What a byte is to the word test.
impl From<u8> for Neighbour {
    ghost from_gives = { λ b n. n ≡ neighbour_of b };

    fn from(b: u8) -> Neighbour {
        match b {
            b' ' => Neighbour::Space,
            b'\n' => Neighbour::Newline,
            _ => Neighbour::Other,
        }
    }
}

// What stands beside place p of a text in a direction.
fn beside(t: &[u8], p: usize, way: Direction) -> Neighbour
    requires { p ≤ length t.now }
    ensures { result ≡ beside way (record { l = take p t.now; r = drop p t.now }) }
{
    match way {
        Direction::Left if 0 < p => Neighbour::from(t[p - 1]),
        Direction::Right if p < t.len() => Neighbour::from(t[p]),
        _ => Neighbour::Nothing,
    }
}

// Place p of a text is an end of a line: to the left, where it begins, and to the right, where it ends.
#[tactic(auto, using(crate::proofs::Laws::Neighbours::line_known))]
pub fn line_end_at(t: &[u8], p: usize, way: Direction) -> bool
    requires { p ≤ length t.now }
    ensures { result ≡ line_end way (record { l = take p t.now; r = drop p t.now }) }
{
    match beside(t, p, way) {
        Neighbour::Nothing => true,
        Neighbour::Space => false,
        Neighbour::Newline => true,
        Neighbour::Other => false,
    }
}

// Place p of a text is a word place: one decision for each pair. The right side is asked for where the left one is known, so that inside a
// word, where no place is one, a single byte is read. All sixteen are written out, as the rules' table has them, so that each can be found.
#[tactic(auto, using(crate::proofs::Laws::PlaceScans::word_known))]
pub fn word_at(t: &[u8], p: usize) -> bool
    requires { p ≤ length t.now }
    ensures { result ≡ word (record { l = take p t.now; r = drop p t.now }) }
{
    match beside(t, p, Direction::Left) {
        Neighbour::Nothing => match beside(t, p, Direction::Right) {
            Neighbour::Nothing => true,
            Neighbour::Space => true,
            Neighbour::Newline => true,
            Neighbour::Other => true,
        },
        Neighbour::Space => match beside(t, p, Direction::Right) {
            Neighbour::Nothing => true,
            Neighbour::Space => false,
            Neighbour::Newline => false,
            Neighbour::Other => true,
        },
        Neighbour::Newline => match beside(t, p, Direction::Right) {
            Neighbour::Nothing => true,
            Neighbour::Space => true,
            Neighbour::Newline => true,
            Neighbour::Other => true,
        },
        Neighbour::Other => match beside(t, p, Direction::Right) {
            Neighbour::Nothing => false,
            Neighbour::Space => false,
            Neighbour::Newline => false,
            Neighbour::Other => false,
        },
    }
}

// Place p of a text is such a place, for the direction. A kind is data that a key brings, and not a closure: this match is its one meaning.
#[tactic(auto, unfolding(crate::specs::Rules::Places::is_at))]
pub fn stands(place: Place, way: Direction, t: &[u8], p: usize) -> bool
    requires { p ≤ length t.now }
    ensures { result ≡ is_at place way (record { l = take p t.now; r = drop p t.now }) }
{
    match place {
        Place::Character => true,
        Place::Word => word_at(t, p),
        Place::LineBeginning => line_end_at(t, p, Direction::Left),
        Place::LineEnding => line_end_at(t, p, Direction::Right),
        Place::Document => match way {
            Direction::Left => p < 1,
            Direction::Right => t.len() - p < 1,
        },
    }
}

// The place that lies d bytes away in the text of the direction is such a place.
fn stands_away(place: Place, way: Direction, t: &[u8], d: usize) -> bool
    requires { d ≤ length t.now }
    ensures { result ≡ is_at place way (record {
      l = take (lowest way (length t.now) d d) t.now;
      r = drop (lowest way (length t.now) d d) t.now;
    }) }
{
    stands(place, way, t, lowest_place(way, t.len(), d, d))
}

// The distance over the text that lies in the direction, byte by byte as far as the place.
fn scan(place: Place, way: Direction, t: &[u8]) -> Option<usize>
    ensures { (other : List ℕ) → result ≡ distance way (is_at place way) (facing way t.now other) }
{
    (1..t.len() + 1).find(|&d| stands_away(place, way, t, d))
}

// The distance over all of a text.
fn whole(t: &[u8]) -> Option<usize>
    ensures { result ≡ whole_of (length t.now) }
{
    let n = t.len();
    if n < 1 {
        return None;
    }
    Some(n)
}

// The distance in a direction. To the end of the text there is nothing to look for.
pub fn place_distance(place: Place, way: Direction, d: View<'_>) -> Option<usize>
    ensures { result ≡ distance way (is_at place way) (seen d.entry) }
{
    let t = d.toward(way);
    match place {
        Place::Document => whole(t),
        _ => scan(place, way, t),
    }
}
