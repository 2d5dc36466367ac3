// Keys from numbers: a kind and up to three numbers name one. What names none becomes an insert of byte 0, which is refused with KEY.
ghost use Rattle.std.specs.Prelude.{◌≡◌, ◌&&◌, cond, leb};
ghost use Rattle.window.specs.Rules.Host.{direction_from, action_from, place_from, function_from, key_from, numbers, names};

use editor::{Action, Key, Place};
use gap::Direction;

// A table for each enum: a trait of the four, `Mode` among them, would be given the same four tables, and a name more; `TryFrom` belongs to
// the enums' own crates, which know no numbers.
fn direction_of(d: usize) -> Option<Direction>
    ensures { result ≡ cond (leb d 1) (Some (direction_from d)) None }
{
    match d {
        0 => Some(Direction::Left),
        1 => Some(Direction::Right),
        _ => None,
    }
}

fn action_of(a: usize) -> Option<Action>
    ensures { result ≡ cond (leb a 1) (Some (action_from a)) None }
{
    match a {
        0 => Some(Action::Move),
        1 => Some(Action::Delete),
        _ => None,
    }
}

fn place_of(p: usize) -> Option<Place>
    ensures { result ≡ cond (leb p 4) (Some (place_from p)) None }
{
    match p {
        0 => Some(Place::Character),
        1 => Some(Place::Word),
        2 => Some(Place::LineBeginning),
        3 => Some(Place::LineEnding),
        4 => Some(Place::Document),
        _ => None,
    }
}

// The function key that three numbers name, if they name one.
fn named_function(a: usize, d: usize, p: usize) -> Option<Key>
    ensures { result ≡ cond (leb a 1 && (leb d 1 && leb p 4)) (Some (function_from a d p)) None }
{
    Some(Key::Function(action_of(a)?, direction_of(d)?, place_of(p)?))
}

// The key that a kind and three numbers name, if they name one.
#[tactic(auto, unfolding(crate::specs::Rules::Host::key_from))]
fn named_key(kind: usize, a: usize, b: usize, c: usize) -> Option<Key>
    ensures { result ≡ cond (names (numbers kind a b c)) (Some (key_from kind a b c)) None }
{
    match kind {
        0 => Some(Key::Insert(u8::try_from(a).ok()?)),
        1 => named_function(a, b, c),
        2 => Some(Key::Recall),
        3 => Some(Key::Quote),
        4 => Some(Key::Find(direction_of(a)?)),
        5 => Some(Key::Replace),
        6 => Some(Key::Mark),
        7 => Some(Key::Cut),
        8 => Some(Key::Paste),
        9 => Some(Key::Newline),
        10 => Some(Key::Tab),
        _ => None,
    }
}

// The same, or an insert that is refused.
pub fn key_from(kind: usize, a: usize, b: usize, c: usize) -> Key
    ensures { result ≡ key_from kind a b c }
{
    named_key(kind, a, b, c).unwrap_or(Key::Insert(0))
}

// The function key that three numbers name, or that insert.
pub fn function_key(a: usize, d: usize, p: usize) -> Key
    ensures { result ≡ function_from a d p }
{
    named_function(a, d, p).unwrap_or(Key::Insert(0))
}
