// From bytes received to one key.
#![tactic(auto, unfolding(crate::specs::Rules::Keyboard::received, crate::specs::Rules::Keyboard::byte_received, crate::specs::Rules::Keyboard::arrow_received, crate::specs::Rules::Keyboard::key_among, crate::specs::Rules::Keyboard::bytes_of, gap::specs::Rules::Strings::bytes, gap::specs::Rules::Sequence::same_bytes))]

ghost use Rattle.std.specs.Prelude.{◌≡◌};
ghost use Rattle.keyboard.specs.Rules.Keyboard.{byte_received, arrow_received, received};

use crate::letters::letter_received;
use crate::{Received, SEQUENCE};
use editor::{Action, Key, Place};
use gap::Direction;

const ESCAPE: u8 = 27;

// A byte that is not ESC: an insert, delete left character, or nothing that a key begins with.
fn byte_received(b: u8) -> Received
    ensures { result ≡ byte_received b }
{
    let key = match b {
        13 => Key::Insert(10),
        127 => Key::Function(Action::Delete, Direction::Left, Place::Character),
        32..=126 => Key::Insert(b),
        _ => return Received::Refused(SEQUENCE, 1),
    };
    Received::Pressed(key, 1)
}

// The byte behind ESC [.
fn arrow_received(b: u8) -> Received
    ensures { result ≡ arrow_received b }
{
    let key = match b {
        b'C' => Key::Function(Action::Move, Direction::Right, Place::Character),
        b'D' => Key::Function(Action::Move, Direction::Left, Place::Character),
        b'F' => Key::Function(Action::Move, Direction::Right, Place::Document),
        b'H' => Key::Function(Action::Move, Direction::Left, Place::Document),
        _ => return Received::Refused(SEQUENCE, 3),
    };
    Received::Pressed(key, 3)
}

// The first key of the bytes received so far. At most three bytes are looked at.
pub fn receive(bytes: &[u8]) -> Received
    ensures { result ≡ received bytes.now }
{
    match bytes {
        [] | [ESCAPE] | [ESCAPE, b'['] => Received::More,
        [ESCAPE, b'[', byte, ..] => arrow_received(*byte),
        [ESCAPE, letter, ..] => letter_received(*letter),
        [byte, ..] => byte_received(*byte),
    }
}
