// The keys that come as ESC and one small letter. docs/KEYBOARD.md has the same table with a reason for each letter.
#![tactic(auto, unfolding(crate::specs::Rules::Keyboard::letter_received, crate::specs::Rules::Keyboard::key_among, crate::specs::Rules::Keyboard::bytes_of, gap::specs::Rules::Strings::bytes, gap::specs::Rules::Sequence::same_bytes))]

ghost use Rattle.std.specs.Prelude.{◌≡◌};
ghost use Rattle.keyboard.specs.Rules.Keyboard.{letter_received};

use crate::{Received, SEQUENCE};
use editor::{Action, Key, Place};
use gap::Direction;

pub fn letter_received(letter: u8) -> Received
    ensures { result ≡ letter_received letter }
{
    let key = match letter {
        b'a' => Key::Function(Action::Move, Direction::Left, Place::LineBeginning),
        b'b' => Key::Function(Action::Move, Direction::Left, Place::Word),
        b'c' => Key::Cut,
        b'd' => Key::Function(Action::Delete, Direction::Right, Place::Character),
        b'e' => Key::Function(Action::Move, Direction::Right, Place::LineEnding),
        b'f' => Key::Find(Direction::Right),
        b'g' => Key::Function(Action::Delete, Direction::Left, Place::Word),
        b'h' => Key::Function(Action::Delete, Direction::Right, Place::Word),
        b'i' => Key::Function(Action::Delete, Direction::Left, Place::Document),
        b'j' => Key::Function(Action::Move, Direction::Right, Place::LineBeginning),
        b'k' => Key::Function(Action::Move, Direction::Left, Place::LineEnding),
        b'l' => Key::Function(Action::Delete, Direction::Right, Place::LineEnding),
        b'm' => Key::Mark,
        b'n' => Key::Newline,
        b'o' => Key::Function(Action::Delete, Direction::Right, Place::Document),
        b'p' => Key::Paste,
        b'q' => Key::Quote,
        b'r' => Key::Recall,
        b's' => Key::Function(Action::Delete, Direction::Left, Place::LineBeginning),
        b't' => Key::Tab,
        b'u' => Key::Find(Direction::Left),
        b'w' => Key::Function(Action::Move, Direction::Right, Place::Word),
        b'x' => Key::Replace,
        b'y' => Key::Function(Action::Delete, Direction::Right, Place::LineBeginning),
        b'z' => Key::Function(Action::Delete, Direction::Left, Place::LineEnding),
        _ => return Received::Refused(SEQUENCE, 2),
    };
    Received::Pressed(key, 2)
}
