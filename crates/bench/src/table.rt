// The key table, and keys by their names.
ghost use Rattle.std.specs.Prelude.{◌≡◌};
ghost use Rattle.bench.specs.Rules.Names.{insert_numbered, key_named};
ghost use Rattle.bench.specs.Wording.Rows.{key_in};

use crate::script::DIGITS;
use editor::{Action, Key, Place};
use gap::Direction;
use gap::decimals::number_of;

// The names and their keys: ten words, and all 20 function keys by action, direction and place; the two that get KEY are among them.
const TABLE: [(&'static [u8], Key); 30] = [
    (b"recall", Key::Recall),
    (b"quote", Key::Quote),
    (b"find", Key::Find(Direction::Right)),
    (b"upfind", Key::Find(Direction::Left)),
    (b"replace", Key::Replace),
    (b"mark", Key::Mark),
    (b"cut", Key::Cut),
    (b"paste", Key::Paste),
    (b"newline", Key::Newline),
    (b"tab", Key::Tab),
    (
        b"move-left-character",
        Key::Function(Action::Move, Direction::Left, Place::Character),
    ),
    (
        b"move-left-word",
        Key::Function(Action::Move, Direction::Left, Place::Word),
    ),
    (
        b"move-left-line-begin",
        Key::Function(Action::Move, Direction::Left, Place::LineBeginning),
    ),
    (
        b"move-left-line-end",
        Key::Function(Action::Move, Direction::Left, Place::LineEnding),
    ),
    (
        b"move-left-document",
        Key::Function(Action::Move, Direction::Left, Place::Document),
    ),
    (
        b"move-right-character",
        Key::Function(Action::Move, Direction::Right, Place::Character),
    ),
    (
        b"move-right-word",
        Key::Function(Action::Move, Direction::Right, Place::Word),
    ),
    (
        b"move-right-line-begin",
        Key::Function(Action::Move, Direction::Right, Place::LineBeginning),
    ),
    (
        b"move-right-line-end",
        Key::Function(Action::Move, Direction::Right, Place::LineEnding),
    ),
    (
        b"move-right-document",
        Key::Function(Action::Move, Direction::Right, Place::Document),
    ),
    (
        b"delete-left-character",
        Key::Function(Action::Delete, Direction::Left, Place::Character),
    ),
    (
        b"delete-left-word",
        Key::Function(Action::Delete, Direction::Left, Place::Word),
    ),
    (
        b"delete-left-line-begin",
        Key::Function(Action::Delete, Direction::Left, Place::LineBeginning),
    ),
    (
        b"delete-left-line-end",
        Key::Function(Action::Delete, Direction::Left, Place::LineEnding),
    ),
    (
        b"delete-left-document",
        Key::Function(Action::Delete, Direction::Left, Place::Document),
    ),
    (
        b"delete-right-character",
        Key::Function(Action::Delete, Direction::Right, Place::Character),
    ),
    (
        b"delete-right-word",
        Key::Function(Action::Delete, Direction::Right, Place::Word),
    ),
    (
        b"delete-right-line-begin",
        Key::Function(Action::Delete, Direction::Right, Place::LineBeginning),
    ),
    (
        b"delete-right-line-end",
        Key::Function(Action::Delete, Direction::Right, Place::LineEnding),
    ),
    (
        b"delete-right-document",
        Key::Function(Action::Delete, Direction::Right, Place::Document),
    ),
];

// The key of the first row that has this name.
#[tactic(auto, unfolding(crate::specs::Wording::Rows::key_in))]
fn key_in(table: &[(&'static [u8], Key)], name: &[u8]) -> Option<Key>
    ensures { result ≡ key_in name.now table.now }
{
    table
        .iter()
        .find(|(word, _)| name == *word)
        .map(|(_, key)| *key)
}

// The insert of this number.
fn insert_numbered(n: Option<usize>) -> Option<Key>
    ensures { result ≡ insert_numbered n }
{
    match n {
        Some(value) if value <= 255 => Some(Key::Insert(value as u8)),
        _ => None,
    }
}

// The key of this name.
pub fn key_named(name: &[u8]) -> Option<Key>
    ensures { result ≡ key_named name.now }
{
    match name.strip_prefix(b"insert-") {
        Some(digits) => insert_numbered(number_of(DIGITS, digits)),
        None => key_in(&TABLE, name),
    }
}
