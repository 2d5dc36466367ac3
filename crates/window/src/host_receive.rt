// Keys from a terminal's bytes, for hosts: what was received, with the key in the numbers that the key call takes.
ghost use Rattle.std.specs.Prelude.{◌≡◌};
ghost use Rattle.keyboard.specs.Rules.Keyboard.{received};
ghost use Rattle.window.specs.Rules.Host.{action_number, direction_number, place_number};
ghost use Rattle.window.specs.Rules.Receiving.{heard_numbers, heard_key, heard_of};

use editor::{Action, Key, Place};
use gap::Direction;
use keyboard::Received;
use keyboard::reader::receive;

// 0 or a refusal's number, the bytes used, and a key: kind and up to three numbers. Code 0 with 0 used is "more needed".
#[repr(C)]
#[derive(Clone, Copy)]
pub struct Heard {
    pub code: usize,
    pub used: usize,
    pub kind: usize,
    pub a: usize,
    pub b: usize,
    pub c: usize,
}

// A table for each enum, as in host_keys.rt.
fn action_number(action: Action) -> usize
    ensures { result ≡ action_number action }
{
    match action {
        Action::Move => 0,
        Action::Delete => 1,
    }
}

fn direction_number(way: Direction) -> usize
    ensures { result ≡ direction_number way }
{
    match way {
        Direction::Left => 0,
        Direction::Right => 1,
    }
}

fn place_number(place: Place) -> usize
    ensures { result ≡ place_number place }
{
    match place {
        Place::Character => 0,
        Place::Word => 1,
        Place::LineBeginning => 2,
        Place::LineEnding => 3,
        Place::Document => 4,
    }
}

fn heard_numbers(used: usize, kind: usize, a: usize, b: usize, c: usize) -> Heard
    ensures { result ≡ heard_numbers used kind a b c }
{
    Heard {
        code: 0,
        used,
        kind,
        a,
        b,
        c,
    }
}

#[tactic(auto, unfolding(crate::specs::Rules::Receiving::heard_key))]
fn heard_key(k: Key, used: usize) -> Heard
    ensures { result ≡ heard_key k used }
{
    match k {
        Key::Insert(b) => heard_numbers(used, 0, b as usize, 0, 0),
        Key::Function(action, way, place) => heard_numbers(
            used,
            1,
            action_number(action),
            direction_number(way),
            place_number(place),
        ),
        Key::Recall => heard_numbers(used, 2, 0, 0, 0),
        Key::Quote => heard_numbers(used, 3, 0, 0, 0),
        Key::Find(way) => heard_numbers(used, 4, direction_number(way), 0, 0),
        Key::Replace => heard_numbers(used, 5, 0, 0, 0),
        Key::Mark => heard_numbers(used, 6, 0, 0, 0),
        Key::Cut => heard_numbers(used, 7, 0, 0, 0),
        Key::Paste => heard_numbers(used, 8, 0, 0, 0),
        Key::Newline => heard_numbers(used, 9, 0, 0, 0),
        Key::Tab => heard_numbers(used, 10, 0, 0, 0),
    }
}

// The first key of the bytes received so far; or that more are needed; or SEQUENCE.
#[tactic(auto, unfolding(crate::specs::Rules::Receiving::heard_of))]
pub fn chidukwore_receive(bytes: &[u8]) -> Heard
    ensures { result ≡ heard_of (received bytes.now) }
{
    match receive(bytes) {
        Received::Pressed(k, used) => heard_key(k, used),
        Received::More => heard_numbers(0, 0, 0, 0, 0),
        Received::Refused(code, used) => Heard {
            code,
            used,
            kind: 0,
            a: 0,
            b: 0,
            c: 0,
        },
    }
}
