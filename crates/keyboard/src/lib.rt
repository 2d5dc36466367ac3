// The keyboard layer: keys from the bytes that a terminal sends.
#![tactic(auto)]

pub mod letters;
pub mod reader;

use editor::Key;

// The refusal of bytes that are no key.
pub const SEQUENCE: usize = 9;

// What the bytes received so far give: a key and how many of them it used; or more are needed, and none is used; or a refusal and how
// many are used by it, up to and including the first byte that no key continues. It stays an enum of its own: an Option in a Result, or the
// other way round, would leave the three without their names.
#[derive(Clone, Copy)]
pub enum Received {
    Pressed(Key, usize),
    More,
    Refused(usize, usize),
}
