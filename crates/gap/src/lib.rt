// The gap layer: texts with a cursor, the bytes that hold them, and the small tools that every layer uses.
#![tactic(auto)]

pub mod compare;
pub mod decimals;
pub mod fields;
pub mod indents;
pub mod line_limits;
pub mod lines;
pub mod runs;
pub mod sound;
pub mod texts;
pub mod views;
pub mod writers;

// Which way along a text.
#[derive(Clone, Copy)]
pub enum Direction {
    Left,
    Right,
}
