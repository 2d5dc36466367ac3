// The window layer: the screen, the core's calls, and the bytes for a terminal.
#![tactic(auto)]

pub mod calls;
pub mod cells;
pub mod conversion;
pub mod cursor;
pub mod host;
pub mod host_conversion;
pub mod host_keys;
pub mod host_receive;
pub mod painter;
pub mod sender;
pub mod sequences;
pub mod writer;

ghost use Rattle.std.specs.Prelude.{◌≡◌};
ghost use Rattle.window.specs.Wording.Painter.{rows_in};
ghost use Rattle.window.specs.Wording.Unopened.{refusal_in, place_in};

use editor::refusals::Refusal;
use editor::{Lengths, Report};

// The window's offsets r and c, and the screen's H rows and W columns.
#[derive(Clone, Copy)]
pub struct Frame {
    pub r: usize,
    pub c: usize,
    pub h: usize,
    pub w: usize,
}

// The session record: it is handed over and back by value.
#[derive(Clone, Copy)]
pub struct Session {
    pub lengths: Lengths,
    pub frame: Frame,
}

// A place in the virtual text: rows from 1, columns from 0.
#[derive(Clone, Copy)]
pub struct Spot {
    pub row: usize,
    pub column: usize,
}

// The painter's pen: its line and column from 0, whether a cell of its row has changed, and the rows named so far.
#[derive(Clone, Copy)]
pub struct Pen {
    pub y: usize,
    pub x: usize,
    pub changed: bool,
    pub named: Option<Rows>,
}

// The named rows, first and last.
#[derive(Clone, Copy)]
pub struct Rows {
    pub first: usize,
    pub last: usize,
}

// What an accepted call answers: its report, the rows named, if any, where on the screen the cursor is, and the record.
#[derive(Clone, Copy)]
pub struct Accepted {
    pub report: Report,
    pub named: Option<Rows>,
    pub row: usize,
    pub column: usize,
    pub session: Session,
}

impl Accepted {
    // The named rows in numbers: 0 and 0 for none.
    pub fn rows(self) -> Rows
        ensures { result ≡ rows_in self.named }
    {
        self.named.unwrap_or(Rows { first: 0, last: 0 })
    }
}

// Why an opening is refused: for TEXT and LINE with the place.
#[derive(Clone, Copy, PartialEq, Eq, Debug)]
pub enum Unopened {
    Size,
    Long,
    Text(usize),
    Line(usize),
}

impl Unopened {
    pub fn refusal(self) -> Refusal
        ensures { result ≡ refusal_in self }
    {
        match self {
            Unopened::Size => Refusal::Size,
            Unopened::Long => Refusal::Long,
            Unopened::Text(_) => Refusal::Text,
            Unopened::Line(_) => Refusal::Line,
        }
    }

    // The place, 0 where there is none.
    pub fn place(self) -> usize
        ensures { result ≡ place_in self }
    {
        match self {
            Unopened::Size | Unopened::Long => 0,
            Unopened::Text(place) | Unopened::Line(place) => place,
        }
    }
}

// What the routine for terminals answers: 0 or a refusal, the place of TEXT, and how many bytes it wrote.
#[repr(C)]
#[derive(Clone, Copy)]
pub struct Sending {
    pub code: usize,
    pub place: usize,
    pub count: usize,
}
