// The routine that brings a terminal up to date: what is wrong is refused, and then nothing is written.
ghost use Rattle.std.specs.Prelude.{◌≡◌};
ghost use Rattle.editor.specs.Rules.Refusals.{number};
ghost use Rattle.window.specs.Rules.Sequences.{sent_screen};
ghost use Rattle.window.specs.Rules.Sending.{rows_on, cursor_on, sendable, sent_into};
ghost use Rattle.window.specs.Wording.Promise.{SendPromise};
ghost use Rattle.window.specs.Wording.Writing.{RowsIn, outcome_of};

use crate::Sending;
use crate::calls::rows_and_columns;
use crate::sequences::{sent_column, sent_size};
use crate::writer::write_screen;
use editor::refusals::Refusal;
use gap::sound::bad_cell;

// What a terminal is brought up to date with: the named rows, first and last, and the cursor, as a call answers them.
#[derive(Clone, Copy)]
pub struct Update {
    pub first: usize,
    pub last: usize,
    pub row: usize,
    pub column: usize,
}

impl Update {
    // The named rows are rows of the screen in their order, or none.
    fn rows_on(self, h: usize) -> bool
        ensures { result ≡ rows_on h self.first self.last }
    {
        (self.first == 0 && self.last == 0)
            || (1 <= self.first && self.first <= self.last && self.last <= h)
    }

    // The cursor is on the screen, or behind the last cell of a row.
    fn cursor_on(self, h: usize, w: usize) -> bool
        ensures { result ≡ cursor_on h w self.row self.column }
    {
        1 <= self.row && self.row <= h && self.column <= w
    }
}

// All sizes are right. H and W are known to be small before they are multiplied.
#[tactic(auto, unfolding(crate::specs::Rules::Sending::sendable))]
fn is_sendable(h: usize, w: usize, u: Update, screen: &[u8]) -> bool
    ensures { result ≡ sendable h w u.first u.last u.row u.column screen.now }
{
    rows_and_columns(h, w) && screen.len() == h * w && u.rows_on(h) && u.cursor_on(h, w)
}

// A refusal.
fn unsent(why: Refusal, place: usize) -> Sending
    ensures { result ≡ record { code = number why; place = place; count = 0 } }
{
    Sending {
        code: why.number(),
        place,
        count: 0,
    }
}

// The bytes are counted before one is written, so that ROOM leaves the buffer as it was.
fn send_counted(w: usize, u: Update, screen: &[u8], out: &mut [u8]) -> Sending
    requires { RowsIn w u.first u.last screen.now }
    ensures { outcome_of result out.new
        ≡ sent_into (sent_screen w u.first u.last u.row u.column screen.now) out.old }
{
    if out.len() < sent_size(w, u) {
        return unsent(Refusal::Room, 0);
    }
    let column = sent_column(w, u.column);
    let count = write_screen(w, Update { column, ..u }, screen, out);
    Sending {
        code: 0,
        place: 0,
        count,
    }
}

// SIZE, TEXT, ROOM, or the bytes at the front of the buffer.
pub fn send(h: usize, w: usize, u: Update, screen: &[u8], out: &mut [u8]) -> Sending
    ensures { SendPromise h w u.first u.last u.row u.column screen.now out.old
        (outcome_of result out.new) }
{
    if !is_sendable(h, w, u, screen) {
        return unsent(Refusal::Size, 0);
    }
    let Some(i) = bad_cell(screen) else {
        return send_counted(w, u, screen, out);
    };
    unsent(Refusal::Text, i)
}
