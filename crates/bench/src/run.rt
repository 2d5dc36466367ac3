// Running a script: its beginning, the opening, and a turn for each line behind it.
ghost use Rattle.std.specs.Prelude.{◌≡◌, ◌+◌, ◌≤◌, ◌<◌, length, take, Ok};
ghost use Rattle.gap.specs.Rules.Sequence.{part, patch};
ghost use Rattle.gap.specs.Wording.Written.{Wrote};
ghost use Rattle.editor.specs.Wording.Stores.{SameStores};
ghost use Rattle.window.specs.Rules.Core.{zero_record};
ghost use Rattle.window.specs.Wording.Calls.{lent_as};
ghost use Rattle.bench.specs.Words.{Continue};
ghost use Rattle.bench.specs.Rules.Run.{unless_large, beginning, screen_size, opening_turn, pressed_turn, next_turn};
ghost use Rattle.bench.specs.Wording.Turns.{state_from, Does, Onward};

use crate::print::{put_accepted, put_refused, put_script};
use crate::script::{heading_of, reading_at};
use crate::{Broken, Header, Next, Reading, Turn};
use editor::Key;
use editor::records::opening_lengths;
use editor::stores::Stores;
use gap::fields::line_number;
use std::ops::ControlFlow;
use window::calls::{open, press, rows_and_columns};
use window::{Frame, Session};

// The most bytes that a script may have, and the largest store that it may ask for.
const LONGEST_INPUT: usize = 8192;

const LARGEST_STORE: usize = 4096;

// A header whose store is not too large.
fn unless_large(h: Header) -> Result<Header, Broken>
    ensures { result ≡ unless_large (Ok h) }
{
    if LARGEST_STORE < h.store {
        return Err(Broken { line: 0 });
    }
    Ok(h)
}

// The header, or the number of the line that `script=` prints.
#[tactic(auto, unfolding(crate::specs::Rules::Run::beginning))]
pub fn begin(input: &[u8]) -> Result<Header, Broken>
    ensures { result ≡ beginning input.now }
{
    if LONGEST_INPUT < input.len() {
        return Err(Broken { line: 0 });
    }
    unless_large(heading_of(input)?)
}

// How many cells to lend as a screen: none where rows or columns are not as tabled.
pub fn screen_size(h: usize, w: usize) -> usize
    ensures value { result ≡ screen_size h w }
    ensures upper_bound { result ≤ 16384 }
{
    if rows_and_columns(h, w) { h * w } else { 0 }
}

// The n bytes of the input from `at` on go to the front of the text store, as many as it has room for.
#[tactic(auto, unfolding(gap::specs::Rules::Sequence::patch, gap::specs::Rules::Sequence::part))]
fn lay_out(input: &[u8], at: usize, n: usize, text: &mut [u8])
    requires { at + n ≤ length input.now }
    ensures { text.new ≡ patch 0 (take (length text.old) (part at n input.now)) text.old }
{
    let size = n.min(text.len());
    text[..size].copy_from_slice(&input[at..at + size]);
}

// The record that a refused opening hands on: zeros, with no mark.
fn zero_record() -> Session
    ensures { result ≡ zero_record }
{
    Session {
        lengths: opening_lengths(0),
        frame: Frame {
            r: 0,
            c: 0,
            h: 0,
            w: 0,
        },
    }
}

// The text is laid out and opened. A refused opening is the last turn.
#[tactic(auto, unfolding(crate::specs::Rules::Run::opening_turn, crate::specs::Rules::Print::block))]
pub fn opening(
    h: Header,
    input: &[u8],
    lent: &mut Stores,
    screen: &mut [u8],
    out: &mut [u8],
) -> Turn
    requires length_in_bounds { h.at + h.length < length input.now }
    requires in_bounds { 17408 ≤ length out.old }
    ensures does { Does (opening_turn h input.now (lent_as lent.old screen.old)) result (lent_as lent.new screen.new) out.old out.new }
    ensures same { SameStores lent.old lent.new }
{
    let at = h.at + h.length + 1;
    lay_out(input, h.at, h.length, &mut *lent.text);
    match open(h.length, h.rows, h.columns, lent, screen) {
        Ok(accepted) => {
            let next = Next {
                at,
                session: accepted.session,
            };
            Turn {
                printed: put_accepted(accepted, h.rows, h.columns, screen, out),
                next: ControlFlow::Continue(next),
            }
        }
        Err(why) => {
            let last = Next {
                at,
                session: zero_record(),
            };
            Turn {
                printed: put_refused(why.refusal(), why.place(), out),
                next: ControlFlow::Break(last),
            }
        }
    }
}

// A key is pressed; refused or not, the program goes on behind its line.
#[tactic(auto, unfolding(crate::specs::Rules::Run::pressed_turn, crate::specs::Rules::Print::block))]
fn press_turn(
    session: Session,
    key: Key,
    at: usize,
    lent: &mut Stores,
    screen: &mut [u8],
    out: &mut [u8],
) -> Turn
    requires { 17408 ≤ length out.old }
    ensures does { Does (pressed_turn session key at (lent_as lent.old screen.old)) result (lent_as lent.new screen.new) out.old out.new }
    ensures onward { (then : Next) × (result.next ≡ Continue then) × (then.at ≡ at) }
    ensures same { SameStores lent.old lent.new }
{
    match press(session, key, lent, screen) {
        Ok(accepted) => {
            let next = Next {
                at,
                session: accepted.session,
            };
            Turn {
                printed: put_accepted(accepted, session.frame.h, session.frame.w, screen, out),
                next: ControlFlow::Continue(next),
            }
        }
        Err(why) => Turn {
            printed: put_refused(why, 0, out),
            next: ControlFlow::Continue(Next { at, session }),
        },
    }
}

// The turn for the line that comes next.
#[tactic(auto, unfolding(crate::specs::Rules::Run::next_turn))]
pub fn next_turn(
    from: Next,
    input: &[u8],
    lent: &mut Stores,
    screen: &mut [u8],
    out: &mut [u8],
) -> Turn
    requires at_in_bounds { from.at ≤ length input.now }
    requires in_bounds { 17408 ≤ length out.old }
    ensures does { Does (next_turn input.now (state_from from (lent_as lent.old screen.old))) result
        (lent_as lent.new screen.new) out.old out.new }
    ensures onward { Onward from (length input.now) result }
    ensures same { SameStores lent.old lent.new }
{
    // A last turn leaves place and record as they were.
    let last = ControlFlow::Break(from);
    match reading_at(input, from.at) {
        Reading::Pressed(key, at) => press_turn(from.session, key, at, lent, screen, out),
        Reading::Finished => Turn {
            printed: 0,
            next: last,
        },
        Reading::Unknown => Turn {
            printed: put_script(line_number(input, from.at), out),
            next: last,
        },
    }
}
