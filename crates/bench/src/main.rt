// The bench program: it reads a script, opens its text, presses its keys, and prints what each call answers.
#![tactic(auto)]

mod print;
mod run;
mod script;
mod table;

ghost use Rattle.std.specs.Prelude.{◌+◌, ◌≤◌, ◌<◌, length, take, IfOk};
ghost use Rattle.std.specs.Io.KnownBytes.{Consumes, IsAtEnd};
ghost use Rattle.window.specs.Wording.Calls.{lent_as};
ghost use Rattle.bench.specs.Wording.Turns.{AsAsked};

use crate::print::put_script;
use crate::run::{begin, next_turn, opening, screen_size};
use editor::stores::Stores;
use editor::{Key, QUARTER};
use std::io;
use std::io::Read;
use std::ops::ControlFlow;
use window::Session;

// What the four header lines say, and where the text stands in the input.
#[derive(Clone, Copy, Debug, PartialEq, Eq)]
pub struct Header {
    pub rows: usize,
    pub columns: usize,
    pub store: usize,
    pub length: usize,
    pub at: usize,
}

// A script that cannot be read from its beginning: the number that `script=` prints.
#[derive(Clone, Copy, Debug, PartialEq, Eq)]
pub struct Broken {
    pub line: usize,
}

// What the next line says: a key, with the place of the line behind it; that there is none; or nothing that can be read. It stays an enum
// of its own: an Option in a Result, or the other way round, would leave the three without their names.
#[derive(Clone, Copy)]
pub enum Reading {
    Pressed(Key, usize),
    Finished,
    Unknown,
}

// What a turn hands on: the place of the next line, and the record.
#[derive(Clone, Copy)]
pub struct Next {
    pub at: usize,
    pub session: Session,
}

// What a turn leaves: how many bytes are to be printed, and what the program goes on from, or ends with.
#[derive(Clone, Copy)]
pub struct Turn {
    pub printed: usize,
    pub next: ControlFlow<Next, Next>,
}

// The input goes to the front of the buffer, until that is full or the input ends: how many bytes there are. After an error the bytes
// that came before it stand there, uncounted. The promises say more of a reader whose bytes are known, as standard input's are not.
// No method of std's does it: `read_exact` refuses an input that ends earlier, and `read_to_end` takes a heap, which the program has not.
fn read_full<R: Read>(input: &mut R, buffer: &mut [u8]) -> io::Result<usize>
    ensures in_bounds { IfOk result (λ n. n ≤ length buffer.new) }
    ensures bytes { IfOk result (λ n. Consumes (R.remaining input.old) (R.remaining input.new) (take n buffer.new)) }
    ensures end { IfOk result (λ n. n < length buffer.new → IsAtEnd (R.remaining input.new)) }
{
    let mut done = 0;
    while done < buffer.len() {
        let n = input.read(&mut buffer[done..])?;
        if n == 0 {
            break;
        }
        done += n;
    }
    Ok(done)
}

// The first n bytes go to standard output. Where nobody takes them, that is an error; some of them may have gone before it.
fn write_front(rt: &impl Print, out: &[u8], n: usize) -> io::Result<()>
    requires { n ≤ length out.now }
{
    rt.write_all(&out[..n])
}

// The turns, one after the other, each printed at once; none comes after one that could not be printed. The stores are as long as the
// header asks, and the turns rest on it: with others the opening would be refused, or another text opened.
fn play(
    rt: &impl Print,
    h: Header,
    input: &[u8],
    lent: &mut Stores,
    screen: &mut [u8],
    out: &mut [u8],
) -> io::Result<()>
    requires length_in_bounds { h.at + h.length < length input.now }
    requires as_asked { AsAsked h (lent_as lent.old screen.old) }
    requires in_bounds { 17408 ≤ length out.old }
{
    let mut turn = opening(h, input, lent, screen, out);
    write_front(rt, out, turn.printed)?;
    while let ControlFlow::Continue(next) = turn.next {
        turn = next_turn(next, input, lent, screen, out);
        write_front(rt, out, turn.printed)?;
    }
    Ok(())
}

// The stores that the header asks for, at the front of the largest ones: the program keeps to fixed memory.
fn lend(rt: &impl Print, h: Header, input: &[u8]) -> io::Result<()>
    requires length_in_bounds { h.at + h.length < length input.now }
    requires store_bound { h.store ≤ 4096 }
{
    let mut text = [0u8; 4096];
    let mut recall = [0u8; 4096];
    let mut held = [0u8; 4096];
    let mut side = [0u8; 4 * QUARTER];
    let mut screen = [0u8; 16384];
    let mut out = [0u8; 17408];
    let store = h.store;
    let area = screen_size(h.rows, h.columns);
    let mut lent = Stores {
        text: &mut text[..store],
        recall: &mut recall[..store],
        held: &mut held[..store],
        side: &mut side,
    };
    play(rt, h, input, &mut lent, &mut screen[..area], &mut out)
}

// A script that cannot be read from its beginning prints one line.
fn give_up(rt: &impl Print, line: usize) -> io::Result<()> {
    let mut out = [0u8; 17408];
    let printed = put_script(line, &mut out);
    write_front(rt, &out, printed)
}

fn start(rt: &impl Print, input: &[u8]) -> io::Result<()> {
    match begin(input) {
        Ok(h) => lend(rt, h, input),
        Err(broken) => give_up(rt, broken.line),
    }
}

// One byte more is read than a script may have, so that one that is too long is known. A read or a write that failed ends the program
// with its error.
fn main(rt: HostRuntime) -> io::Result<()> {
    let mut input = [0u8; 8193];
    let n = read_full(&mut rt.stdin(), &mut input)?;
    start(&rt, &input[..n])
}
