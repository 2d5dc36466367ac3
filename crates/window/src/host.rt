// The host's boundary: the calls for programs in C or Rust, with record, key and answer as numbers. Nothing is asked beforehand; what is
// trusted is that each pointer is that of as many bytes as its length says, that no two overlap, and that none is null.
ghost use Rattle.std.specs.Prelude.{◌≡◌};
ghost use Rattle.editor.specs.Rules.Refusals.{number};
ghost use Rattle.window.specs.Wording.Calls.{lent, accepted_reply, unopened_of};
ghost use Rattle.window.specs.Rules.Core.{refusal};
ghost use Rattle.window.specs.Wording.Promise.{HostOpenPromise, HostKeyPromise, SendPromise};
ghost use Rattle.window.specs.Wording.Writing.{outcome_of};
ghost use Rattle.window.specs.Rules.Host.{mode_of, mark_from, session_from, mode_number, mark_number, record_from};
ghost use Rattle.window.specs.Rules.Host.{numbers_of, said_of, given};

use crate::calls::{open, press, tabled_stores};
use crate::host_keys::key_from;
use crate::sender::{Update, send};
use crate::{Accepted, Frame, Sending, Session, Unopened};
use editor::refusals::Refusal;
use editor::stores::Stores;
use editor::{Lengths, Mode, Sizes};

// The session record in document order: lengths of the document left and right of its cursor, of the quotation, of both halves of the
// document's recall text and of the quotation's, of both halves of the replacement, of the pattern; mode; offsets; rows and columns; both halves
// of the held text; mark.
#[repr(C)]
#[derive(Clone, Copy)]
pub struct Record {
    pub l: usize,
    pub r: usize,
    pub ql: usize,
    pub qr: usize,
    pub rl: usize,
    pub rr: usize,
    pub qrl: usize,
    pub qrr: usize,
    pub xl: usize,
    pub xr: usize,
    pub pl: usize,
    pub mode: usize,
    pub top: usize,
    pub left: usize,
    pub rows: usize,
    pub columns: usize,
    pub hl: usize,
    pub hr: usize,
    pub mark: usize,
}

// No mark, as a number: the largest size.
pub const NO_MARK: usize = 18446744073709551615;

// The answer.
#[repr(C)]
#[derive(Clone, Copy)]
pub struct Said {
    pub code: usize,
    pub place: usize,
    pub steps: usize,
    pub lines: usize,
    pub bell: usize,
    pub first: usize,
    pub last: usize,
    pub row: usize,
    pub column: usize,
}

// The answer with the record handed back.
#[repr(C)]
#[derive(Clone, Copy)]
pub struct HostReply {
    pub said: Said,
    pub back: Record,
}

// ---- Numbers to the core's own types

// A table for each enum, to and from numbers, and no trait, as in host_keys.rt.
fn mode_of(m: usize) -> Mode
    ensures { result ≡ mode_of m }
{
    if m == 1 {
        return Mode::Quoted;
    }
    Mode::Main
}

fn mark_from(m: usize) -> Option<usize>
    ensures { result ≡ mark_from m }
{
    if m == NO_MARK {
        return None;
    }
    Some(m)
}

impl From<Record> for Session {
    ghost from_gives = { λ n s. s ≡ session_from n };

    fn from(n: Record) -> Session {
        Session {
            lengths: Lengths {
                main: Sizes {
                    l: n.l,
                    r: n.r,
                    rl: n.rl,
                    rr: n.rr,
                },
                quoted: Sizes {
                    l: n.ql,
                    r: n.qr,
                    rl: n.qrl,
                    rr: n.qrr,
                },
                xl: n.xl,
                xr: n.xr,
                pl: n.pl,
                mode: mode_of(n.mode),
                hl: n.hl,
                hr: n.hr,
                mark: mark_from(n.mark),
            },
            frame: Frame {
                r: n.top,
                c: n.left,
                h: n.rows,
                w: n.columns,
            },
        }
    }
}

// ---- And back

// As `mode_of`.
fn mode_number(mode: Mode) -> usize
    ensures { result ≡ mode_number mode }
{
    match mode {
        Mode::Main => 0,
        Mode::Quoted => 1,
    }
}

fn mark_number(mark: Option<usize>) -> usize
    ensures { result ≡ mark_number mark }
{
    match mark {
        None => NO_MARK,
        Some(m) => m,
    }
}

impl From<Session> for Record {
    ghost from_gives = { λ s n. n ≡ record_from s };

    fn from(s: Session) -> Record {
        let lengths = s.lengths;
        let main = lengths.main;
        let quoted = lengths.quoted;
        let frame = s.frame;
        Record {
            l: main.l,
            r: main.r,
            ql: quoted.l,
            qr: quoted.r,
            rl: main.rl,
            rr: main.rr,
            qrl: quoted.rl,
            qrr: quoted.rr,
            xl: lengths.xl,
            xr: lengths.xr,
            pl: lengths.pl,
            mode: mode_number(lengths.mode),
            top: frame.r,
            left: frame.c,
            rows: frame.h,
            columns: frame.w,
            hl: lengths.hl,
            hr: lengths.hr,
            mark: mark_number(lengths.mark),
        }
    }
}

// An accepted call in numbers.
pub fn in_numbers(accepted: Accepted) -> HostReply
    ensures { result ≡ numbers_of (accepted_reply accepted) }
{
    let rows = accepted.rows();
    HostReply {
        said: Said {
            code: 0,
            place: 0,
            steps: accepted.report.steps,
            lines: accepted.report.lines,
            bell: usize::from(accepted.report.bell),
            first: rows.first,
            last: rows.last,
            row: accepted.row,
            column: accepted.column,
        },
        back: Record::from(accepted.session),
    }
}

// An answer that has nothing but a code and a place, with the record handed back number for number.
pub fn bare(code: usize, place: usize, n: Record) -> HostReply
    ensures { result ≡ record { said = said_of (refusal code place); back = n } }
{
    HostReply {
        said: Said {
            code,
            place,
            steps: 0,
            lines: 0,
            bell: 0,
            first: 0,
            last: 0,
            row: 0,
            column: 0,
        },
        back: n,
    }
}

// A record of zeros with no mark.
const ZEROS: Record = Record {
    l: 0,
    r: 0,
    ql: 0,
    qr: 0,
    rl: 0,
    rr: 0,
    qrl: 0,
    qrr: 0,
    xl: 0,
    xr: 0,
    pl: 0,
    mode: 0,
    top: 0,
    left: 0,
    rows: 0,
    columns: 0,
    hl: 0,
    hr: 0,
    mark: NO_MARK,
};

// A refused opening in numbers: a record of zeros.
#[tactic(auto, unfolding(crate::specs::Rules::Host::no_mark))]
pub fn unopened(why: Unopened) -> HostReply
    ensures { result ≡ numbers_of (unopened_of why) }
{
    bare(why.refusal().number(), why.place(), ZEROS)
}

// A refusal with the record as it was.
pub fn refused(why: Refusal, n: Record) -> HostReply
    ensures { result ≡ record { said = said_of (refusal (number why) 0); back = n } }
{
    bare(why.number(), 0, n)
}

// ---- The calls

// Opens the first n bytes of the text store.
pub fn chidukwore_open(
    n: usize,
    rows: usize,
    columns: usize,
    text: &mut [u8],
    recall: &mut [u8],
    held: &mut [u8],
    side: &mut [u8],
    screen: &mut [u8],
) -> HostReply
    ensures { HostOpenPromise n rows columns
        (lent text.old recall.old held.old side.old screen.old)
        (given result (lent text.new recall.new held.new side.new screen.new)) }
{
    let mut lent = Stores {
        text: &mut *text,
        recall: &mut *recall,
        held: &mut *held,
        side: &mut *side,
    };
    match open(n, rows, columns, &mut lent, screen) {
        Ok(accepted) => in_numbers(accepted),
        Err(why) => unopened(why),
    }
}

// Presses a key.
pub fn chidukwore_key(
    n: Record,
    kind: usize,
    a: usize,
    b: usize,
    c: usize,
    text: &mut [u8],
    recall: &mut [u8],
    held: &mut [u8],
    side: &mut [u8],
    screen: &mut [u8],
) -> HostReply
    ensures { HostKeyPromise n kind a b c
        (lent text.old recall.old held.old side.old screen.old)
        (given result (lent text.new recall.new held.new side.new screen.new)) }
{
    let mode = n.mode;
    let rows = n.rows;
    let columns = n.columns;
    if 1 < mode {
        if tabled_stores(rows, columns, text, recall, held, side, screen) {
            return refused(Refusal::Session, n);
        }
        return refused(Refusal::Size, n);
    }
    let mut lent = Stores {
        text: &mut *text,
        recall: &mut *recall,
        held: &mut *held,
        side: &mut *side,
    };
    let k = key_from(kind, a, b, c);
    match press(Session::from(n), k, &mut lent, screen) {
        Ok(accepted) => in_numbers(accepted),
        Err(why) => refused(why, n),
    }
}

// Writes the bytes that bring a terminal up to date.
pub fn chidukwore_paint(
    rows: usize,
    columns: usize,
    first: usize,
    last: usize,
    row: usize,
    column: usize,
    screen: &[u8],
    buffer: &mut [u8],
) -> Sending
    ensures { SendPromise rows columns first last row column screen.now buffer.old
        (outcome_of result buffer.new) }
{
    let update = Update {
        first,
        last,
        row,
        column,
    };
    send(rows, columns, update, screen, buffer)
}
