// The host's boundary for programs in C or Rust: each call of the window layer under its own name, by the C calling convention. A slice is lent
// as its pointer and then its length. Nothing is asked beforehand, and what is trusted of the pointers is what window's host.rt says.
#![tactic(auto)]

ghost use Rattle.std.specs.Prelude.{◌≡◌};
ghost use Rattle.keyboard.specs.Rules.Keyboard.{received};
ghost use Rattle.editor.specs.Wording.Promise.{stores};
ghost use Rattle.window.specs.Rules.Host.{given};
ghost use Rattle.window.specs.Rules.HostConversion.{handed_back};
ghost use Rattle.window.specs.Rules.Receiving.{heard_of};
ghost use Rattle.window.specs.Wording.Calls.{lent};
ghost use Rattle.window.specs.Wording.Conversion.{HostConvertPromise};
ghost use Rattle.window.specs.Wording.Promise.{HostOpenPromise, HostKeyPromise, SendPromise};
ghost use Rattle.window.specs.Wording.Writing.{outcome_of};

use window::host::{self, HostReply, Record};
use window::host_receive::{self, Heard};
use window::{Sending, host_conversion};

// Opens the first n bytes of the text store.
#[unsafe(no_mangle)]
pub extern "C" fn chidukwore_open(
    n: usize,
    rows: usize,
    columns: usize,
    text: &mut [u8],
    recall: &mut [u8],
    held: &mut [u8],
    side: &mut [u8],
    screen: &mut [u8],
) -> HostReply
    ensures { HostOpenPromise n rows columns
        (lent text.old recall.old held.old side.old screen.old)
        (given result (lent text.new recall.new held.new side.new screen.new)) }
{
    host::chidukwore_open(n, rows, columns, text, recall, held, side, screen)
}

// Presses a key.
#[unsafe(no_mangle)]
pub extern "C" fn chidukwore_key(
    n: Record,
    kind: usize,
    a: usize,
    b: usize,
    c: usize,
    text: &mut [u8],
    recall: &mut [u8],
    held: &mut [u8],
    side: &mut [u8],
    screen: &mut [u8],
) -> HostReply
    ensures { HostKeyPromise n kind a b c
        (lent text.old recall.old held.old side.old screen.old)
        (given result (lent text.new recall.new held.new side.new screen.new)) }
{
    host::chidukwore_key(n, kind, a, b, c, text, recall, held, side, screen)
}

// Writes the bytes that bring a terminal up to date.
#[unsafe(no_mangle)]
pub extern "C" fn chidukwore_paint(
    rows: usize,
    columns: usize,
    first: usize,
    last: usize,
    row: usize,
    column: usize,
    screen: &[u8],
    buffer: &mut [u8],
) -> Sending
    ensures { SendPromise rows columns first last row column screen.now buffer.old
        (outcome_of result buffer.new) }
{
    host::chidukwore_paint(rows, columns, first, last, row, column, screen, buffer)
}

// Converts an old session: its stores are only read, and the new side store is written.
#[unsafe(no_mangle)]
pub extern "C" fn chidukwore_convert(
    n: Record,
    text: &[u8],
    recall: &[u8],
    held: &[u8],
    old: &[u8],
    side: &mut [u8],
) -> HostReply
    ensures { HostConvertPromise n (stores text.now recall.now held.now old.now) side.old
        (handed_back result side.new) }
{
    host_conversion::chidukwore_convert(n, text, recall, held, old, side)
}

// The first key of the bytes received so far; or that more are needed; or SEQUENCE.
#[unsafe(no_mangle)]
pub extern "C" fn chidukwore_receive(bytes: &[u8]) -> Heard
    ensures { result ≡ heard_of (received bytes.now) }
{
    host_receive::chidukwore_receive(bytes)
}
