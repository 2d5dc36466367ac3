// Printing into a lent store: entries, blocks, and the line that ends an unreadable script.
ghost use Rattle.std.specs.Prelude.{◌≡◌, ◌+◌, ◌*◌, ◌≤◌, length};
ghost use Rattle.gap.specs.Wording.Written.{Wrote};
ghost use Rattle.editor.specs.Rules.Refusals.{number};
ghost use Rattle.window.specs.Wording.Calls.{accepted_reply};
ghost use Rattle.bench.specs.Rules.Print.{rows_of, accepted_block, refused_block, script_line};
ghost use Rattle.bench.specs.Wording.Entries.{entries_of, room_of};
ghost use Rattle.bench.specs.Wording.Turns.{Printable};

use editor::refusals::Refusal;
use gap::fields::put_entry;
use gap::writers::put;
use window::Accepted;

// Entries, one behind the other: each a word and a number. Room is asked for numbers of 20 digits, the most that one can have.
fn put_entries(entries: &[(&'static [u8], usize)], out: &mut [u8], at: usize) -> usize
    requires { at + room_of entries.now ≤ length out.old }
    ensures wrote { Wrote at (entries_of entries.now) out.old result out.new }
    ensures upper_bound { result ≤ at + room_of entries.now }
{
    let mut next = at;
    for (word, number) in entries {
        next = put_entry(word, *number, out, next);
    }
    next
}

// A row, given its cells: `line=` stands here and not in the loop, which would have to carry it.
fn put_row(cells: &[u8], out: &mut [u8], at: usize) -> usize
    requires { at + (length cells.now + 6) ≤ length out.old }
    ensures { Wrote at (rows_of 1 (length cells.now) cells.now) out.old result out.new }
{
    let cells_at = put(b"line=", out, at);
    let end = put(cells, out, cells_at);
    put(b"\n", out, end)
}

// The H rows of a screen, split off it one by one: `chunks` would ask that W is above 0.
fn put_rows(h: usize, w: usize, screen: &[u8], out: &mut [u8], at: usize) -> usize
    requires screen_len { length screen.now ≡ h * w }
    requires screen_in_bounds { at + length (rows_of h w screen.now) ≤ length out.old }
    ensures { Wrote at (rows_of h w screen.now) out.old result out.new }
{
    let mut next = at;
    let mut rest = screen;
    for _ in 0..h {
        let (row, below) = rest.split_at(w);
        next = put_row(row, out, next);
        rest = below;
    }
    next
}

// The block of an accepted call.
pub fn put_accepted(a: Accepted, h: usize, w: usize, screen: &[u8], out: &mut [u8]) -> usize
    requires printable { Printable h w screen.now }
    requires in_bounds { 17408 ≤ length out.old }
    ensures { Wrote 0 (accepted_block h w (accepted_reply a).answer screen.now) out.old result out.new }
{
    let rows = a.rows();
    let entries: [(&'static [u8], usize); 8] = [
        (b"code=", 0),
        (b"steps=", a.report.steps),
        (b"lines=", a.report.lines),
        (b"bell=", usize::from(a.report.bell)),
        (b"first=", rows.first),
        (b"last=", rows.last),
        (b"row=", a.row),
        (b"col=", a.column),
    ];
    let rows_at = put_entries(&entries, out, 0);
    put_rows(h, w, screen, out, rows_at)
}

// The block of a refused call.
#[tactic(auto, unfolding(crate::specs::Rules::Print::refused_block, gap::specs::Rules::Strings::bytes))]
pub fn put_refused(why: Refusal, place: usize, out: &mut [u8]) -> usize
    requires { 17408 ≤ length out.old }
    ensures { Wrote 0 (refused_block (number why) place) out.old result out.new }
{
    put_entries(&[(b"code=", why.number()), (b"place=", place)], out, 0)
}

// The line that says which line of the input cannot be read.
#[tactic(auto, unfolding(crate::specs::Rules::Print::script_line, gap::specs::Rules::Strings::bytes))]
pub fn put_script(line: usize, out: &mut [u8]) -> usize
    requires { 17408 ≤ length out.old }
    ensures { Wrote 0 (script_line line) out.old result out.new }
{
    put_entry(b"script=", line, out, 0)
}
