// Reading a script: its header and its keys.
ghost use Rattle.std.specs.Prelude.{◌≡◌, ◌≤◌, length, MatchResult, IfOk};
ghost use Rattle.gap.specs.Rules.Fields.{next_at, header_at};
ghost use Rattle.bench.specs.Rules.Names.{most_digits};
ghost use Rattle.bench.specs.Rules.Script.{text_there, heading_of, key_of, reading_at};

use crate::table::key_named;
use crate::{Broken, Header, Reading};
use editor::Key;
use gap::fields::{header_at, next_at};
use gap::lines::end_at;

// Numbers have at most so many digits.
pub const DIGITS: usize = 5;

// ---- The header

// The n bytes from `at` on and a newline are there. What is left of the input is asked for its byte n, so that no sum wraps.
#[tactic(auto, unfolding(crate::specs::Rules::Script::text_there))]
fn text_there(s: &[u8], at: usize, n: usize) -> bool
    requires { at ≤ length s.now }
    ensures { result ≡ text_there s.now at n }
{
    match s[at..].get(n) {
        Some(b) => *b == b'\n',
        None => false,
    }
}

// What a header line says, which is this line of the script: its number, and where the next line starts.
fn header_line(line: usize, word: &[u8], s: &[u8], at: usize) -> Result<(usize, usize), Broken>
    requires { at ≤ length s.now }
    ensures number { MatchResult result (λ read. header_at word.now most_digits s.now at ≡ Some read.0)
        (λ e. (header_at word.now most_digits s.now at ≡ None) × (e.line ≡ line)) }
    ensures next { IfOk result (λ read. read.1 ≡ next_at s.now at) }
    ensures in_bounds { IfOk result (λ read. read.1 ≤ length s.now) }
{
    match header_at(word, DIGITS, s, at) {
        Some(number) => Ok((number, next_at(s, at))),
        None => Err(Broken { line }),
    }
}

// The header.
#[tactic(auto, unfolding(crate::specs::Rules::Script::heading_of, gap::specs::Rules::Strings::bytes))]
pub fn heading_of(s: &[u8]) -> Result<Header, Broken>
    ensures { result ≡ heading_of s.now }
{
    let (rows, second) = header_line(1, b"rows=", s, 0)?;
    let (columns, third) = header_line(2, b"cols=", s, second)?;
    let (store, fourth) = header_line(3, b"store=", s, third)?;
    let (length, at) = header_line(4, b"text=", s, fourth)?;
    if !text_there(s, at, length) {
        return Err(Broken { line: 4 });
    }
    Ok(Header {
        rows,
        columns,
        store,
        length,
        at,
    })
}

// ---- Key lines

// The key of a key line.
fn key_of(line: &[u8]) -> Option<Key>
    ensures { result ≡ key_of line.now }
{
    key_named(line.strip_prefix(b"key=")?)
}

// What the line that starts at `at` says.
#[tactic(auto, unfolding(crate::specs::Rules::Script::reading_at))]
pub fn reading_at(s: &[u8], at: usize) -> Reading
    requires { at ≤ length s.now }
    ensures { result ≡ reading_at s.now at }
{
    if s.len() <= at {
        return Reading::Finished;
    }
    let end = end_at(s, at);
    match key_of(&s[at..end]) {
        Some(key) => Reading::Pressed(key, next_at(s, at)),
        None => Reading::Unknown,
    }
}
