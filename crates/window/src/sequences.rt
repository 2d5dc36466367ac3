// Sequences of ECMA-48: how long they are, and how a writer writes them.
ghost use Rattle.std.specs.Prelude.{◌≡◌, ◌+◌, ◌*◌, ◌≤◌, ◌<◌, length};
ghost use Rattle.window.specs.Rules.Sequences.{sent_spot, sent_row, sent_rows, row_count, sent_column};
ghost use Rattle.window.specs.Wording.Writing.{RowsIn, filled, rows_size, sent_size};

use crate::sender::Update;
use crate::writer::Writer;
use gap::decimals::decimal_size;

// ---- How long

pub fn spot_size(row: usize, column: usize) -> usize
    ensures { result ≡ length (sent_spot row column) }
{
    4 + decimal_size(row) + decimal_size(column)
}

impl Update {
    // How many rows are named: none if the first is 0.
    fn row_count(self) -> usize
        requires { (self.first ≤ self.last) × (self.last ≤ 64) }
        ensures { result ≡ row_count self.first self.last }
    {
        if self.first == 0 {
            return 0;
        }
        self.last + 1 - self.first
    }
}

// All named rows. At most 64 of at most 256 cells, so that no sum can wrap.
fn rows_size(w: usize, u: Update) -> usize
    requires { (u.first ≤ u.last) × (u.last ≤ 64) × (w ≤ 256) }
    ensures { result ≡ rows_size w (row_count u.first u.last) u.first }
{
    let mut size = 0;
    for i in 0..u.row_count() {
        size += spot_size(u.first + i, 1) + w;
    }
    size
}

// The column that is sent for the cursor's.
pub fn sent_column(w: usize, column: usize) -> usize
    ensures { result ≡ sent_column w column }
{
    if column < w {
        return column + 1;
    }
    w
}

// The named rows and the cursor's spot.
pub fn sent_size(w: usize, u: Update) -> usize
    requires { (u.first ≤ u.last) × (u.last ≤ 64) × (w ≤ 256) }
    ensures { result ≡ sent_size w u.first u.last u.row u.column }
{
    rows_size(w, u) + spot_size(u.row, sent_column(w, u.column))
}

// ---- Written

impl<'a> Writer<'a> {
    pub fn put_spot(&mut self, row: usize, column: usize)
        requires { self.old.at + length (sent_spot row column) ≤ length self.old.out.now }
        ensures { self.new ≡ filled self.old (sent_spot row column) }
    {
        self.put(b"\x1b[");
        self.put_number(row);
        self.put(b";");
        self.put_number(column);
        self.put(b"H");
    }

    // The row below so many others: its spot and its cells.
    fn put_row(&mut self, w: usize, above: usize, screen: &[u8])
        requires above_bound { (above < 64) × (above * w + w ≤ length screen.now) }
        requires above_in_bounds { self.old.at + length (sent_row w screen.now (above + 1)) ≤ length self.old.out.now }
        ensures { self.new ≡ filled self.old (sent_row w screen.now (above + 1)) }
    {
        self.put_spot(above + 1, 1);
        let from = above * w;
        self.put(&screen[from..from + w]);
    }

    // The named rows, one behind the other.
    pub fn put_rows(&mut self, w: usize, u: Update, screen: &[u8])
        requires rows_in { RowsIn w u.first u.last screen.now }
        requires screen_in_bounds { self.old.at + length (sent_rows w u.first u.last screen.now) ≤ length self.old.out.now }
        ensures { self.new ≡ filled self.old (sent_rows w u.first u.last screen.now) }
    {
        for i in 0..u.row_count() {
            self.put_row(w, u.first - 1 + i, screen);
        }
    }
}
