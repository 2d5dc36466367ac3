// The cells of one row: the pen writes a run or blanks, finds out whether a cell was another before, and goes on to the next line.
ghost use Rattle.std.specs.Prelude.{◌≡◌, not, true, false, ◌+◌, ◌-◌, ◌^◌, ◌≤◌, ◌<◌, length, eqb};
ghost use Rattle.gap.specs.Rules.Sequence.{every, same_bytes};
ghost use Rattle.gap.specs.Rules.Lines.{newline};
ghost use Rattle.window.specs.Wording.Painter.{above, over, cell_of, OnRow, with_row, pen_below, line_end, paint, Easel, sheet_of, with_sheet};

use crate::painter::Painter;
use crate::{Frame, Pen, Rows};

// A row of blanks, as wide as a screen can be.
const BLANKS: [u8; 256] = [b' '; 256];

// A run of cells is written; answers whether one was another before. Where none was, nothing is. Where all were, it takes three quarters of
// the time of one pass that compares and writes; where each row's last cell alone was, up to a third more (docs/DESIGN-PASS.md, section 4).
fn put_run(cells: &mut [u8], run: &[u8]) -> bool
    requires { length run.now ≡ length cells.old }
    ensures { (cells.new ≡ run.now) × (result ≡ not (same_bytes cells.old run.now)) }
{
    let changed = &*cells != run;
    if changed {
        cells.copy_from_slice(run);
    }
    changed
}

// Where the cell of a column is, in the pen's row.
fn cell_at(f: Frame, pen: Pen, column: usize) -> usize
    requires { OnRow f pen column }
    ensures { result ≡ cell_of f pen column }
{
    (pen.y - f.r) * f.w + (column - f.c)
}

// The rows named so far, and a row below them.
fn with_row(named: Option<Rows>, row: usize) -> Rows
    ensures { result ≡ with_row named row }
{
    match named {
        Some(rows) => Rows { last: row, ..rows },
        None => Rows {
            first: row,
            last: row,
        },
    }
}

// The pen at the start of the next line; a marked row is named.
fn next_line(f: Frame, pen: Pen, changed: bool) -> Pen
    requires { (f.r ≤ pen.y) × (pen.y + 1 < 2 ^ 64) }
    ensures { result ≡ pen_below f pen changed }
{
    let row = pen.y - f.r + 1;
    let named = if changed {
        Some(with_row(pen.named, row))
    } else {
        pen.named
    };
    Pen {
        y: pen.y + 1,
        x: 0,
        changed: false,
        named,
    }
}

impl<'a> Painter<'a> {
    // A run without newline, in a row of the window: what lies between column c and c + W is written in one go.
    pub fn draw_run(&mut self, run: &[u8])
        requires run_value { every (λ b. not (eqb b newline)) run.now ≡ true }
        requires easel { Easel self.old.frame (length run.now) (sheet_of self.old) }
        requires pen_value { (above self.old.frame self.old.pen ≡ false) × (over self.old.frame self.old.pen ≡ false) }
        ensures { self.new ≡ with_sheet self.old (paint self.old.frame run.now (sheet_of self.old)) }
    {
        let f = self.frame;
        let pen = self.pen;
        let end = pen.x + run.len();
        let low = f.c.max(pen.x);
        let high = (f.c + f.w).min(end);
        self.pen.x = end;
        if high <= low {
            return;
        }
        let at = cell_at(f, pen, low);
        let stop = at + (high - low);
        let screen = &mut *self.screen;
        let changed = put_run(&mut screen[at..stop], &run[low - pen.x..high - pen.x]);
        self.pen.changed |= changed;
    }

    // The end of a line in a row of the window: blanks to the right edge.
    pub fn end_row(&mut self)
        requires easel { Easel self.old.frame 1 (sheet_of self.old) }
        requires pen_value { (above self.old.frame self.old.pen ≡ false) × (over self.old.frame self.old.pen ≡ false) }
        ensures { self.new ≡ with_sheet self.old (line_end self.old.frame (sheet_of self.old)) }
    {
        let f = self.frame;
        let pen = self.pen;
        let edge = f.c + f.w;
        let low = f.c.max(pen.x).min(edge);
        let left = edge - low;
        let at = cell_at(f, pen, low);
        let stop = at + left;
        let screen = &mut *self.screen;
        let changed = put_run(&mut screen[at..stop], &BLANKS[..left]);
        self.pen = next_line(f, pen, pen.changed | changed);
    }
}
