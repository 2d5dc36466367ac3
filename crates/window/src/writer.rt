// A writer holds the lent buffer and its fill mark. Each step fills it further, and leaves the reference as it is, which ties the buffer to the
// writer; `write_screen`, with a plain buffer, serves every caller.
ghost use Rattle.std.specs.Prelude.{◌≡◌, ◌++◌, ◌+◌, ◌≤◌, length};
ghost use Rattle.gap.specs.Rules.Decimal.{decimal};
ghost use Rattle.gap.specs.Wording.Written.{Wrote};
ghost use Rattle.window.specs.Rules.Sequences.{sent_spot, sent_rows};
ghost use Rattle.window.specs.Wording.Writing.{RowsIn, filled};

use crate::sender::Update;
use gap::decimals::put_decimal;
use gap::writers::put;

// The lent buffer, and how far it is filled.
#[derive(Drop)]
pub struct Writer<'a> {
    pub out: &'a mut [u8],
    pub at: usize,
}

impl<'a> Writer<'a> {
    // An empty writer: the mark stands at the front.
    fn at_front(out: &'a mut [u8]) -> Writer<'a>
        ensures { (result.out ≡ out.entry) × (result.at ≡ 0) }
    {
        Writer { out, at: 0 }
    }

    // A run goes behind what the writer holds, or a number's digits.
    pub fn put(&mut self, run: &[u8])
        requires { self.old.at + length run.now ≤ length self.old.out.now }
        ensures { self.new ≡ filled self.old run.now }
    {
        let at = self.at;
        self.at = put(run, &mut *self.out, at);
    }

    pub fn put_number(&mut self, n: usize)
        requires { self.old.at + length (decimal n) ≤ length self.old.out.now }
        ensures { self.new ≡ filled self.old (decimal n) }
    {
        let at = self.at;
        self.at = put_decimal(n, &mut *self.out, at);
    }

    // How much the writer holds. (`self.exit.0` is the buffer as it is left.)
    fn count(self) -> usize
        ensures { (result ≡ self.entry.at) × (self.exit.0.now ≡ self.entry.out.now) }
    {
        self.at
    }
}

// The named rows and then the spot, from the front of the buffer on. The column is one that a terminal has.
pub fn write_screen(w: usize, u: Update, screen: &[u8], out: &mut [u8]) -> usize
    requires rows_in { RowsIn w u.first u.last screen.now }
    requires column_in_bounds { length (sent_rows w u.first u.last screen.now ++ sent_spot u.row u.column) ≤ length out.old }
    ensures { Wrote 0 (sent_rows w u.first u.last screen.now ++ sent_spot u.row u.column) out.old result out.new }
{
    let mut writer = Writer::at_front(out);
    writer.put_rows(w, u, screen);
    writer.put_spot(u.row, u.column);
    writer.count()
}
