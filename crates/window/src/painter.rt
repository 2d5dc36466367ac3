// The painter: the text is gone over once from the window's first line on, each cell is written once, and the changed rows are found on
// the way. A painter holds the lent screen; each step leaves it the same but for pen and cells, which ties the screen to the painter.
ghost use Rattle.std.specs.Prelude.{◌≡◌, true, false, ◌<◌, length, map};
ghost use Rattle.gap.specs.Rules.Lines.{newlines};
ghost use Rattle.window.specs.Wording.Painter.{above, paint, finish_paint, begun, Easel, Canvas, sheet_of, with_sheet, LineStart};
ghost use Rattle.gap.specs.Rules.Doc.{content};
ghost use Rattle.window.specs.Rules.Window.{joined, visible};
ghost use Rattle.window.specs.Wording.Calls.{Texts, virtual_held, Refreshed};

use crate::{Frame, Pen, Rows};
use editor::{Lengths, Mode, QUARTER};
use gap::lines::{count_newlines, end_at, since_newline};

// The lent screen, the window that is painted on it, and the pen.
#[derive(Drop)]
pub struct Painter<'a> {
    pub screen: &'a mut [u8],
    pub frame: Frame,
    pub pen: Pen,
}

// A pen before any text.
const FRESH: Pen = Pen {
    y: 0,
    x: 0,
    changed: false,
    named: None,
};

// Where the line starts that has k newlines behind it.
fn line_start(t: &[u8], k: usize) -> usize
    requires { k < newlines t.now }
    ensures { LineStart t.now k result }
{
    let mut end = t.len();
    for _i in 0..k {
        end = end - since_newline(0, &t[..end]) - 1;
    }
    end - since_newline(0, &t[..end])
}

impl<'a> Painter<'a> {
    // Before any text.
    fn at_first(f: Frame, screen: &'a mut [u8]) -> Painter<'a>
        ensures { (result.screen ≡ screen.entry) × ((result.frame ≡ f) × (sheet_of result ≡ begun screen.entry.now)) }
    {
        Painter {
            screen,
            frame: f,
            pen: FRESH,
        }
    }

    // A text from the window's first line on, run by run, until it ends or the window does. The library's `split` would look for the newlines
    // byte by byte: with lines of 128 bytes or 1,024 it took ten times as long as `end_at`.
    fn draw(&mut self, t: &[u8])
        requires easel { Easel self.old.frame (length t.now) (sheet_of self.old) }
        requires pen_value { above self.old.frame self.old.pen ≡ false }
        ensures { self.new ≡ with_sheet self.old (paint self.old.frame t.now (sheet_of self.old)) }
    {
        let mut i = 0;
        for _y in self.pen.y..self.frame.r + self.frame.h {
            let e = end_at(t, i);
            self.draw_run(&t[i..e]);
            if t.len() <= e {
                return;
            }
            self.end_row();
            i = e + 1;
        }
    }

    // A piece of the text, wherever the pen is: what lies above the window is only counted.
    fn paint_piece(&mut self, t: &[u8])
        requires { Easel self.old.frame (length t.now) (sheet_of self.old) }
        ensures { self.new ≡ with_sheet self.old (paint self.old.frame t.now (sheet_of self.old)) }
    {
        let top = self.frame.r;
        if top <= self.pen.y {
            self.draw(t);
            return;
        }
        let below = self.pen.y + count_newlines(t);
        if below < top {
            self.pen.y = below;
            self.pen.x = since_newline(self.pen.x, t);
            return;
        }
        let at = line_start(t, below - top);
        self.pen.y = top;
        self.pen.x = 0;
        self.draw(&t[at..]);
    }

    // The pieces of a text, one behind the other.
    fn paint_pieces(&mut self, pieces: &[&[u8]])
        requires { Easel self.old.frame (length (joined (map (λ p. p.now) pieces.now))) (sheet_of self.old) }
        ensures { self.new ≡ with_sheet self.old (paint self.old.frame (joined (map (λ p. p.now) pieces.now)) (sheet_of self.old)) }
    {
        for piece in pieces {
            self.paint_piece(*piece);
        }
    }

    // The virtual text. In QUOTED the quotation's two texts stand between the document's, on lines of their own behind the mark.
    fn paint_text(&mut self, n: Lengths, text: &[u8], side: &[u8])
        requires texts { Texts n text.now side.now }
        requires canvas { Canvas self.old.frame (length text.now) self.old.screen.now }
        requires fresh { sheet_of self.old ≡ begun self.old.screen.now }
        ensures { self.new
            ≡ with_sheet self.old (paint self.old.frame (content (virtual_held n text.now side.now)) (sheet_of self.old)) }
    {
        let left = &text[..n.main.l];
        let right = &text[text.len() - n.main.r..];
        match n.mode {
            Mode::Main => self.paint_pieces(&[left, right]),
            Mode::Quoted => {
                let quarter = &side[..QUARTER];
                let before = &quarter[..n.quoted.l];
                let behind = &quarter[quarter.len() - n.quoted.r..];
                self.paint_pieces(&[left, b"\n>", before, behind, b"\n", right]);
            }
        }
    }

    // The rows below the text: blank.
    fn finish(&mut self)
        requires easel { Easel self.old.frame 65 (sheet_of self.old) }
        requires pen_value { above self.old.frame self.old.pen ≡ false }
        ensures { self.new ≡ with_sheet self.old (finish_paint self.old.frame (sheet_of self.old)) }
    {
        for _y in self.pen.y..self.frame.r + self.frame.h {
            self.end_row();
        }
    }
}

// The virtual text becomes the screen, and the changed rows are named.
pub fn refresh(n: Lengths, f: Frame, text: &[u8], side: &[u8], screen: &mut [u8]) -> Option<Rows>
    requires texts { Texts n text.now side.now }
    requires canvas { (Canvas f (length text.now) screen.old) × (visible f (virtual_held n text.now side.now) ≡ true) }
    ensures { Refreshed f (virtual_held n text.now side.now) screen.old result screen.new }
{
    let mut painter = Painter::at_first(f, screen);
    painter.paint_text(n, text, side);
    painter.finish();
    painter.pen.named
}
