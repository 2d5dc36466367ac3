// Reports and records, each built in one place.
ghost use Rattle.std.specs.Prelude.{◌≡◌, ◌+◌, ◌^◌, ◌≤◌, ◌<◌};
ghost use Rattle.editor.specs.Rules.Plain.{went};
ghost use Rattle.editor.specs.Rules.Bytes.{opening_lengths, holding_sizes};
ghost use Rattle.editor.specs.Wording.Promise.{room_of, moved_by, sized_in, cleared};
ghost use Rattle.editor.specs.Wording.Promise.{pattern_taken, replacement_taken};
ghost use Rattle.editor.specs.Wording.Marks.{marked_at, held_in};

use crate::{EditorDone, Lengths, Mode, Report, SideDone, Sizes};
use gap::Direction;

// ---- Reports

// Nothing to say. A constant under the definitions' name, as are the next ones, where a `Default` would have none.
pub const QUIET: Report = Report {
    steps: 0,
    lines: 0,
    bell: false,
};

// Nothing found.
pub const RANG: Report = Report {
    steps: 0,
    lines: 0,
    bell: true,
};

// So many steps gone, over so many newlines.
pub fn went(n: usize, lines: usize) -> Report
    ensures { result ≡ went n lines }
{
    Report {
        steps: n,
        lines,
        bell: false,
    }
}

// A key on the side that the mode names, as one of the whole layer.
pub fn lifted(mode: Mode, n: Lengths, t: SideDone) -> EditorDone
    ensures { result ≡ record { report = t.report; lengths = sized_in mode t.sizes n } }
{
    EditorDone {
        report: t.report,
        lengths: sized_in(mode, n, t.sizes),
    }
}

// ---- Records

// The lengths with other sizes on the side that the mode names.
fn sized_in(mode: Mode, n: Lengths, sizes: Sizes) -> Lengths
    ensures { result ≡ sized_in mode sizes n }
{
    match mode {
        Mode::Main => Lengths { main: sizes, ..n },
        Mode::Quoted => Lengths { quoted: sizes, ..n },
    }
}

// The sizes after d moves.
pub fn moved_by(way: Direction, d: usize, n: Sizes) -> Sizes
    requires d_bound { d ≤ room_of way n }
    requires r_bound { n.l + n.r < 2 ^ 64 }
    ensures { result ≡ moved_by way d n }
{
    match way {
        Direction::Left => Sizes {
            l: n.l - d,
            r: n.r + d,
            ..n
        },
        Direction::Right => Sizes {
            l: n.l + d,
            r: n.r - d,
            ..n
        },
    }
}

// A side with nothing in it.
pub const NO_SIZES: Sizes = Sizes {
    l: 0,
    r: 0,
    rl: 0,
    rr: 0,
};

// The lengths of a newly opened text of n bytes.
pub fn opening_lengths(n: usize) -> Lengths
    ensures { result ≡ opening_lengths n }
{
    Lengths {
        main: Sizes {
            l: 0,
            r: n,
            rl: 0,
            rr: 0,
        },
        quoted: NO_SIZES,
        xl: 0,
        xr: 0,
        pl: 0,
        mode: Mode::Main,
        hl: 0,
        hr: 0,
        mark: None,
    }
}

// The lengths without a quotation, in this mode.
pub fn cleared(n: Lengths, mode: Mode) -> Lengths
    ensures { result ≡ cleared mode n }
{
    Lengths {
        quoted: NO_SIZES,
        mode,
        ..n
    }
}

// The lengths once the quotation, if there is one, has become the pattern.
pub fn pattern_taken(n: Lengths) -> Lengths
    requires { n.quoted.l + n.quoted.r < 2 ^ 64 }
    ensures { result ≡ pattern_taken n.mode n }
{
    match n.mode {
        Mode::Main => n,
        Mode::Quoted => {
            Lengths {
                pl: n.quoted.l + n.quoted.r,
                ..cleared(n, Mode::Main)
            }
        }
    }
}

// The same with the replacement: other lengths are set, so the two stay two.
pub fn replacement_taken(n: Lengths) -> Lengths
    ensures { result ≡ replacement_taken n.mode n }
{
    match n.mode {
        Mode::Main => n,
        Mode::Quoted => {
            Lengths {
                xl: n.quoted.l,
                xr: n.quoted.r,
                ..cleared(n, Mode::Main)
            }
        }
    }
}

// ---- The mark and the held text

// The lengths with another mark.
pub fn marked_at(n: Lengths, mark: Option<usize>) -> Lengths
    ensures { result ≡ marked_at mark n }
{
    Lengths { mark, ..n }
}

// The document's sizes with the held pair in the place of its recall text.
pub fn holding_sizes(n: Lengths) -> Sizes
    ensures { result ≡ holding_sizes n }
{
    Sizes {
        rl: n.hl,
        rr: n.hr,
        ..n.main
    }
}

// The lengths with such sizes put in.
fn held_in(n: Lengths, sizes: Sizes) -> Lengths
    ensures { result ≡ held_in sizes n }
{
    Lengths {
        main: Sizes {
            l: sizes.l,
            r: sizes.r,
            ..n.main
        },
        hl: sizes.rl,
        hr: sizes.rr,
        ..n
    }
}

// A key on the document with the held pair in the place of its recall text, as one of the whole layer, with this mark. What is put in is another
// than in `lifted`, and that is all there is to either.
pub fn lifted_held(n: Lengths, mark: Option<usize>, t: SideDone) -> EditorDone
    ensures { result ≡ record { report = t.report; lengths = held_in t.sizes (marked_at mark n) } }
{
    EditorDone {
        report: t.report,
        lengths: held_in(marked_at(n, mark), t.sizes),
    }
}
