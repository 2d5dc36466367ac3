// A byte with spaces behind it, as NEWLINE and TAB put it in, on one side, of whose text no line is longer than a limit. The recall text
// stays, so that it is not lent.
ghost use Rattle.std.specs.Prelude.{◌≡◌, true, ◌∷◌};
ghost use Rattle.gap.specs.Rules.Doc.{content};
ghost use Rattle.gap.specs.Rules.Indents.{spaces};
ghost use Rattle.gap.specs.Rules.Layout.{ungap, IsGap};
ghost use Rattle.gap.specs.Rules.LineLimits.{lines_fit};
ghost use Rattle.editor.specs.Rules.Indents.{inserted_run, newlined, tabbed};
ghost use Rattle.editor.specs.Wording.Promise.{EditsText, side_reply};

use crate::records::went;
use crate::refusals::Refusal;
use crate::splices::run_fits;
use crate::{SideDone, Sizes};
use gap::indents::line_indent;
use gap::lines::since_newline;
use gap::texts::insert_spaced;
use gap::views::View;

// A byte and k spaces behind it go in, all of them or none. Whether they fit is known before anything is written.
pub fn spaced_side(
    limit: usize,
    b: u8,
    k: usize,
    n: Sizes,
    text: &mut [u8],
) -> Result<SideDone, Refusal>
    requires gap { IsGap n.l n.r text.old }
    requires text_value { lines_fit limit (content (ungap n.l n.r text.old)) ≡ true }
    ensures { EditsText limit (side_reply n result) n (inserted_run (b ∷ spaces k)) text.old text.new }
{
    if text.len() - (n.l + n.r) <= k {
        return Err(Refusal::Full);
    }
    if !run_fits(limit, b, k, View::of(text, n.l, n.r)) {
        return Err(Refusal::Line);
    }
    insert_spaced(text, n.l, n.r, b, k);
    let run = k + 1;
    Ok(SideDone {
        report: went(run, 0),
        sizes: Sizes { l: n.l + run, ..n },
    })
}

// NEWLINE: the leading spaces are counted in what is left of the cursor.
pub fn newline_side(limit: usize, n: Sizes, text: &mut [u8]) -> Result<SideDone, Refusal>
    requires gap { IsGap n.l n.r text.old }
    requires text_value { lines_fit limit (content (ungap n.l n.r text.old)) ≡ true }
    ensures { EditsText limit (side_reply n result) n newlined text.old text.new }
{
    let k = line_indent(&text[..n.l]);
    spaced_side(limit, b'\n', k, n, text)
}

// TAB: the first space, and the others up to the column.
pub fn tab_side(limit: usize, n: Sizes, text: &mut [u8]) -> Result<SideDone, Refusal>
    requires gap { IsGap n.l n.r text.old }
    requires text_value { lines_fit limit (content (ungap n.l n.r text.old)) ≡ true }
    ensures { EditsText limit (side_reply n result) n tabbed text.old text.new }
{
    let column = since_newline(0, &text[..n.l]);
    spaced_side(limit, b' ', 7 - column % 8, n, text)
}
