// Lines around a change of a document of which no line is longer than a limit: only those can become longer, and they are looked at before
// anything is written.
ghost use Rattle.std.specs.Prelude.{◌≡◌, true, ◌∷◌, ◌+◌, ◌^◌, ◌<◌, length};
ghost use Rattle.gap.specs.Rules.Doc.{content, splice};
ghost use Rattle.gap.specs.Rules.Indents.{spaces};
ghost use Rattle.gap.specs.Rules.LineLimits.{lines_fit};
ghost use Rattle.gap.specs.Wording.Views.{seen};
ghost use Rattle.editor.specs.Rules.Indents.{leftward};
ghost use Rattle.editor.specs.Wording.Promise.{HalvesFit};

use gap::line_limits::{line_fits, runs_fit};
use gap::lines::since_newline;
use gap::views::View;

// Both sides of the cursor put together: the line where they are joined decides.
pub fn join_fits(limit: usize, d: View<'_>) -> bool
    requires { HalvesFit limit (seen d) }
    ensures { result ≡ lines_fit limit (content (seen d.entry)) }
{
    line_fits(limit, since_newline(0, d.l), d.r)
}

// A byte and k spaces behind it, put in at the cursor: the line on which they end decides.
pub fn run_fits(limit: usize, b: u8, k: usize, d: View<'_>) -> bool
    requires k_bound { length d.l.now + k + 1 < 2 ^ 64 }
    requires fits { lines_fit limit (content (seen d)) ≡ true }
    ensures { result ≡ lines_fit limit (content (splice 0 0 (leftward (b ∷ spaces k)) (seen d.entry))) }
{
    if b == 10 {
        return line_fits(limit, k, d.r);
    }
    let at = since_newline(0, d.l) + 1;
    line_fits(limit, at + k, d.r)
}

// The two halves of a pair, put in around the cursor: they are looked at, and the lines that they go on with and that go on behind them.
pub fn pair_fits(limit: usize, d: View<'_>, pair: View<'_>) -> bool
    requires lengths { length d.l.now + (length pair.l.now + length pair.r.now) < 2 ^ 64 }
    requires halves_fit { HalvesFit limit (seen d) }
    ensures { result ≡ lines_fit limit (content (splice 0 0 (seen pair.entry) (seen d.entry))) }
{
    runs_fit(limit, d.l, pair.l, pair.r, d.r)
}
