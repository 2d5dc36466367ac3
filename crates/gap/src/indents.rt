// Leading spaces of a line.
ghost use Rattle.std.specs.Prelude.{◌≡◌};
ghost use Rattle.gap.specs.Rules.Indents.{leading, indent};

use crate::lines::since_newline;

// How many spaces a run begins with: no byte behind them is read but the first.
fn leading_spaces(s: &[u8]) -> usize
    ensures { result ≡ leading s.now }
{
    s.iter().take_while(|b| **b == b' ').count()
}

// The leading spaces of the line on which a text ends, as far as the text goes.
pub fn line_indent(l: &[u8]) -> usize
    ensures { result ≡ indent l.now }
{
    let start = l.len() - since_newline(0, l);
    leading_spaces(&l[start..])
}
