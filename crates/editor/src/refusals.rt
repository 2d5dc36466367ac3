// The refusals by name, for this layer and those above. Their numbers are the host's business.
ghost use Rattle.std.specs.Prelude.{◌≡◌};
ghost use Rattle.editor.specs.Rules.Refusals.{number};

#[derive(Clone, Copy, PartialEq, Eq, Debug)]
pub enum Refusal {
    Size,
    Long,
    Text,
    Session,
    Key,
    Full,
    Room,
    Line,
}

impl Refusal {
    // The number that a host is told. A method, since `usize::from` would not say which number.
    pub fn number(self) -> usize
        ensures { result ≡ number self }
    {
        match self {
            Refusal::Size => 1,
            Refusal::Long => 2,
            Refusal::Text => 3,
            Refusal::Session => 4,
            Refusal::Key => 5,
            Refusal::Full => 6,
            Refusal::Room => 7,
            Refusal::Line => 8,
        }
    }
}
