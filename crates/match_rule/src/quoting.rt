// The quoting of values.

ghost use Rattle.std.specs.Prelude.{◌≡◌};
ghost use Rattle.match_rule.specs.Reading.{step};

/// Where a byte of a value stands: outside of apostrophes, inside them, or after a backslash that makes an apostrophe
/// of it.
#[derive(Clone, Copy, Debug)]
pub(crate) enum Quoting {
    Outside,
    Inside,
    Escaped,
}

/// What a byte of a value does, and where the next one stands.
#[derive(Clone, Copy, Debug)]
pub(crate) enum Step {
    End,
    Skip(Quoting),
    Take(Quoting),
}

impl Quoting {
    pub(crate) fn step(self, byte: u8, before_apostrophe: bool) -> Step
        ensures { result ≡ step self byte before_apostrophe }
    {
        match (self, byte) {
            (Quoting::Outside, b',') => Step::End,
            (Quoting::Outside, b'\'') => Step::Skip(Quoting::Inside),
            (Quoting::Outside, b'\\') if before_apostrophe => Step::Skip(Quoting::Escaped),
            (Quoting::Outside, _) => Step::Take(Quoting::Outside),
            (Quoting::Inside, b'\'') => Step::Skip(Quoting::Outside),
            (Quoting::Inside, _) => Step::Take(Quoting::Inside),
            (Quoting::Escaped, _) => Step::Take(Quoting::Outside),
        }
    }
}
