// What is said of a rule and a message.

#[derive(Clone, Copy, PartialEq, Eq)]
pub(crate) enum Verdict {
    Match,
    NoMatch,
    /// The rule matches, its program doesn't.
    RuleAlone,
    /// The program matches, its rule doesn't.
    ProgramAlone,
    NoProgram,
    /// One message or sender is told from another.
    Divided,
}

impl Verdict {
    pub(crate) fn of(rule_holds: bool, program_matches: bool) -> Verdict {
        match (rule_holds, program_matches) {
            (true, true) => Verdict::Match,
            (false, false) => Verdict::NoMatch,
            (true, false) => Verdict::RuleAlone,
            (false, true) => Verdict::ProgramAlone,
        }
    }

    /// What is said of both.
    pub(crate) fn and(self, other: Verdict) -> Verdict {
        if self == other {
            self
        } else {
            Verdict::Divided
        }
    }

    pub(crate) fn words(self) -> &'static str {
        match self {
            Verdict::Match => "match",
            Verdict::NoMatch => "no match",
            Verdict::RuleAlone => "match by the rule alone",
            Verdict::ProgramAlone => "match by the program alone",
            Verdict::NoProgram => "no program",
            Verdict::Divided => "match of some",
        }
    }
}
