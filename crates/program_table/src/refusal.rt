// Why a command is refused.

ghost use Rattle.std.specs.Prelude.{◌≡◌};
ghost use Rattle.program_table.specs.Numbers.{refusal_number, refusal_name};

use std::error::Error;
use std::fmt;

/// Why a command is refused.
#[derive(Clone, Copy, Debug, PartialEq, Eq)]
pub enum Refusal {
    /// There are as many connections as the bus may have.
    ConnectionsFull,
    /// There are as many entries as there may be, or the last id was given.
    EntriesFull,
    /// A name needs a slot, and as many are used as there may be.
    NamesFull,
    /// There would be more claims than there may be.
    QueueFull,
    /// The connection has no entry with an equal rule.
    RuleNotFound,
    /// The connection has no attached program of this id.
    NoAttachment,
    /// The connection isn't there, or as many commands were accepted as can be counted.
    Closed,
    /// The rule was compiled for another slot than the one that its sender name has or would get.
    Stale,
}

impl Refusal {
    /// The refusal's number, from 1.
    pub fn number(self) -> u8
        ensures { result ≡ refusal_number self }
    {
        match self {
            Refusal::ConnectionsFull => 1,
            Refusal::EntriesFull => 2,
            Refusal::NamesFull => 3,
            Refusal::QueueFull => 4,
            Refusal::RuleNotFound => 5,
            Refusal::NoAttachment => 6,
            Refusal::Closed => 7,
            Refusal::Stale => 8,
        }
    }

    /// The refusal's name, which is also what `{}` prints.
    pub fn name(self) -> &'static str
        ensures { result.now ≡ refusal_name self }
    {
        match self {
            Refusal::ConnectionsFull => "ConnectionsFull",
            Refusal::EntriesFull => "EntriesFull",
            Refusal::NamesFull => "NamesFull",
            Refusal::QueueFull => "QueueFull",
            Refusal::RuleNotFound => "RuleNotFound",
            Refusal::NoAttachment => "NoAttachment",
            Refusal::Closed => "Closed",
            Refusal::Stale => "Stale",
        }
    }
}

impl fmt::Display for Refusal {
    ghost use Rattle.std.specs.Prelude.{Some};

    ghost output = { λ refusal. Some (refusal_name refusal) };

    fn fmt<W: fmt::Write>(&self, f: &mut fmt::Formatter<W>) -> fmt::Result {
        let name = self.name();
        f.write_str(name)
    }
}

impl Error for Refusal {}
