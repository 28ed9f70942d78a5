// Why a call of the bus is refused.

ghost use Rattle.std.specs.Prelude.{◌≡◌};
ghost use Rattle.passes.specs.Errors.{error_of, shuts_out, bus_error_number};
ghost use Rattle.passes.specs.Compiling.{compile_error};
ghost use Rattle.passes.specs.Readings.{rule_error};

use bpf_verify::VerifyError;
use fan_out::FanError;
use match_rule::RuleError;
use program_table::Refusal;
use rule_compile::CompileError;
use std::error::Error;
use std::fmt;

/// Why a call of the bus is refused. Of several the rule's or the program's fault is named first, then what the state
/// says, then the length of the compiled rule.
#[derive(Clone, Copy, Debug, PartialEq, Eq)]
pub enum BusError {
    /// Memory was refused.
    NoMemory,
    /// There are as many connections as the bus may have.
    ConnectionsFull,
    /// There are as many entries as there may be, or the last id was given.
    EntriesFull,
    /// A name needs a slot, and as many are used as there may be.
    NamesFull,
    /// There would be more claims than there may be.
    QueueFull,
    /// The connection has no entry with an equal rule.
    RuleNotFound,
    /// The connection has no attached program of this id.
    NoAttachment,
    /// The pass isn't connected, or no longer (for `connect`: it is or was), or the bus has ended, or the bus counts
    /// other commands than the pass.
    Closed,
    /// The text is no rule.
    Rule(RuleError),
    /// The program is refused.
    Program(VerifyError),
    /// The rule's program would be too long.
    TooLong,
    /// Each place of a reader is in use.
    Busy,
    /// The workers gave no recipients.
    Fan(FanError),
    /// The last count of a broadcast was used.
    Counts,
}

impl BusError {
    /// The error's number, from 1.
    pub fn number(self) -> u8
        ensures { result ≡ bus_error_number self }
    {
        match self {
            BusError::NoMemory => 1,
            BusError::ConnectionsFull => 2,
            BusError::EntriesFull => 3,
            BusError::NamesFull => 4,
            BusError::QueueFull => 5,
            BusError::RuleNotFound => 6,
            BusError::NoAttachment => 7,
            BusError::Closed => 8,
            BusError::Rule(_) => 9,
            BusError::Program(_) => 10,
            BusError::TooLong => 11,
            BusError::Busy => 12,
            BusError::Fan(_) => 13,
            BusError::Counts => 14,
        }
    }

    /// Whether the pass that is answered so can't call any more.
    pub(crate) fn shuts_out(self) -> bool
        ensures { result ≡ shuts_out self }
    {
        matches!(self, BusError::Closed)
    }

    /// The error of a command that the state refuses.
    pub(crate) fn of(refusal: Refusal) -> BusError
        ensures { result ≡ error_of refusal }
    {
        match refusal {
            Refusal::ConnectionsFull => BusError::ConnectionsFull,
            Refusal::EntriesFull => BusError::EntriesFull,
            Refusal::NamesFull => BusError::NamesFull,
            Refusal::QueueFull => BusError::QueueFull,
            Refusal::RuleNotFound => BusError::RuleNotFound,
            Refusal::NoAttachment => BusError::NoAttachment,
            Refusal::Closed => BusError::Closed,
            Refusal::Stale => BusError::Closed,
        }
    }

    /// The error of a text that isn't read.
    pub fn of_text(fault: RuleError) -> BusError
        ensures { result ≡ rule_error fault }
    {
        match fault {
            RuleError::NoMemory => BusError::NoMemory,
            fault => BusError::Rule(fault),
        }
    }

    /// The error of a rule that isn't compiled.
    pub(crate) fn of_compiling(error: CompileError) -> BusError
        ensures { result ≡ compile_error error }
    {
        match error {
            CompileError::TooLong => BusError::TooLong,
            CompileError::NoMemory => BusError::NoMemory,
        }
    }
}

impl fmt::Display for BusError {
    ghost use Rattle.std.specs.Prelude.{Some};
    ghost use Rattle.passes.specs.Errors.{bus_error_text};

    ghost output = { λ error. Some (bus_error_text error) };

    fn fmt<W: fmt::Write>(&self, f: &mut fmt::Formatter<W>) -> fmt::Result {
        match self {
            BusError::NoMemory => f.write_str("NoMemory"),
            BusError::ConnectionsFull => f.write_str("ConnectionsFull"),
            BusError::EntriesFull => f.write_str("EntriesFull"),
            BusError::NamesFull => f.write_str("NamesFull"),
            BusError::QueueFull => f.write_str("QueueFull"),
            BusError::RuleNotFound => f.write_str("RuleNotFound"),
            BusError::NoAttachment => f.write_str("NoAttachment"),
            BusError::Closed => f.write_str("Closed"),
            BusError::Rule(fault) => write!(f, "Rule {fault}"),
            BusError::Program(fault) => write!(f, "Program {fault}"),
            BusError::TooLong => f.write_str("TooLong"),
            BusError::Busy => f.write_str("Busy"),
            BusError::Fan(fault) => write!(f, "Fan {fault}"),
            BusError::Counts => f.write_str("Counts"),
        }
    }
}

impl Error for BusError {}
