// Why a text is no filter.

ghost use Rattle.std.specs.Prelude.{◌≡◌};
ghost use Rattle.filter.specs.Errors.{name_of};

use std::alloc::{AllocError, AllocFailed};
use std::error::Error;
use std::fmt;

/// What is wrong with the first token that doesn't fit.
#[derive(Clone, Copy, Debug, PartialEq, Eq)]
pub enum Fault {
    /// The text has more than 4,096 bytes.
    TooLong,
    /// A byte outside quotes that begins no token.
    BadByte,
    /// A quoted text that isn't closed.
    Unquoted,
    /// A backslash in quotes before anything but a backslash or a quote.
    BadEscape,
    /// No test, where one is wanted.
    NoTest,
    /// A word that begins no test.
    UnknownWord,
    /// The number of an argument isn't one of 0 to 63, or has leading zeros.
    ArgNumber,
    /// More than 64 `(` and `not` are open.
    Depth,
    /// A word that begins as a number does, and is none, or is out of range.
    BadNumber,
    /// A `)` that closes nothing.
    Unopened,
    /// The end, with a `(` open.
    Unclosed,
    /// No operator that the operand has.
    BadOperator,
    /// No value that the operand takes with the operator.
    BadValue,
    /// No type, after `is`.
    BadType,
    /// No field and no argument, after `has`.
    BadField,
    /// No `and`, `or` or `)`, after a test.
    NoConnective,
}

impl Fault {
    /// The fault's name, which is also what `{}` prints.
    pub fn name(self) -> &'static str
        ensures { result.now ≡ name_of self }
    {
        match self {
            Fault::TooLong => "TooLong",
            Fault::BadByte => "BadByte",
            Fault::Unquoted => "Unquoted",
            Fault::BadEscape => "BadEscape",
            Fault::NoTest => "NoTest",
            Fault::UnknownWord => "UnknownWord",
            Fault::ArgNumber => "ArgNumber",
            Fault::Depth => "Depth",
            Fault::BadNumber => "BadNumber",
            Fault::Unopened => "Unopened",
            Fault::Unclosed => "Unclosed",
            Fault::BadOperator => "BadOperator",
            Fault::BadValue => "BadValue",
            Fault::BadType => "BadType",
            Fault::BadField => "BadField",
            Fault::NoConnective => "NoConnective",
        }
    }
}

impl fmt::Display for Fault {
    ghost use Rattle.std.specs.Prelude.{Some};

    ghost output = { λ fault. Some (name_of fault) };

    fn fmt<W: fmt::Write>(&self, f: &mut fmt::Formatter<W>) -> fmt::Result {
        f.write_str(self.name())
    }
}

impl Error for Fault {}

/// A fault, and the place of its first byte, from 0.
#[derive(Clone, Copy, Debug, PartialEq, Eq)]
pub struct FaultAt {
    pub fault: Fault,
    pub place: usize,
}

impl fmt::Display for FaultAt {
    ghost use Rattle.std.specs.Prelude.{Some};
    ghost use Rattle.filter.specs.Errors.{fault_text};

    ghost output = { λ at. Some (fault_text at) };

    fn fmt<W: fmt::Write>(&self, f: &mut fmt::Formatter<W>) -> fmt::Result {
        let name = self.fault.name();
        let place = self.place;
        write!(f, "{name} at {place}")
    }
}

impl Error for FaultAt {}

/// Why a reader can't go on at a token.
#[derive(Clone, Copy, Debug, PartialEq, Eq)]
pub(crate) enum StepError {
    Fault(Fault),
    NoMemory,
}

impl From<Fault> for StepError {
    ghost use Rattle.filter.specs.declared.error.StepError.TheVariants as stops;

    ghost from_gives = { λ fault e. e ≡ stops.Fault fault };

    fn from(fault: Fault) -> StepError {
        StepError::Fault(fault)
    }
}

impl From<AllocError> for StepError {
    ghost use Rattle.filter.specs.declared.error.StepError.TheVariants.{NoMemory};

    ghost from_gives = { λ _ e. e ≡ NoMemory };

    fn from(_refused: AllocError) -> StepError {
        StepError::NoMemory
    }
}

impl<T: Drop> From<AllocFailed<T>> for StepError {
    ghost use Rattle.filter.specs.declared.error.StepError.TheVariants.{NoMemory};

    ghost from_gives = { λ _ e. e ≡ NoMemory };

    fn from(_refused: AllocFailed<T>) -> StepError {
        StepError::NoMemory
    }
}

/// The first fault of a text that is no filter, or that memory ran out.
#[derive(Clone, Copy, Debug, PartialEq, Eq)]
pub enum FilterError {
    Fault(FaultAt),
    NoMemory,
}

impl fmt::Display for FilterError {
    ghost use Rattle.std.specs.Prelude.{Some};
    ghost use Rattle.filter.specs.Errors.{error_text};

    ghost output = { λ error. Some (error_text error) };

    fn fmt<W: fmt::Write>(&self, f: &mut fmt::Formatter<W>) -> fmt::Result {
        match self {
            FilterError::Fault(at) => write!(f, "{at}"),
            FilterError::NoMemory => f.write_str("NoMemory"),
        }
    }
}

impl Error for FilterError {}
