// Why a text is no rule.

ghost use Rattle.std.specs.Prelude.{◌≡◌};
ghost use Rattle.match_key.specs.Errors.{number_of, name_of, sentence_of};

use std::alloc::{AllocError, AllocFailed};
use std::error::Error;
use std::fmt;

/// The first fault of a text that is no rule, or that memory ran out.
#[derive(Clone, Copy, Debug, PartialEq, Eq)]
pub enum RuleError {
    TooLong,
    UnknownKey,
    KeyTwice,
    BadValue,
    Unquoted,
    PathTwice,
    ArgNumber,
    NoMemory,
}

impl RuleError {
    /// The fault's number, from 1 in the order of the variants.
    pub fn number(self) -> u8
        ensures { result ≡ number_of self }
    {
        match self {
            RuleError::TooLong => 1,
            RuleError::UnknownKey => 2,
            RuleError::KeyTwice => 3,
            RuleError::BadValue => 4,
            RuleError::Unquoted => 5,
            RuleError::PathTwice => 6,
            RuleError::ArgNumber => 7,
            RuleError::NoMemory => 8,
        }
    }

    /// The fault's name, which is also what `{}` prints.
    pub fn name(self) -> &'static str
        ensures { result.now ≡ name_of self }
    {
        match self {
            RuleError::TooLong => "TooLong",
            RuleError::UnknownKey => "UnknownKey",
            RuleError::KeyTwice => "KeyTwice",
            RuleError::BadValue => "BadValue",
            RuleError::Unquoted => "Unquoted",
            RuleError::PathTwice => "PathTwice",
            RuleError::ArgNumber => "ArgNumber",
            RuleError::NoMemory => "NoMemory",
        }
    }

    /// What is wrong, for people.
    pub fn sentence(self) -> &'static str
        ensures { result.now ≡ sentence_of self }
    {
        match self {
            RuleError::TooLong => "a rule has at most 1,024 bytes",
            RuleError::UnknownKey => "there is no such key",
            RuleError::KeyTwice => "a key is given twice",
            RuleError::BadValue => "a key may not have this value",
            RuleError::Unquoted => "a value is not closed",
            RuleError::PathTwice => "path and path_namespace exclude one another",
            RuleError::ArgNumber => "an argument has a number that its key may not have",
            RuleError::NoMemory => "there is no memory",
        }
    }
}

impl fmt::Display for RuleError {
    ghost use Rattle.std.specs.Prelude.{Some};

    ghost output = { λ fault. Some (name_of fault) };

    fn fmt<W: fmt::Write>(&self, f: &mut fmt::Formatter<W>) -> fmt::Result {
        let name = self.name();
        write!(f, "{name}")
    }
}

impl Error for RuleError {}

impl From<AllocError> for RuleError {
    ghost use Rattle.match_key.specs.declared.error.RuleError.TheVariants.{NoMemory};

    ghost from_gives = { λ _ fault. fault ≡ NoMemory };

    fn from(_refused: AllocError) -> RuleError {
        RuleError::NoMemory
    }
}

impl<T: Drop> From<AllocFailed<T>> for RuleError {
    ghost use Rattle.match_key.specs.declared.error.RuleError.TheVariants.{NoMemory};

    ghost from_gives = { λ _ fault. fault ≡ NoMemory };

    fn from(_refused: AllocFailed<T>) -> RuleError {
        RuleError::NoMemory
    }
}
