ghost use Rattle.std.specs.Prelude.{◌≡◌, Some};
ghost use Rattle.jump_islands.specs.declared.error.LowerError.TheVariants.{NoMemory};
ghost use Rattle.jump_islands.specs.Numbers.{lower_error_number, lower_error_name};

use std::alloc::{AllocError, AllocFailed};
use std::error::Error;
use std::fmt;

/// Why a draft isn't lowered.
#[derive(Clone, Copy, Debug, PartialEq, Eq)]
pub enum LowerError {
    /// There would be more than 4,096 instructions.
    TooMany,
    /// Memory was refused.
    NoMemory,
}

impl LowerError {
    /// The error's number, from 1.
    pub fn number(self) -> u8
        ensures { result ≡ lower_error_number self }
    {
        match self {
            LowerError::TooMany => 1,
            LowerError::NoMemory => 2,
        }
    }

    /// The error's name, which is also what `{}` prints.
    pub fn name(self) -> &'static str
        ensures { result.now ≡ lower_error_name self }
    {
        match self {
            LowerError::TooMany => "TooMany",
            LowerError::NoMemory => "NoMemory",
        }
    }
}

impl fmt::Display for LowerError {
    ghost output = { λ error. Some (lower_error_name error) };

    fn fmt<W: fmt::Write>(&self, f: &mut fmt::Formatter<W>) -> fmt::Result {
        let name = self.name();
        f.write_str(name)
    }
}

impl Error for LowerError {}

impl From<AllocError> for LowerError {
    ghost from_gives = { λ _ error. error ≡ NoMemory };

    fn from(_refused: AllocError) -> LowerError {
        LowerError::NoMemory
    }
}

impl<T: Drop> From<AllocFailed<T>> for LowerError {
    ghost from_gives = { λ _ error. error ≡ NoMemory };

    fn from(_refused: AllocFailed<T>) -> LowerError {
        LowerError::NoMemory
    }
}
