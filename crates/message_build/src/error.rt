// Why a message can't be built.

ghost use Rattle.std.specs.Prelude.{◌≡◌};
ghost use Rattle.message_build.specs.ErrorName.{number_of, name_of};

use std::alloc::{AllocError, AllocFailed};
use std::error::Error;
use std::fmt;

/// Why a message can't be built.
#[derive(Clone, Copy, Debug, PartialEq, Eq)]
pub enum BuildError {
    /// No valid message is what was asked for.
    Invalid,
    /// The message would be above the limits.
    TooLarge,
    /// Memory ran out.
    NoMemory,
}

impl BuildError {
    /// The error's number, from 1 in the order of the variants.
    pub fn number(self) -> u8
        ensures { result ≡ number_of self }
    {
        match self {
            BuildError::Invalid => 1,
            BuildError::TooLarge => 2,
            BuildError::NoMemory => 3,
        }
    }

    /// The error's name, which is also what `{}` prints.
    pub fn name(self) -> &'static str
        ensures { result.now ≡ name_of self }
    {
        match self {
            BuildError::Invalid => "Invalid",
            BuildError::TooLarge => "TooLarge",
            BuildError::NoMemory => "NoMemory",
        }
    }
}

impl fmt::Display for BuildError {
    ghost use Rattle.std.specs.Prelude.{Some};

    ghost output = { λ error. Some (name_of error) };

    fn fmt<W: fmt::Write>(&self, f: &mut fmt::Formatter<W>) -> fmt::Result {
        f.write_str(self.name())
    }
}

impl Error for BuildError {}

impl From<AllocError> for BuildError {
    ghost use Rattle.message_build.specs.declared.error.BuildError.TheVariants.{NoMemory};

    ghost from_gives = { λ _ error. error ≡ NoMemory };

    fn from(_refused: AllocError) -> BuildError {
        BuildError::NoMemory
    }
}

impl<T: Drop> From<AllocFailed<T>> for BuildError {
    ghost use Rattle.message_build.specs.declared.error.BuildError.TheVariants.{NoMemory};

    ghost from_gives = { λ _ error. error ≡ NoMemory };

    fn from(_refused: AllocFailed<T>) -> BuildError {
        BuildError::NoMemory
    }
}
