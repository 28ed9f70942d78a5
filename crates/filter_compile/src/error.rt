// Why a filter isn't compiled.
ghost use Rattle.std.specs.Prelude.{◌≡◌};
ghost use Rattle.filter_compile.specs.Numbers.{compile_error_name};

use jump_islands::LowerError;
use std::alloc::{AllocError, AllocFailed};
use std::error::Error;
use std::fmt;

/// Why a filter isn't compiled.
#[derive(Clone, Copy, Debug, PartialEq, Eq)]
pub enum CompileError {
    /// The filter weighs more than 4,096, so that its program might have more instructions than that.
    TooHeavy,
    /// Memory was refused.
    NoMemory,
}

impl CompileError {
    /// The error's name, which is also what `{}` prints.
    pub fn name(self) -> &'static str
        ensures { result.now ≡ compile_error_name self }
    {
        match self {
            CompileError::TooHeavy => "TooHeavy",
            CompileError::NoMemory => "NoMemory",
        }
    }
}

impl fmt::Display for CompileError {
    ghost use Rattle.std.specs.Prelude.{Some};

    ghost output = { λ error. Some (compile_error_name error) };

    fn fmt<W: fmt::Write>(&self, f: &mut fmt::Formatter<W>) -> fmt::Result {
        let name = self.name();
        f.write_str(name)
    }
}

impl Error for CompileError {}

impl From<AllocError> for CompileError {
    ghost use Rattle.filter_compile.specs.declared.error.CompileError.TheVariants.{NoMemory};

    ghost from_gives = { λ _ error. error ≡ NoMemory };

    fn from(_refused: AllocError) -> CompileError {
        CompileError::NoMemory
    }
}

impl<T: Drop> From<AllocFailed<T>> for CompileError {
    ghost use Rattle.filter_compile.specs.declared.error.CompileError.TheVariants.{NoMemory};

    ghost from_gives = { λ _ error. error ≡ NoMemory };

    fn from(_refused: AllocFailed<T>) -> CompileError {
        CompileError::NoMemory
    }
}

impl From<LowerError> for CompileError {
    ghost use Rattle.filter_compile.specs.Numbers.{error_of};

    ghost from_gives = { λ refused error. error ≡ error_of refused };

    fn from(refused: LowerError) -> CompileError {
        match refused {
            LowerError::TooMany => CompileError::TooHeavy,
            LowerError::NoMemory => CompileError::NoMemory,
        }
    }
}
