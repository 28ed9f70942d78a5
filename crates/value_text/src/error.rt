// Why a value can't be written.

use message_view::MsgError;
use std::alloc::{AllocError, AllocFailed};
use std::error::Error;
use std::fmt;

/// Why a value can't be written.
#[derive(Clone, Copy, Debug, PartialEq, Eq)]
pub enum TextError {
    /// The bytes spell no value of the type. Those of a message that was read do.
    Message(MsgError),
    NoMemory,
}

impl fmt::Display for TextError {
    ghost use Rattle.std.specs.Prelude.{Some};
    ghost use Rattle.value_text.specs.Errors.{text_error_text};

    ghost output = { λ error. Some (text_error_text error) };

    fn fmt<W: fmt::Write>(&self, f: &mut fmt::Formatter<W>) -> fmt::Result {
        match self {
            TextError::Message(fault) => write!(f, "{fault}"),
            TextError::NoMemory => f.write_str("NoMemory"),
        }
    }
}

impl Error for TextError {}

impl From<MsgError> for TextError {
    ghost use Rattle.std.specs.Prelude.{◌≡◌};
    ghost use Rattle.value_text.specs.declared.error.TextError.TheVariants.{Message};

    ghost from_gives = { λ fault error. error ≡ Message fault };

    fn from(fault: MsgError) -> TextError {
        TextError::Message(fault)
    }
}

impl From<AllocError> for TextError {
    ghost use Rattle.std.specs.Prelude.{◌≡◌};
    ghost use Rattle.value_text.specs.declared.error.TextError.TheVariants.{NoMemory};

    ghost from_gives = { λ _ error. error ≡ NoMemory };

    fn from(_refused: AllocError) -> TextError {
        TextError::NoMemory
    }
}

impl<T: Drop> From<AllocFailed<T>> for TextError {
    ghost use Rattle.std.specs.Prelude.{◌≡◌};
    ghost use Rattle.value_text.specs.declared.error.TextError.TheVariants.{NoMemory};

    ghost from_gives = { λ _ error. error ≡ NoMemory };

    fn from(_refused: AllocFailed<T>) -> TextError {
        TextError::NoMemory
    }
}
