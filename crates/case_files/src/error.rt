// Why a line can't be judged.

use hex::FromHexError;
use std::alloc::{AllocError, AllocFailed};
use std::error::Error;
use std::fmt;
use std::num::{ParseIntError, TryFromIntError};
use std::str::Utf8Error;

/// Why a line of a file of cases can't be judged.
#[derive(Clone, Copy, Debug, PartialEq, Eq)]
pub enum LineError {
    /// It isn't UTF-8, has another number of fields, or one that its program can't read.
    Unreadable,
    NameTwice,
    NoMemory,
}

impl fmt::Display for LineError {
    fn fmt<W: fmt::Write>(&self, f: &mut fmt::Formatter<W>) -> fmt::Result {
        let words = match self {
            LineError::Unreadable => "unreadable",
            LineError::NameTwice => "name given twice",
            LineError::NoMemory => "out of memory",
        };
        write!(f, "{words}")
    }
}

impl Error for LineError {}

impl From<AllocError> for LineError {
    fn from(_refused: AllocError) -> LineError {
        LineError::NoMemory
    }
}

impl<T: Drop> From<AllocFailed<T>> for LineError {
    fn from(_refused: AllocFailed<T>) -> LineError {
        LineError::NoMemory
    }
}

impl From<Utf8Error> for LineError {
    fn from(_error: Utf8Error) -> LineError {
        LineError::Unreadable
    }
}

impl From<FromHexError> for LineError {
    fn from(error: FromHexError) -> LineError {
        match error {
            FromHexError::OutOfMemory => LineError::NoMemory,
            _ => LineError::Unreadable,
        }
    }
}

impl From<ParseIntError> for LineError {
    fn from(_error: ParseIntError) -> LineError {
        LineError::Unreadable
    }
}

impl From<TryFromIntError> for LineError {
    fn from(_error: TryFromIntError) -> LineError {
        LineError::Unreadable
    }
}
