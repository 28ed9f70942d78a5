// Why a bus gave no answer.

use crate::refusal::Refusal;
use frames::FrameError;
use message_build::BuildError;
use message_view::MsgError;
use std::alloc::{AllocError, AllocFailed};
use std::error::Error;
use std::{fmt, io};

/// Why a bus gave no answer.
#[derive(Debug, Drop)]
pub enum ClientError {
    /// The socket failed, ended, or gave nothing in time.
    Socket,
    /// The bus refuses all mechanisms of authentication, or its answer is none.
    Auth,
    /// The bus sent bytes that are no message.
    Message(MsgError),
    /// The bus answered with this error.
    Answered(Refusal),
    NoMemory,
}

impl fmt::Display for ClientError {
    ghost use Rattle.std.specs.Prelude.{Some};
    ghost use Rattle.bus_client.specs.Errors.{client_error_text};

    ghost output = { λ error. Some (client_error_text error) };

    fn fmt<W: fmt::Write>(&self, f: &mut fmt::Formatter<W>) -> fmt::Result {
        match self {
            ClientError::Socket => f.write_str("socket"),
            ClientError::Auth => f.write_str("auth"),
            ClientError::Message(fault) => write!(f, "message {fault}"),
            ClientError::Answered(refusal) => write!(f, "error {}", refusal.name),
            ClientError::NoMemory => f.write_str("memory"),
        }
    }
}

impl Error for ClientError {}

impl From<io::Error> for ClientError {
    fn from(error: io::Error) -> ClientError {
        match error.kind() {
            io::ErrorKind::OutOfMemory => ClientError::NoMemory,
            _ => ClientError::Socket,
        }
    }
}

impl From<MsgError> for ClientError {
    fn from(fault: MsgError) -> ClientError {
        ClientError::Message(fault)
    }
}

impl From<FrameError> for ClientError {
    fn from(error: FrameError) -> ClientError {
        match error {
            FrameError::Message(fault) => ClientError::Message(fault),
            FrameError::NoMemory => ClientError::NoMemory,
        }
    }
}

impl From<BuildError> for ClientError {
    fn from(error: BuildError) -> ClientError {
        match error {
            BuildError::NoMemory => ClientError::NoMemory,
            // An argument of the call has a text that no message has room for, or that no message may have.
            BuildError::Invalid => ClientError::Message(MsgError::BadText),
            BuildError::TooLarge => ClientError::Message(MsgError::TooLarge),
        }
    }
}

impl From<AllocError> for ClientError {
    fn from(_refused: AllocError) -> ClientError {
        ClientError::NoMemory
    }
}

impl<T: Drop> From<AllocFailed<T>> for ClientError {
    fn from(_refused: AllocFailed<T>) -> ClientError {
        ClientError::NoMemory
    }
}
