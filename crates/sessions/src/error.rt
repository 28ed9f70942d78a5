// Why a session ends.

ghost use Rattle.std.specs.Prelude.{◌≡◌};
ghost use Rattle.sessions.specs.Errors.{number_of, name_of};

use frames::FrameError;
use message_view::MsgError;
use peers::AnswerError;
use std::error::Error;
use std::fmt;

/// Why a session ends, where its input doesn't end between two messages.
#[derive(Clone, Copy, Debug, PartialEq, Eq)]
pub enum SessionError {
    /// The client wasn't let in, or its input ended before BEGIN.
    Auth,
    /// The first fault of the bytes in a message's place.
    Message(MsgError),
    /// The first message wasn't the call Hello, or Hello was refused.
    NoHello,
    /// The reader failed.
    Read,
    /// The writer failed.
    Write,
    /// The session's outbox was full, and is shut.
    Slow,
    /// Memory was refused, or the bus has ended.
    NoMemory,
    /// A client that watches the bus sent a message.
    Monitor,
}

impl SessionError {
    /// The error's number, from 1 in the order of the variants.
    pub fn number(self) -> u8
        ensures { result ≡ number_of self }
    {
        match self {
            SessionError::Auth => 1,
            SessionError::Message(_) => 2,
            SessionError::NoHello => 3,
            SessionError::Read => 4,
            SessionError::Write => 5,
            SessionError::Slow => 6,
            SessionError::NoMemory => 7,
            SessionError::Monitor => 8,
        }
    }

    /// The error's name. Where the error is printed, that of a message's fault follows it.
    pub fn name(self) -> &'static str
        ensures { result.now ≡ name_of self }
    {
        match self {
            SessionError::Auth => "Auth",
            SessionError::Message(_) => "Message",
            SessionError::NoHello => "NoHello",
            SessionError::Read => "Read",
            SessionError::Write => "Write",
            SessionError::Slow => "Slow",
            SessionError::NoMemory => "NoMemory",
            SessionError::Monitor => "Monitor",
        }
    }
}

impl fmt::Display for SessionError {
    ghost use Rattle.std.specs.Prelude.{Some};
    ghost use Rattle.sessions.specs.Errors.{text_of};

    ghost output = { λ error. Some (text_of error) };

    fn fmt<W: fmt::Write>(&self, f: &mut fmt::Formatter<W>) -> fmt::Result {
        match self {
            SessionError::Message(fault) => write!(f, "Message {fault}"),
            error => f.write_str(error.name()),
        }
    }
}

impl Error for SessionError {}

impl From<FrameError> for SessionError {
    ghost use Rattle.std.specs.Prelude.{◌≡◌};
    ghost use Rattle.sessions.specs.Errors.{error_of_frame};

    ghost from_gives = { λ frame error. error ≡ error_of_frame frame };

    fn from(error: FrameError) -> SessionError {
        match error {
            FrameError::Message(fault) => SessionError::Message(fault),
            FrameError::NoMemory => SessionError::NoMemory,
        }
    }
}

impl From<AnswerError> for SessionError {
    ghost use Rattle.std.specs.Prelude.{◌≡◌};
    ghost use Rattle.sessions.specs.Errors.{error_of_answer};

    ghost from_gives = { λ answer error. error ≡ error_of_answer answer };

    fn from(error: AnswerError) -> SessionError {
        match error {
            AnswerError::Slow => SessionError::Slow,
            AnswerError::NoMemory => SessionError::NoMemory,
            AnswerError::Monitor => SessionError::Monitor,
        }
    }
}
