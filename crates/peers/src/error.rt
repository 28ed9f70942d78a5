// Why a call isn't answered.

use std::error::Error;
use std::fmt;

/// Why a call isn't answered, or a change isn't announced. Either ends the connection's session.
#[derive(Clone, Copy, Debug, PartialEq, Eq)]
pub enum AnswerError {
    /// The client's outbox is full or shut.
    Slow,
    /// Memory was refused, or the bus has ended.
    NoMemory,
    /// The client watches the bus, and may send nothing.
    Monitor,
}

impl fmt::Display for AnswerError {
    ghost use Rattle.std.specs.Prelude.{Some};
    ghost use Rattle.peers.specs.Answers.{answer_error_name};

    ghost output = { λ error. Some (answer_error_name error) };

    fn fmt<W: fmt::Write>(&self, f: &mut fmt::Formatter<W>) -> fmt::Result {
        f.write_str(match self {
            AnswerError::Slow => "Slow",
            AnswerError::NoMemory => "NoMemory",
            AnswerError::Monitor => "Monitor",
        })
    }
}

impl Error for AnswerError {}
