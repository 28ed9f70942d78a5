// What whoever runs a bus may want to know.

use crate::limit::Limit;
use sessions::{Opening, SessionError};
use std::fmt;

/// Why the bus ended a session.
#[derive(Clone, Copy, Debug)]
pub enum Cause {
    /// What its client sent or took, or want of memory.
    Session(SessionError),
    /// What came in the place of Hello, or a Hello that was refused.
    Opening(Opening),
    /// It was kept by no limit of this kind.
    Limit(Limit),
    /// The bus ends, and with it all sessions.
    BusEnds,
}

impl Cause {
    pub(crate) const MEMORY: Cause = Cause::Session(SessionError::NoMemory);

    /// The cause of an end, or else why not all were told of it.
    pub(crate) fn or_untold(cause: Option<Cause>, told: Result<(), SessionError>) -> Option<Cause> {
        match (cause, told) {
            (None, Err(error)) => Some(Cause::Session(error)),
            (cause, _) => cause,
        }
    }
}

impl fmt::Display for Cause {
    ghost use Rattle.std.specs.Prelude.{Some};
    ghost use Rattle.server.specs.Notes.{cause_text};

    ghost output = { λ cause. Some (cause_text cause) };

    fn fmt<W: fmt::Write>(&self, f: &mut fmt::Formatter<W>) -> fmt::Result {
        match self {
            Cause::Session(error) => write!(f, "{error}"),
            Cause::Opening(opening) => write!(f, "NoHello ({opening})"),
            Cause::Limit(limit) => f.write_str(limit.name()),
            Cause::BusEnds => f.write_str("the bus ends"),
        }
    }
}

/// What happened on a bus. A client is known by the number of its unique name, which it has from Hello on.
#[derive(Clone, Copy, Debug)]
pub enum Note {
    /// Its Hello was accepted.
    Came(u64),
    /// It closed its socket, and has left the bus.
    Went(u64),
    /// The bus ended its session, or has told of its end only as far as there was memory.
    Ended(Option<u64>, Cause),
    /// No descriptor is left to accept the next connection by.
    NoDescriptor,
    /// As many notes found no room.
    Lost(u64),
}

impl Note {
    /// That a session has ended, for a cause unless its client is gone. A client that goes before Hello is none to speak of.
    pub(crate) fn of_end(number: Option<u64>, cause: Option<Cause>) -> Option<Note> {
        match cause {
            Some(cause) => Some(Note::Ended(number, cause)),
            None => number.map(Note::Went),
        }
    }
}

impl fmt::Display for Note {
    ghost use Rattle.std.specs.Prelude.{Some};
    ghost use Rattle.server.specs.Notes.{note_text};

    ghost output = { λ note. Some (note_text note) };

    fn fmt<W: fmt::Write>(&self, f: &mut fmt::Formatter<W>) -> fmt::Result {
        match self {
            Note::Came(number) => write!(f, ":1.{number} came"),
            Note::Went(number) => write!(f, ":1.{number} went"),
            Note::Ended(client, cause) => {
                match client {
                    Some(number) => write!(f, ":1.{number}")?,
                    None => f.write_str("a newcomer")?,
                }
                write!(f, " was ended: {cause}")
            }
            Note::NoDescriptor => f.write_str("no descriptor is left, newcomers are closed"),
            Note::Lost(count) => write!(f, "{count} lines are missing here"),
        }
    }
}

/// Which notes are wanted.
#[derive(Clone, Copy, Debug, PartialEq, Eq)]
pub enum Verbosity {
    None,
    /// What went wrong, and not who came and went.
    Faults,
    All,
}

impl Verbosity {
    pub(crate) fn wants(self, note: &Note) -> bool {
        match (self, note) {
            (Verbosity::None, _) => false,
            (Verbosity::Faults, Note::Came(_) | Note::Went(_)) => false,
            (Verbosity::Faults, Note::Ended(_, Cause::BusEnds)) => false,
            _ => true,
        }
    }
}
