// Why a stream gives no further message.

ghost use Rattle.std.specs.Prelude.{◌≡◌};
ghost use Rattle.frames.specs.Errors.{name_of};

use message_view::MsgError;
use std::alloc::AllocError;
use std::error::Error;
use std::fmt;

/// The fault of the bytes in a message's place, or that memory ran out.
#[derive(Clone, Copy, Debug, PartialEq, Eq)]
pub enum FrameError {
    Message(MsgError),
    NoMemory,
}

impl FrameError {
    /// Its name, which is also what `{}` prints. That of a message's fault is the fault's own.
    pub fn name(self) -> &'static str
        ensures { result.now ≡ name_of self }
    {
        match self {
            FrameError::Message(fault) => fault.name(),
            FrameError::NoMemory => "NoMemory",
        }
    }
}

impl fmt::Display for FrameError {
    ghost use Rattle.std.specs.Prelude.{Some};

    ghost output = { λ error. Some (name_of error) };

    fn fmt<W: fmt::Write>(&self, f: &mut fmt::Formatter<W>) -> fmt::Result {
        let name = self.name();
        write!(f, "{name}")
    }
}

impl Error for FrameError {}

impl From<AllocError> for FrameError {
    ghost use Rattle.frames.specs.declared.error.FrameError.TheVariants.{NoMemory};

    ghost from_gives = { λ _ fault. fault ≡ NoMemory };

    fn from(_: AllocError) -> FrameError {
        FrameError::NoMemory
    }
}
