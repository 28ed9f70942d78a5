// What events are answered.

ghost use Rattle.std.specs.Prelude.{◌≡◌};
ghost use Rattle.world.specs.Steps.{recipients_answer};

use arrayvec::ArrayVec;
use message_view::MsgError;
use program_table::Reply;

/// What an event is answered.
#[derive(Debug, PartialEq, Eq, Drop)]
pub enum Answer {
    /// The reply to a command.
    Reply(Reply),
    /// The bytes of a Begin are no message.
    Fault(MsgError),
    /// The job isn't open, or there is no such part, or it was asked for before.
    Ignored,
    /// Recipients by rising number.
    Recipients(ArrayVec<u64, 4096>),
}

impl Answer {
    /// The answer to a Piece or an End, from the recipients that were found, if any.
    pub(crate) fn of_recipients(found: Option<ArrayVec<u64, 4096>>) -> Answer
        ensures { result ≡ recipients_answer found }
    {
        match found {
            Some(numbers) => Answer::Recipients(numbers),
            None => Answer::Ignored,
        }
    }
}
