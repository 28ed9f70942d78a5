// What is found of the packets of a capture.

use crate::judgement::Judgement;
use message_value::MsgError;

/// What is found of a packet of D-Bus.
#[derive(Drop)]
pub(crate) enum Finding {
    /// What is said of its message.
    Judged(Judgement),
    /// It is only the beginning of a message, and passed over.
    Cut,
    /// Its bytes are no message, and it is passed over.
    NoMessage(MsgError),
}
