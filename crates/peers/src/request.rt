// What an answer has to know of its call.

ghost use Rattle.std.specs.Prelude.{◌≡◌, ◌==◌, bit_and};
ghost use Rattle.message_view.specs.Message.{Message};
ghost use Rattle.message_view.specs.Valid.{Valid};
ghost use Rattle.bus_messages.specs.Sent.{no_reply_expected};

use message_view::View;

/// The flag of a call that wants no answer (D-Bus Specification, "Message Format": NO_REPLY_EXPECTED).
const NO_REPLY_EXPECTED: u8 = 1;

/// A call's serial, and whether its caller waits for an answer.
#[derive(Clone, Copy, Debug)]
pub struct Request {
    pub serial: u32,
    pub wants_answer: bool,
}

impl Request {
    /// What the answer to a message has to know.
    pub fn of(view: &View<'_>) -> Request
        ensures serial { (m : Message) → Valid view.now m → result.serial ≡ m.serial }
        ensures answer { (m : Message) → Valid view.now m → result.wants_answer ≡ (bit_and m.flags no_reply_expected == 0) }
    {
        Request {
            serial: view.serial(),
            wants_answer: view.flags() & NO_REPLY_EXPECTED == 0,
        }
    }
}
