// Serials of the bus's own messages.

ghost use Rattle.std.specs.Prelude.{◌≡◌, ◌≢◌};
ghost use Rattle.peers.specs.Serials.{serial_after};

use std::marker::Model;

/// Counts the messages that the bus makes for one session, whether or not anybody receives them.
#[derive(Drop)]
pub(crate) struct Serials {
    next: u32,
}

impl Model for Serials {
    ghost use Rattle.std.specs.Prelude.{ℕ, ◌≢◌};

    ghost Value = { ℕ };

    ghost view = { λ s. s.next };

    ghost invariant = { λ s. s.next ≢ 0 };
}

impl Serials {
    /// The state before the first message, whose serial is 1.
    pub(crate) fn new() -> Serials
        ensures { result ≡ 1 }
    {
        Serials { next: 1 }
    }

    /// Takes the next message's serial. The one after it is next then: 1 after the greatest.
    pub(crate) fn take(&mut self) -> u32
        ensures next { result ≡ self.old }
        ensures valid { result ≢ 0 }
        ensures used { self.new ≡ serial_after self.old }
    {
        let serial = self.next;
        self.next = if serial == u32::MAX { 1 } else { serial + 1 };
        serial
    }
}
