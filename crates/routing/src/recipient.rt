// Recipients of messages.

ghost use Rattle.std.specs.Prelude.{◌≡◌};

use crate::mailbox::Mailbox;
use std::marker::Model;

/// A recipient of a message: its connection's number, and a handle on that connection's outbox.
#[derive(Drop)]
pub struct Recipient<C: Mailbox> {
    number: u64,
    carrier: C,
}

impl<C: Mailbox> Model for Recipient<C> {
    ghost use Rattle.routing.specs.SenderView.{RecipientView};

    ghost Value = { RecipientView };

    ghost view = { λ r. record { number = r.number; outbox = C.outbox_of r.carrier } };
}

impl<C: Mailbox> Recipient<C> {
    pub fn new(number: u64, carrier: C) -> Recipient<C>
        ensures { (result.number ≡ number) × (result.outbox ≡ C.outbox_of carrier) }
    {
        Recipient { number, carrier }
    }

    pub fn number(&self) -> u64
        ensures { result ≡ self.now.number }
    {
        self.number
    }

    /// The number and the handle.
    pub(crate) fn into_parts(self) -> (u64, C)
        ensures { (result.0 ≡ self.number) × (C.outbox_of result.1 ≡ self.outbox) }
    {
        let Self { number, carrier } = self;
        (number, carrier)
    }
}
