// Mailboxes that nothing writes out.

ghost use Rattle.std.specs.Prelude.{◌≡◌, IfOk};

use outbox::{Outbox, Room, Turn};
use program_table::Handle;
use routing::Mailbox;
use std::alloc::{AllocError, Global};
use std::sync::Wait;

/// A mailbox that is an outbox. What stands there waits until somebody takes it: nobody writes it out.
#[derive(Drop)]
pub struct PlainMailbox {
    outbox: Outbox,
}

impl PlainMailbox {
    /// A mailbox with an outbox of its own, and the outbox's turn.
    pub fn new(alloc: Global) -> Result<(PlainMailbox, Turn), AllocError>
        ensures { IfOk result (λ r. (r.1.queue ≡ r.0.outbox.queue) × (r.1.last ≡ 0)) }
    {
        let (outbox, turn) = Outbox::with_turn(alloc, Room::standard())?;
        Ok((PlainMailbox { outbox }, turn))
    }
}

impl Handle for PlainMailbox {
    fn share(&self) -> Result<PlainMailbox, AllocError> {
        Ok(PlainMailbox {
            outbox: self.outbox.share()?,
        })
    }
}

impl Mailbox for PlainMailbox {
    ghost outbox_of = { λ l. l.outbox };

    fn outbox(&self) -> &Outbox {
        &self.outbox
    }

    fn push_out<R: Wait>(&self, _rt: &R) {}
}
