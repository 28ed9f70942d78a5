// Messages of a pass that are given out together.

ghost use Rattle.std.specs.Prelude.{◌≡◌, None, IfOk};

use crate::pass::Pass;
use bytes::Bytes;
use outbox::Item;
use published::BusBrand;
use routing::Mailbox;
use std::alloc::{AllocError, Global};

impl<B: BusBrand, M: Mailbox> Pass<B, M> {
    /// Holds what is put from now on until `release`: no outbox gives it out before, so that nobody can answer one of
    /// these messages before all of them are put. A pass that isn't connected puts nothing.
    pub fn hold(&mut self, alloc: Global)
        ensures { self.new ≡ self.old }
    {
        if self.connection() == 0 {
            return;
        }
        let mut sender = self.take_sender(alloc);
        sender.hold();
        self.put_back(sender);
    }

    /// Releases all that was put, and holds nothing any more.
    pub fn release(&mut self)
        ensures { self.new ≡ self.old }
    {
        if let Some(sender) = &mut self.sender {
            sender.release();
        }
    }

    /// Gives up what was put since `hold`: no outbox ever gives it out. Each outbox into which the pass has put something since
    /// it last was written out is shut, since what stands there after it isn't given out either.
    pub fn withdraw(&mut self)
        ensures { self.new ≡ self.old }
    {
        if let Some(sender) = &mut self.sender {
            sender.withdraw();
        }
    }

    /// A message that isn't a broadcast, for a put at one outbox, held with what is put between `hold` and `release`.
    pub fn message(&mut self, alloc: Global, bytes: Bytes) -> Result<Item, AllocError>
        ensures ok { IfOk result (λ item. (item.bytes ≡ bytes) × (item.mark ≡ None) × (item.place ≡ None)) }
        ensures same { self.new ≡ self.old }
    {
        match &mut self.sender {
            Some(sender) => sender.message(alloc, bytes, None),
            None => Item::new(alloc, bytes, None),
        }
    }
}
