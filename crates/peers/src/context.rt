// What a session's calls work with.

ghost use Rattle.std.specs.Prelude.{◌≡◌};
ghost use Rattle.peers.specs.Passing.{left_to_drop};

use crate::shares::Shares;
use bus_messages::Bytes;
use router::{Bus, BusBrand, Control, Mailbox, Pass};
use std::alloc::Global;
use std::sync::Wait;

/// The bus, with the runtime and the allocator of one call, and what one client may have of it.
#[derive(Drop)]
pub struct Context<'a, B: BusBrand, M: Mailbox, W: Wait, R: Wait + Drop> {
    pub rt: &'a W,
    pub alloc: Global,
    pub bus: &'a Bus<B, M, R>,
    pub shares: Shares,
    /// What lies under the lock of the bus, if the caller holds it.
    pub control: Option<&'a Control<B, M, R>>,
}

impl<'a, B: BusBrand, M: Mailbox, W: Wait, R: Wait + Drop> Context<'a, B, M, W, R> {
    /// What calls work with that take nothing of the bus, or may take all of it.
    pub fn unlimited(rt: &'a W, alloc: Global, bus: &'a Bus<B, M, R>) -> Context<'a, B, M, W, R> {
        Context {
            rt,
            alloc,
            bus,
            shares: Shares::unlimited(),
            control: None,
        }
    }

    /// The same by who holds the lock of the bus.
    pub(crate) fn under<'b>(&'b self, control: &'b Control<B, M, R>) -> Context<'b, B, M, W, R>
        ensures { result.shares ≡ self.now.shares }
    {
        Context {
            rt: self.rt,
            alloc: self.alloc,
            bus: self.bus,
            shares: self.shares,
            control: Some(control),
        }
    }

    /// Shows a message to those who watch the bus, before it goes on. The number is that of its sender's connection; `None` is
    /// the bus.
    pub(crate) fn show(&self, number: Option<u64>, bytes: &Bytes) {
        match self.control {
            Some(control) => self
                .bus
                .show_under(self.rt, self.alloc, control, number, bytes),
            None => self.bus.show(self.rt, self.alloc, number, bytes),
        }
    }

    /// Gives a pass back to the bus, which keeps its reader, if it has one. A pass whose connection the bus couldn't close, since
    /// the bus has ended, is left to the caller.
    pub fn give_back(&self, pass: Pass<B, M>) -> Option<Pass<B, M>>
        ensures { result ≡ left_to_drop pass }
    {
        if pass.is_closed() || pass.connection() == 0 {
            self.bus.take_back(self.rt, pass);
            return None;
        }
        Some(pass)
    }
}
