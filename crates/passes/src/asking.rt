// What is asked about names under the lock of the bus, so that it is told what is published.

ghost use Rattle.std.specs.Prelude.{◌≡◌, ℕ, IfOk, MatchOption};
ghost use Rattle.owners.specs.Queues.{owner_of, queue_of};
ghost use Rattle.program_table.specs.Connections.{is_connected, numbers_of};
ghost use Rattle.program_table.specs.History.{after};
ghost use Rattle.passes.specs.NameOwners.{IsOwner};
ghost use Rattle.passes.specs.Names.{AreNames};

use crate::control::Control;
use crate::names::{is_there, names_in, numbers_in, owner_in};
use arrayvec::ArrayVec;
use fan_out::MAX_RECIPIENTS;
use owners::WellKnown;
use published::BusBrand;
use routing::Mailbox;
use std::alloc::{AllocError, Global};
use std::sync::Wait;

impl<B: BusBrand, M: Mailbox, R: Wait + Drop> Control<B, M, R> {
    /// Whether there is a connection of this number.
    pub fn is_connected(&self, number: u64) -> bool
        ensures { result ≡ is_connected number (after self.now.history).connections }
    {
        is_there(self.state(), number)
    }

    /// The numbers of the connections, rising.
    pub fn numbers(&self) -> ArrayVec<u64, MAX_RECIPIENTS>
        ensures { result.items ≡ numbers_of (after self.now.history).connections }
    {
        numbers_in(self.state())
    }

    /// The connection that owns a name, which is unique or well-known.
    pub fn owner_of(&self, name: &str) -> Option<u64>
        ensures { MatchOption result ((n : ℕ) → IsOwner (after self.now.history) name.now n → ⊥) (λ n. IsOwner (after self.now.history) name.now n) }
    {
        owner_in(self.state(), name)
    }

    /// The primary owner of a well-known name.
    pub fn primary_owner(&self, name: &WellKnown) -> Option<u64>
        ensures { result ≡ owner_of name.now (after self.now.history).registrations.claims }
    {
        self.state().owner_of(name.as_str())
    }

    /// The connections that own a well-known name or wait for it, in order, the primary owner first.
    pub fn queued_owners(&self, alloc: Global, name: &WellKnown) -> Result<Vec<u64>, AllocError>
        ensures { IfOk result (λ queue. queue.items ≡ queue_of name.now (after self.now.history).registrations.claims) }
    {
        self.state().queue_of(name.as_str()).collect(alloc)
    }

    /// The owned well-known names in the order of bytes.
    pub fn names(&self, alloc: Global) -> Result<Vec<WellKnown>, AllocError>
        ensures { IfOk result (λ names. AreNames (after self.now.history).registrations.claims names.items) }
    {
        names_in(self.state(), alloc)
    }
}
