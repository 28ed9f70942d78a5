// Whom a call of the bus is about.

ghost use Rattle.std.specs.Prelude.{◌≡◌, ◌≢◌, IfSome};
ghost use Rattle.message_view.specs.Message.{Message};
ghost use Rattle.message_view.specs.Valid.{Valid};
ghost use Rattle.router.specs.History.{after};
ghost use Rattle.router.specs.NameOwners.{IsOwner};
ghost use Rattle.peers.specs.Passing.{HasSeenMore, with_pass};
ghost use Rattle.peers.specs.Subjects.{IsSubject};

use crate::dispatch::is_for_bus;
use crate::peer::Peer;
use match_rule::arg0_of;
use message_view::View;
use router::{BusBrand, Mailbox};

impl<B: BusBrand, M: Mailbox> Peer<B, M> {
    /// The connection that a call of the bus is about: another than the client's own, which owns the name that is the call's
    /// first argument, whatever its method is. `None` of any other message, and where the bus doesn't tell.
    pub fn subject_of(&mut self, view: &View<'_>) -> Option<u64>
        ensures subject { (m : Message) → Valid view.now m → IfSome result (λ number. IsSubject (after self.new.pass.seen) m self.old.pass.connection number) }
        ensures later { HasSeenMore self.old.pass self.new.pass }
        ensures same { self.new ≡ with_pass self.old self.new.pass }
    {
        if !is_for_bus(view) {
            return None;
        }
        self.other_owner_of(arg0_of(view)?)
    }

    /// The connection that owns a name, if it is another than the client's own. `None` if the bus doesn't tell.
    pub fn other_owner_of(&mut self, name: &str) -> Option<u64>
        ensures owner { IfSome result (λ number. (number ≢ self.old.pass.connection) × IsOwner (after self.new.pass.seen) name.now number) }
        ensures later { HasSeenMore self.old.pass self.new.pass }
        ensures same { self.new ≡ with_pass self.old self.new.pass }
    {
        let caller = self.connection();
        match self.pass.owner_of(name) {
            Ok(Some(number)) if number != caller => Some(number),
            _ => None,
        }
    }
}
