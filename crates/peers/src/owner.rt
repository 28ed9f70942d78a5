// Who owns a name that a client asks about.

ghost use Rattle.std.specs.Prelude.{◌≡◌, MatchResult};
ghost use Rattle.router.specs.History.{after};
ghost use Rattle.peers.specs.Asked.{HasLooked, IsAsked, IsOwnerOf, owner_in};
ghost use Rattle.peers.specs.Passing.{HasSeenMore, with_pass};

use crate::identity::BUS_NAME;
use crate::peer::Peer;
use crate::refused::Refused;
use bus_messages::{ErrorName, UniqueName};
use owners::WellKnown;
use router::{BusBrand, Control, Mailbox};
use signature::check_bus_name;
use std::sync::Wait;

/// A name's owner. The bus owns its own name, and each connected unique name owns itself.
#[derive(Clone, Copy, Debug, PartialEq, Eq)]
pub(crate) enum Owner {
    Bus,
    Connection(u64),
}

/// A bus name, by who may own it.
#[derive(Drop)]
pub(crate) enum AskedName {
    Bus,
    /// A unique name, with the number of the connection that may have it.
    Unique(Option<u64>),
    WellKnown(WellKnown),
}

impl AskedName {
    /// The name that a text is, or `InvalidArgs` where it is none.
    pub(crate) fn read(text: &str) -> Result<AskedName, Refused>
        ensures { IsAsked text.now result }
    {
        if text == BUS_NAME {
            return Ok(AskedName::Bus);
        }
        if let Ok(name) = WellKnown::read(text) {
            return Ok(AskedName::WellKnown(name));
        }
        if check_bus_name(text) {
            return Ok(AskedName::Unique(UniqueName::number_of(text)));
        }
        Err(Refused::Error(ErrorName::InvalidArgs))
    }
}

impl<B: BusBrand, M: Mailbox> Peer<B, M> {
    /// The owner of the name that a text is, in what is published, which the pass has then seen; or why that can't be told.
    pub(crate) fn owner_named<R: Wait + Drop>(
        &mut self,
        control: &Control<B, M, R>,
        text: &str,
    ) -> Result<Option<Owner>, Refused>
        ensures owner { IsOwnerOf (after self.new.pass.seen) text.now result }
        ensures seen { MatchResult result (λ _. self.new.pass.seen ≡ control.now.history) (λ why. HasLooked why control.now.history self.new.pass) }
        ensures later { HasSeenMore self.old.pass self.new.pass }
        ensures same { self.new ≡ with_pass self.old self.new.pass }
    {
        control.tell(&mut self.pass)?;
        let name = AskedName::read(text)?;
        Ok(owner_of(control, &name))
    }
}

// The owner of a name in what is published.
fn owner_of<B: BusBrand, M: Mailbox, R: Wait + Drop>(
    control: &Control<B, M, R>,
    name: &AskedName,
) -> Option<Owner>
    ensures { result ≡ owner_in (after control.now.history) name.now }
{
    match name {
        AskedName::Bus => Some(Owner::Bus),
        AskedName::Unique(None) => None,
        AskedName::Unique(Some(number)) => {
            if control.is_connected(*number) {
                Some(Owner::Connection(*number))
            } else {
                None
            }
        }
        AskedName::WellKnown(name) => match control.primary_owner(name) {
            Some(number) => Some(Owner::Connection(number)),
            None => None,
        },
    }
}
