// Who owns which names.

ghost use Rattle.std.specs.Prelude.{◌≡◌, ◌<◌, IfSome, length, map};
ghost use Rattle.std.specs.List.{list_any};
ghost use Rattle.watch_command.specs.Owners.{is_ownership};
ghost use Rattle.watch_command.specs.KnownOwners.{pair_of};

use message_view::{Kind, View};
use std::alloc::{AllocError, Global};
use std::marker::Model;

/// The name of a bus itself.
pub(crate) const BUS_NAME: &str = "org.freedesktop.DBus";

/// A name and its owner's unique name.
#[derive(Drop)]
struct Ownership {
    name: String,
    owner: String,
}

/// Who owns which names, as far as a bus has told.
#[derive(Drop)]
pub(crate) struct Owners {
    ownerships: Vec<Ownership>,
}

impl Model for Owners {
    ghost use Rattle.std.specs.Prelude.{map};
    ghost use Rattle.watch_command.specs.Owners.{Ownerships};
    ghost use Rattle.watch_command.specs.KnownOwners.{pair_of};

    ghost Value = { Ownerships };

    ghost view = { λ o. map pair_of o.ownerships.items };
}

/// A change that a bus tells of: a name, and the unique name of its new owner, or nothing.
#[derive(Clone, Copy)]
pub(crate) struct Change<'a> {
    pub(crate) name: &'a str,
    pub(crate) owner: &'a str,
}

impl<'a> Change<'a> {
    /// The change that a message tells of, if it is the bus's NameOwnerChanged (D-Bus Specification, "Message Bus
    /// Messages").
    pub(crate) fn of(view: &View<'a>) -> Option<Change<'a>> {
        if view.kind() != Kind::Signal
            || view.sender() != Some(BUS_NAME)
            || view.member() != Some("NameOwnerChanged")
        {
            return None;
        }
        let mut arguments = view.args();
        let name = arguments.next()?.text?;
        arguments.next()?;
        let owner = arguments.next()?.text?;
        Some(Change { name, owner })
    }
}

/// Whether an owner's name is among some names with their owners.
fn is_among(ownerships: &[Ownership], owner: &str, name: &str) -> bool
    ensures { result ≡ list_any (is_ownership owner.now name.now) (map pair_of ownerships.now) }
{
    for ownership in ownerships {
        if ownership.owner.as_str() == owner && ownership.name.as_str() == name {
            return true;
        }
    }
    false
}

/// The place of a name, which has one owner at most.
fn place_of(ownerships: &[Ownership], name: &str) -> Option<usize>
    ensures { IfSome result (λ place. place < length ownerships.now) }
{
    for (place, ownership) in ownerships.iter().enumerate() {
        if ownership.name.as_str() == name {
            return Some(place);
        }
    }
    None
}

impl Owners {
    ghost use Rattle.std.specs.Prelude.{◌≡◌, [], Some};
    ghost use Rattle.watch_command.specs.Owners.{owns};

    /// Nobody owns anything. It takes no memory.
    pub(crate) fn new(alloc: Global) -> Owners
        ensures { result ≡ [] }
    {
        Owners {
            ownerships: Vec::new(alloc),
        }
    }

    /// From now on the name has this owner, or none where the owner is an empty text.
    pub(crate) fn put(&mut self, alloc: Global, name: &str, owner: &str) -> Result<(), AllocError> {
        if let Some(place) = place_of(&self.ownerships, name) {
            self.ownerships.remove(place);
        }
        if !owner.is_empty() {
            let name = String::from_str(alloc, name)?;
            let owner = String::from_str(alloc, owner)?;
            self.ownerships.push(Ownership { name, owner })?;
        }
        Ok(())
    }

    /// Whether a connection of this unique name owns a name.
    pub(crate) fn owns(&self, owner: &str, name: &str) -> bool
        ensures { result ≡ owns self.now (Some owner.now) name.now }
    {
        is_among(&self.ownerships, owner, name)
    }

    /// The names of an owner with commas between them, or its own name where it has none.
    pub(crate) fn names_of(&self, alloc: Global, owner: &str) -> Result<String, AllocError> {
        let mut names = String::new(alloc);
        for ownership in &self.ownerships {
            if ownership.owner.as_str() == owner {
                if !names.is_empty() {
                    names.push_str(",")?;
                }
                names.push_str(ownership.name.as_str())?;
            }
        }
        if names.is_empty() {
            names.push_str(owner)?;
        }
        Ok(names)
    }
}
