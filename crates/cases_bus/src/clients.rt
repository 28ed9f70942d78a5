// The clients of a case.

use crate::client::Client;
use crate::client_line::{Action, ClientLine, Who};
use crate::place::{GUID, Place};
use crate::served::Served;
use case_files::LineError;
use crossbeam_utils::rule::Protocol;
use sessions::{BusBrand, Command, Identity, PlainMailbox, Published, Shown};
use std::alloc::Global;
use std::collections::LinkedList;
use std::sync::Wait;

/// The clients of a case, in the order of their first lines, and the served one; and what the bus says of itself to those
/// that come.
#[derive(Drop)]
pub(crate) struct Clients<B: BusBrand>
where
    Published: Protocol<Shown<B, PlainMailbox>, LinkedList<Command<PlainMailbox>>>,
{
    clients: Vec<Client<B>>,
    served: Served,
    identity: Identity,
}

impl<B: BusBrand> Clients<B> {
    pub(crate) fn new(alloc: Global) -> Clients<B> {
        Clients {
            clients: Vec::new(alloc),
            served: Served::new(alloc),
            identity: Identity {
                guid: GUID,
                machine_id: None,
                user: None,
            },
        }
    }

    /// Plays a line: what came, where it isn't what the line wants.
    pub(crate) fn play<R: Wait>(
        &mut self,
        place: &Place<'_, '_, B, R>,
        words: &str,
    ) -> Result<Option<String>, LineError> {
        let Ok(line) = ClientLine::read(place.alloc, words) else {
            return unreadable(place.alloc);
        };
        match line.who {
            Who::Bus => self.describe(place, line.action),
            Who::Served => self.served.act(place, line.action),
            Who::Client(number) => self.act(place, number, line.action),
        }
    }

    /// Sets what the bus says of itself to the clients that come from here on, and how much there may be on it.
    fn describe<R: Wait>(
        &mut self,
        place: &Place<'_, '_, B, R>,
        action: Action<'_>,
    ) -> Result<Option<String>, LineError> {
        match action {
            Action::Machine(id) => self.identity.machine_id = Some(id),
            Action::User(number) => self.identity.user = Some(number),
            Action::Limit(most) => {
                if place.bus.control(place.rt).limit(most).is_err() {
                    return Err(LineError::NoMemory);
                }
            }
            _ => return unreadable(place.alloc),
        }
        Ok(None)
    }

    fn act<R: Wait>(
        &mut self,
        place: &Place<'_, '_, B, R>,
        number: usize,
        action: Action<'_>,
    ) -> Result<Option<String>, LineError> {
        let index = number.wrapping_sub(1);
        if index == self.clients.len() {
            self.clients.push(Client::new(place.alloc, self.identity)?)?;
        }
        match self.clients.get_mut(index) {
            Some(client) => client.act(place, action),
            None => unreadable(place.alloc),
        }
    }

    /// What clients got that no line looked at.
    pub(crate) fn unread<R: Wait>(
        &mut self,
        place: &Place<'_, '_, B, R>,
    ) -> Result<Option<String>, LineError> {
        for client in self.clients.iter_mut() {
            if let Some(came) = client.unread(place)? {
                return Ok(Some(came));
            }
        }
        self.served.unread(place.alloc)
    }
}

fn unreadable(alloc: Global) -> Result<Option<String>, LineError> {
    Ok(Some(String::from_str(alloc, "a line that can't be read")?))
}
