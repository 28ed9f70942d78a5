// Clients that have said Hello.

use endpoints::Link;
use std::alloc::Global;
use std::collections::BTreeMap;
use std::io;
use std::sync::{Arc, Mutex, Wait};

/// The sockets of the clients whose Hello was answered, and whose sessions haven't ended, as all workers see them, by the numbers
/// of their connections.
#[derive(Drop)]
pub(crate) struct Clients {
    links: Mutex<BTreeMap<u64, Arc<Link>>>,
}

impl Clients {
    pub(crate) fn new(alloc: Global) -> Clients {
        Clients {
            links: Mutex::new(BTreeMap::new(alloc)),
        }
    }

    /// Notes a client whose Hello was answered.
    pub(crate) fn enter<R: Wait>(&self, rt: &R, number: u64, link: Arc<Link>) -> io::Result<()> {
        self.links.lock(rt).insert(number, link)?;
        Ok(())
    }

    /// Forgets a client whose session has ended.
    pub(crate) fn leave<R: Wait>(&self, rt: &R, number: u64) {
        self.links.lock(rt).remove(&number);
    }

    /// The socket of a client whose session hasn't ended.
    pub(crate) fn link_of<R: Wait>(&self, rt: &R, number: u64) -> Option<Arc<Link>> {
        let links = self.links.lock(rt);
        Arc::try_clone(links.get(&number)?).ok()
    }
}
