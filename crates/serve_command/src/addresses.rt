// The addresses at which a bus listens.

use endpoints::Address;

/// At how many addresses a bus may listen.
pub(crate) const MOST: usize = 16;

/// The addresses that words ask for, in their order.
#[derive(Clone, Copy)]
pub(crate) struct Addresses<'a> {
    items: [Option<Address<'a>>; MOST],
}

impl<'a> Addresses<'a> {
    pub(crate) fn none() -> Addresses<'a> {
        Addresses {
            items: [None; MOST],
        }
    }

    pub(crate) fn as_slice(&self) -> &[Option<Address<'a>>] {
        &self.items
    }

    /// Whether a socket of this address is asked for already. A new one is another each time.
    pub(crate) fn has(&self, address: Address<'_>) -> bool {
        self.items.iter().any(|item| item.is_some_and(|item| is_same_socket(item, address)))
    }

    /// The same and one more, if there is room.
    pub(crate) fn with(self, address: Address<'a>) -> Option<Addresses<'a>> {
        let mut items = self.items;
        for i in 0..MOST {
            if items[i].is_none() {
                items[i] = Some(address);
                return Some(Addresses { items });
            }
        }
        None
    }
}

/// Whether two addresses spell one socket.
fn is_same_socket(one: Address<'_>, other: Address<'_>) -> bool {
    match (one, other) {
        (Address::Tcp { port: 0, .. }, _) => false,
        (Address::Tcp { host, port }, Address::Tcp { host: h, port: p }) => host == h && port == p,
        (Address::Unix { path }, Address::Unix { path: p }) => path == p,
        (Address::Abstract { name }, Address::Abstract { name: n }) => name == n,
        (Address::Runtime, Address::Runtime) => true,
        _ => false,
    }
}
