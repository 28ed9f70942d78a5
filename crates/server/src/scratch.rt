// What the connections of a worker use in turn.

use crate::socket_probe::SocketProbe;
use sessions::RouteLists;
use std::alloc::Global;
use std::io;
use std::net::Net;

/// How many bytes one read asks for.
const BLOCK: usize = 65536;

/// What the connections of a worker use in turn: the block into which they read, and what helps to treat what came.
#[derive(Drop)]
pub(crate) struct Scratch {
    pub(crate) block: Vec<u8>,
    pub(crate) aids: Aids,
}

/// The lists of what is broadcast, and a look at the sockets of others.
#[derive(Drop)]
pub(crate) struct Aids {
    pub(crate) lists: RouteLists,
    pub(crate) probe: SocketProbe,
}

impl Scratch {
    pub(crate) fn new<R: Net>(rt: &R, alloc: Global) -> io::Result<Scratch> {
        Ok(Scratch {
            block: vec![in alloc; 0; BLOCK]?,
            aids: Aids {
                lists: RouteLists::new(),
                probe: SocketProbe::new(rt, alloc)?,
            },
        })
    }
}
