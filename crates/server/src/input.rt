// Standard input, by whose end a bus may be told to end.

use mio::unix::SourceFd;
use mio::{Interest, Poll, Token};
use std::io;
use std::net::Net;
use std::os::fd::RawFd;

/// The token of standard input in each poll. Those of endpoints and connections are lower, and the waker's is higher.
pub(crate) const INPUT: Token = Token(usize::MAX - 1);

const DESCRIPTOR: RawFd = 0;

/// Whether a bus can be told to end by standard input: polls watch pipes, sockets and terminals, and no files.
pub fn can_watch_input<R: Net>(rt: &R) -> bool {
    match Poll::new(rt) {
        Ok(poll) => watch_input(&poll).is_ok(),
        Err(_) => false,
    }
}

/// Has a poll tell of the end of standard input, and of bytes there, which nobody reads.
pub(crate) fn watch_input(poll: &Poll) -> io::Result<()> {
    let descriptor = DESCRIPTOR;
    poll.registry()
        .register(&mut SourceFd(&descriptor), INPUT, Interest::READABLE)
}
