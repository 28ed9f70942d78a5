// A look at one socket.

use endpoints::Link;
use mio::unix::SourceFd;
use mio::{Events, Interest, Poll, Token};
use std::alloc::Global;
use std::io;
use std::net::Net;
use std::time::Duration;

/// The only token of its poll.
const SEEN: Token = Token(0);

/// A look at one socket, whose worker may be another and may not have been told yet.
#[derive(Drop)]
pub(crate) struct SocketProbe {
    poll: Poll,
    events: Events,
}

impl SocketProbe {
    pub(crate) fn new<R: Net>(rt: &R, alloc: Global) -> io::Result<SocketProbe> {
        Ok(SocketProbe {
            poll: Poll::new(rt)?,
            events: Events::with_capacity(alloc, 1)?,
        })
    }

    /// Whether the client at the other end has closed the socket, or the socket was shut. False where that can't be seen.
    ///
    /// An empty write tells it of a Unix socket in one call of the system, where a look at the poll takes three. A TCP socket
    /// can still be written to.
    pub(crate) fn sees_end(&mut self, link: &Link) -> bool {
        match link {
            Link::Unix(_) => link.send(&[]).is_err(),
            Link::Tcp(_) => self.poll_end(link),
        }
    }

    fn poll_end(&mut self, link: &Link) -> bool {
        let descriptor = link.descriptor();
        let mut source = SourceFd(&descriptor);
        let interest = Interest::READABLE;
        if self
            .poll
            .registry()
            .register(&mut source, SEEN, interest)
            .is_err()
        {
            return false;
        }
        let polled = self
            .poll
            .poll(&mut self.events, Some(Duration::from_millis(0)));
        let _ = self.poll.registry().deregister(&mut source);
        polled.is_ok()
            && self
                .events
                .iter()
                .any(|event| event.is_read_closed() || event.is_error())
    }
}
