// A place at which a bus is found.

use crate::mechanisms::Mechanisms;
use endpoints::Listener;
use std::io;
use std::os::fd::{AsRawFd, RawFd};

/// A listener, and whom it lets in.
#[derive(Drop)]
pub struct Endpoint {
    pub listener: Listener,
    pub mechanisms: Mechanisms,
}

impl Endpoint {
    /// From now on an accept that would wait answers `WouldBlock`.
    pub(crate) fn set_nonblocking(&self) -> io::Result<()> {
        match &self.listener {
            Listener::Tcp(listener) => listener.set_nonblocking(true),
            Listener::Unix(listener, _) => listener.set_nonblocking(true),
        }
    }

    /// The descriptor, by which a poll knows the listener.
    pub(crate) fn descriptor(&self) -> RawFd {
        match &self.listener {
            Listener::Tcp(listener) => listener.as_raw_fd(),
            Listener::Unix(listener, _) => listener.as_raw_fd(),
        }
    }
}
