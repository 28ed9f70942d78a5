// The endpoints of a bus, and the clients that wait there.

use crate::endpoint::Endpoint;
use crate::note::Note;
use crate::notes::Notes;
use crate::spare_descriptor::SpareDescriptor;
use endpoints::{Link, is_of_descriptors};
use mio::unix::SourceFd;
use mio::{Interest, Poll, Token};
use std::alloc::Global;
use std::fs::{File, Files};
use std::io;
use std::io::ErrorKind;
use std::sync::Wait;

/// The token of the first endpoint in the poll of the worker that accepts. Those of the others are lower, one after the
/// other, and the keys of connections are lower still.
const FIRST: usize = usize::MAX - 2;

/// An endpoint, and whether clients may wait there.
#[derive(Drop)]
struct Backlog<'a> {
    endpoint: &'a Endpoint,
    has_clients: bool,
}

/// All endpoints of a bus, which take turns.
#[derive(Drop)]
pub(crate) struct Acceptor<'a> {
    backlogs: Vec<Backlog<'a>>,
    // Whose turn it is.
    turn: usize,
    spare: SpareDescriptor,
    // How many connections are still accepted, if there is an end.
    left: Option<u64>,
    // One that was accepted, until there is a place for it.
    next: Option<(Link, &'a Endpoint)>,
}

impl<'a> Acceptor<'a> {
    /// The endpoints, of which the poll tells from now on, until as many connections are accepted as are asked for.
    pub(crate) fn new<R: Files<File = File>>(
        rt: &R,
        alloc: Global,
        poll: &Poll,
        endpoints: &'a [Endpoint],
        count: Option<u64>,
    ) -> io::Result<Acceptor<'a>> {
        let mut backlogs = Vec::with_capacity(alloc, endpoints.len())?;
        for (i, endpoint) in endpoints.iter().enumerate() {
            endpoint.set_nonblocking()?;
            let descriptor = endpoint.descriptor();
            let mut source = SourceFd(&descriptor);
            let token = Token(FIRST.saturating_sub(i));
            poll.registry()
                .register(&mut source, token, Interest::READABLE)?;
            backlogs.push(Backlog {
                endpoint,
                has_clients: false,
            })?;
        }
        Ok(Acceptor {
            backlogs,
            turn: 0,
            spare: SpareDescriptor::new(rt),
            left: count,
            next: None,
        })
    }

    /// Whether an accept may have to wait, for a lock on the file of a keyring that somebody left.
    pub(crate) fn may_wait(&self) -> bool {
        self.backlogs
            .iter()
            .any(|backlog| backlog.endpoint.mechanisms.keyring.is_some())
    }

    /// Notes that the poll told of an endpoint. Answers false where the token is of none.
    pub(crate) fn note(&mut self, token: Token) -> bool {
        let Some(i) = FIRST.checked_sub(token.0) else {
            return false;
        };
        match self.backlogs.get_mut(i) {
            Some(backlog) => {
                backlog.has_clients = true;
                true
            }
            None => false,
        }
    }

    /// Whether clients wait for a place, or may wait at an endpoint.
    pub(crate) fn has_clients(&self) -> bool {
        self.next.is_some() || self.backlogs.iter().any(|backlog| backlog.has_clients)
    }

    /// Whether as many connections were taken as were asked for.
    pub(crate) fn is_done(&self) -> bool {
        self.left == Some(0) && self.next.is_none()
    }

    /// Accepts the next connection, if none waits for a place yet. Answers whether one does.
    pub(crate) fn has_next<W: Files<File = File> + Wait>(&mut self, rt: &W, notes: &Notes) -> bool {
        if self.next.is_none() && self.left != Some(0) {
            self.next = self.accept(rt, notes);
        }
        self.next.is_some()
    }

    /// Gives out the connection that waits for a place, and the endpoint by which it came.
    pub(crate) fn take_next(&mut self) -> Option<(Link, &'a Endpoint)> {
        self.next.take()
    }

    fn accept<W: Files<File = File> + Wait>(
        &mut self,
        rt: &W,
        notes: &Notes,
    ) -> Option<(Link, &'a Endpoint)> {
        for _ in 0..self.backlogs.len() {
            if let Some(accepted) = self.accept_in_turn(rt, notes) {
                self.left = self.left.map(|left| left.saturating_sub(1));
                return Some(accepted);
            }
        }
        None
    }

    /// The next connection at the endpoint whose turn it is, if there is one.
    fn accept_in_turn<W: Files<File = File> + Wait>(
        &mut self,
        rt: &W,
        notes: &Notes,
    ) -> Option<(Link, &'a Endpoint)> {
        self.turn = self.turn.checked_add(1).unwrap_or(0);
        if self.turn >= self.backlogs.len() {
            self.turn = 0;
        }
        let backlog = self.backlogs.get_mut(self.turn)?;
        if !backlog.has_clients {
            return None;
        }
        let link = backlog.accept(rt, notes, &mut self.spare)?;
        Some((link, backlog.endpoint))
    }
}

impl<'a> Backlog<'a> {
    /// The next connection, if there is one. A connection for which no descriptor is left is closed.
    fn accept<W: Files<File = File> + Wait>(
        &mut self,
        rt: &W,
        notes: &Notes,
        spare: &mut SpareDescriptor,
    ) -> Option<Link> {
        match self.endpoint.listener.accept() {
            Ok(link) => {
                spare.note(false);
                Some(link)
            }
            Err(error) if is_of_descriptors(&error) => self.accept_by_spare(rt, notes, spare),
            Err(error) => {
                self.note_failure(&error);
                None
            }
        }
    }

    fn accept_by_spare<W: Files<File = File> + Wait>(
        &mut self,
        rt: &W,
        notes: &Notes,
        spare: &mut SpareDescriptor,
    ) -> Option<Link> {
        match spare.accept(rt, &self.endpoint.listener) {
            Ok(Some(link)) => Some(link),
            Ok(None) => {
                if spare.note(true) {
                    notes.leave(rt, Note::NoDescriptor);
                }
                None
            }
            Err(error) => {
                self.note_failure(&error);
                None
            }
        }
    }

    /// Nobody waits at the endpoint, or the accept is tried again in a while: a connection that was reset in the queue is gone.
    fn note_failure(&mut self, error: &io::Error) {
        if error.kind() == ErrorKind::WouldBlock {
            self.has_clients = false;
        }
    }
}
