// A worker as other threads see it.

use auth::Admission;
use endpoints::Link;
use mio::unix::SourceFd;
use mio::{Interest, Poll, Registry, Token, Waker};
use std::alloc::Global;
use std::sync::atomic::{AtomicBool, Ordering};
use std::sync::{Mutex, Wait};
use std::{io, mem};

/// The token of the waker. The keys of connections are all lower.
pub const BELL: Token = Token(usize::MAX);

/// A connection that was accepted, and what its talk admits.
#[derive(Drop)]
pub struct Arrival {
    pub link: Link,
    pub admission: Admission,
}

/// The poll of a worker as other threads see it: they hand connections in, and change what it waits for.
#[derive(Drop)]
pub struct WorkerHandle {
    registry: Registry,
    waker: Waker,
    arrivals: Mutex<Vec<Arrival>>,
    // No further connections are handed in.
    is_finished: AtomicBool,
}

impl WorkerHandle {
    pub fn new(alloc: Global, poll: &Poll) -> io::Result<WorkerHandle> {
        Ok(WorkerHandle {
            registry: poll.registry().try_clone()?,
            waker: Waker::new(poll.registry(), BELL)?,
            arrivals: Mutex::new(Vec::new(alloc)),
            is_finished: AtomicBool::new(false),
        })
    }

    /// Has the worker serve a connection.
    pub fn hand_in<R: Wait>(&self, rt: &R, arrival: Arrival) -> io::Result<()> {
        self.arrivals.lock(rt).push(arrival)?;
        self.waker.wake()
    }

    /// The connections that were handed in since the last call.
    pub fn take_arrivals<R: Wait>(&self, rt: &R, alloc: Global) -> Vec<Arrival> {
        mem::replace(&mut *self.arrivals.lock(rt), Vec::new(alloc))
    }

    /// The worker ends once its connections have ended.
    pub fn finish(&self) {
        self.is_finished.store(true, Ordering::SeqCst);
        let _ = self.waker.wake();
    }

    pub fn is_finished(&self) -> bool {
        self.is_finished.load(Ordering::SeqCst)
    }

    /// Has the worker told when there is something to read.
    pub fn register(&self, link: &Link, token: Token) -> io::Result<()> {
        let descriptor = link.descriptor();
        self.registry
            .register(&mut SourceFd(&descriptor), token, Interest::READABLE)
    }

    /// Has the worker told of room to write as well, or no longer. The poll tells of changes only, and of room that is
    /// there when it is asked, so it is asked anew each time the socket was full. It isn't asked for good, since on a
    /// Unix socket each read of the other side would wake the worker.
    pub fn ask_for_room(&self, link: &Link, token: Token, wanted: bool) -> io::Result<()> {
        let interest = if wanted {
            Interest::READABLE | Interest::WRITABLE
        } else {
            Interest::READABLE
        };
        let descriptor = link.descriptor();
        self.registry
            .reregister(&mut SourceFd(&descriptor), token, interest)
    }
}
