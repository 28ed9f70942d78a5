// What a worker works with.

use crate::acceptor::Acceptor;
use crate::endpoint::Endpoint;
use crate::input::watch_input;
use crate::scratch::Scratch;
use members::WorkerHandle;
use mio::{Events, Poll};
use std::alloc::{AllocError, Global};
use std::fs::{File, Files};
use std::io;
use std::net::Net;
use std::sync::Arc;

/// How many events one look at the poll gives.
pub(crate) const EVENTS: usize = 256;

/// What a worker works with, made before its thread is started.
#[derive(Drop)]
pub(crate) struct WorkerSetup {
    pub(crate) poll: Poll,
    pub(crate) events: Events,
    pub(crate) handle: Arc<WorkerHandle>,
    pub(crate) scratch: Scratch,
}

impl WorkerSetup {
    pub(crate) fn new<R: Net>(
        rt: &R,
        alloc: Global,
        until_closed: bool,
    ) -> io::Result<WorkerSetup> {
        let poll = Poll::new(rt)?;
        if until_closed {
            watch_input(&poll)?;
        }
        let events = Events::with_capacity(alloc, EVENTS)?;
        let handle = Arc::new(alloc, WorkerHandle::new(alloc, &poll)?)?;
        let scratch = Scratch::new(rt, alloc)?;
        Ok(WorkerSetup {
            poll,
            events,
            handle,
            scratch,
        })
    }

    /// What accepts at these endpoints, for the worker at this setup, until as many connections have come as are asked for.
    pub(crate) fn acceptor<'a, R: Files<File = File>>(
        &self,
        rt: &R,
        alloc: Global,
        endpoints: &'a [Endpoint],
        count: Option<u64>,
    ) -> io::Result<Acceptor<'a>> {
        Acceptor::new(rt, alloc, &self.poll, endpoints, count)
    }

    /// The worker as others see it.
    pub(crate) fn handle(&self) -> Result<Arc<WorkerHandle>, AllocError> {
        Arc::try_clone(&self.handle)
    }
}
