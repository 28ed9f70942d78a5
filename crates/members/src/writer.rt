// The one that takes from an outbox and writes to the connection's socket.

use crate::unsent::Unsent;
use crate::worker_handle::WorkerHandle;
use endpoints::Link;
use mio::Token;
use outbox::{Outbox, Taker};
use sole_writer::{Line, Stand};
use std::alloc::{AllocError, Global};
use std::io;
use std::io::ErrorKind;
use std::sync::{Arc, Wait};

/// How many writes one call makes at most, so that a thread doesn't go on writing what others put.
const WRITES: u32 = 64;

/// No more messages than this wait in any outbox.
const MOST_WAITING: u32 = 1 << 23;

/// The taker at an outbox, the bytes that it took and hasn't written, and the socket. What was written to the socket is a
/// beginning of what was taken.
#[derive(Drop)]
pub(crate) struct Writer {
    taker: Taker,
    unsent: Unsent,
    link: Arc<Link>,
    // The worker whose poll tells of room for the socket, and by which token.
    handle: Arc<WorkerHandle>,
    token: Token,
    asks_for_room: bool,
    // A write has failed, and nothing is written any more.
    has_failed: bool,
}

impl Writer {
    pub(crate) fn new(
        alloc: Global,
        outbox: &Outbox,
        link: Arc<Link>,
        handle: Arc<WorkerHandle>,
        token: Token,
    ) -> Result<Writer, AllocError> {
        Ok(Writer {
            taker: Taker::new(outbox)?,
            unsent: Unsent::new(alloc),
            link,
            handle,
            token,
            asks_for_room: false,
            has_failed: false,
        })
    }

    // Nothing is written from now on, and the outbox is emptied all the same.
    fn fail(&mut self) {
        self.has_failed = true;
        self.unsent.clear();
    }

    /// Takes messages as far as there is room for them. After a failure there is room for all: what waits in an outbox that a
    /// sender still has a seat at would take memory as long as that sender is there.
    fn fill<R: Wait>(&mut self, rt: &R) {
        for _ in 0..MOST_WAITING {
            if !self.unsent.is_open() {
                return;
            }
            let Some(delivery) = self.taker.take(rt) else {
                return;
            };
            if !self.has_failed {
                self.unsent.add(delivery);
            }
        }
    }

    /// One write. False where the socket has no room.
    fn write_once(&mut self) -> bool {
        match self.link.send(self.unsent.as_slice()) {
            Ok(0) => self.fail(),
            Ok(count) => self.unsent.advance(count),
            Err(error) => match error.kind() {
                ErrorKind::Interrupted => {}
                ErrorKind::WouldBlock => return false,
                _ => self.fail(),
            },
        }
        true
    }
}

impl Line for Writer {
    fn write_out<R: Wait>(&mut self, rt: &R) -> Stand {
        for _ in 0..WRITES {
            self.fill(rt);
            // What stands in the outbox may not be released yet: whoever does it writes it then.
            if self.unsent.is_empty() {
                return Stand::Drained;
            }
            if !self.write_once() {
                return Stand::Waiting;
            }
        }
        Stand::Waiting
    }

    fn is_shut(&mut self) -> bool {
        self.taker.is_shut()
    }

    fn give_up(&mut self) {
        self.fail();
        self.link.shut();
    }

    fn ask_for_room(&mut self, is_wanted: bool) -> io::Result<()> {
        if is_wanted || self.asks_for_room {
            self.handle.ask_for_room(&self.link, self.token, is_wanted)?;
            self.asks_for_room = is_wanted;
        }
        Ok(())
    }
}
