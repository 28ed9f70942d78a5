// What a session's outbox holds, written to its client.

use outbox::{Outbox, ROOM, Taker};
use std::alloc::AllocError;
use std::io::Write;
use std::sync::Wait;

/// Takes what stands in an outbox, and writes it. After a fault nothing more is written, and the outbox is emptied all
/// the same.
#[derive(Drop)]
pub(crate) struct Writing<O: Write + Drop> {
    taker: Taker,
    writer: O,
    is_broken: bool,
}

impl<O: Write + Drop> Writing<O> {
    pub(crate) fn new(outbox: &Outbox, writer: O) -> Result<Writing<O>, AllocError> {
        Ok(Writing {
            taker: Taker::new(outbox)?,
            writer,
            is_broken: false,
        })
    }

    /// Whether the writer failed.
    pub(crate) fn is_broken(&self) -> bool {
        self.is_broken
    }

    /// Writes all that stands in the outbox.
    pub(crate) fn write_out<W: Wait>(&mut self, rt: &W) {
        if !self.write_next(rt) {
            return;
        }
        for _ in 1..ROOM {
            if !self.write_next(rt) {
                break;
            }
        }
        if !self.is_broken && self.writer.flush().is_err() {
            self.is_broken = true;
        }
    }

    // Writes one message. Answers whether there was one.
    fn write_next<W: Wait>(&mut self, rt: &W) -> bool {
        let Some(delivery) = self.taker.take(rt) else {
            return false;
        };
        if !self.is_broken && self.writer.write_all(delivery.bytes().as_slice()).is_err() {
            self.is_broken = true;
        }
        true
    }
}
