// A connection as all threads see it.

ghost use Rattle.std.specs.Prelude.{◌≡◌, IfOk};
ghost use Rattle.std.specs.Arc.{arc_value};

use crate::worker_handle::WorkerHandle;
use crate::writer::Writer;
use endpoints::Link;
use mio::Token;
use outbox::{Outbox, Room, Turn};
use program_table::Handle;
use routing::Mailbox;
use sole_writer::SoleWriter;
use std::alloc::{AllocError, Global};
use std::marker::Model;
use std::sync::{Arc, Wait};

/// A connection's outbox, and the one that writes to its socket.
#[derive(Drop)]
struct OutboxAndWriter {
    outbox: Outbox,
    writer: SoleWriter<Writer>,
}

/// A handle on a connection, by which the bus puts messages into its outbox and writes them out. Contracts see it as
/// the outbox.
#[derive(Drop)]
pub struct SocketMailbox {
    shared: Arc<OutboxAndWriter>,
}

impl Model for SocketMailbox {
    ghost use Rattle.std.specs.Arc.{arc_value};
    ghost use Rattle.outbox.specs.Seated.{OutboxId};

    ghost Value = { OutboxId };

    ghost view = { λ m. (arc_value m.shared).outbox };
}

impl SocketMailbox {
    /// The mailbox of a connection, in whose outbox this much may wait, and the outbox's turn.
    pub fn new(
        alloc: Global,
        link: Arc<Link>,
        worker: Arc<WorkerHandle>,
        token: Token,
        room: Room,
    ) -> Result<(SocketMailbox, Turn), AllocError>
        ensures { IfOk result (λ r. (r.1.queue ≡ r.0.queue) × (r.1.last ≡ 0)) }
    {
        let (outbox, turn) = Outbox::with_turn(alloc, room)?;
        let writer = Writer::new(alloc, &outbox, link, worker, token)?;
        let writer = SoleWriter::new(writer);
        let shared = Arc::new(alloc, OutboxAndWriter { outbox, writer })?;
        Ok((SocketMailbox { shared }, turn))
    }

    /// The poll told the connection's worker of room.
    pub fn has_room<R: Wait>(&self, rt: &R) {
        self.shared.writer.has_room(rt);
    }

    /// The connection ends: what the socket still takes is written, and then it is closed.
    pub fn end<R: Wait>(&self, rt: &R) {
        self.shared.writer.end(rt);
    }
}

impl Handle for SocketMailbox {
    fn share(&self) -> Result<SocketMailbox, AllocError> {
        let shared = Arc::try_clone(&self.shared)?;
        Ok(SocketMailbox { shared })
    }
}

impl Mailbox for SocketMailbox {
    ghost outbox_of = { λ mailbox. mailbox };

    fn outbox(&self) -> &Outbox {
        &self.shared.outbox
    }

    /// Writes out what stands in the outbox, as far as it is released and the socket takes it now. If another thread is
    /// writing, that one looks again. The socket of an outbox that is shut is shut down, which wakes the connection's worker.
    fn push_out<R: Wait>(&self, rt: &R) {
        self.shared.writer.push_out(rt);
    }
}
