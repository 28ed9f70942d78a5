// What a worker does.

use crate::accepting::first_served;
use crate::acceptor::Acceptor;
use crate::connection::{Connection, Turn, close};
use crate::input::INPUT;
use crate::limit::Limit;
use crate::note::{Cause, Note};
use crate::scratch::Scratch;
use crate::shared::Server;
use crate::worker_setup::{EVENTS, WorkerSetup};
use members::{Arrival, BELL, SocketMailbox, WorkerHandle};
use mio::{Events, Poll, Token};
use sessions::{BusBrand, StateReader};
use slab::Slab;
use std::alloc::Global;
use std::fs::{File, Files};
use std::random::RandomSource;
use std::sync::{Arc, Wait};
use std::time::{Clock, Duration, Instant};
use std::{io, mem, thread};

/// How many milliseconds lie between two looks at the connections that may become overdue.
const OVERDUE_CHECK: u64 = 500;

/// How many milliseconds a connection that is held waits for its next turn.
const HELD_PAUSE: u64 = 1;

/// How many milliseconds to wait where the poll fails.
const PAUSE: u64 = 50;

/// A worker, with its share of the connections.
#[derive(Drop)]
pub(crate) struct Worker<'a, B: BusBrand, R: Wait + Drop> {
    pub(crate) alloc: Global,
    pub(crate) server: &'a Server<B, R>,
    handle: Arc<WorkerHandle>,
    connections: Slab<Connection<B>>,
    scratch: Scratch,
    /// Where it accepts connections, if it is the one that does, until no more come.
    pub(crate) acceptor: Option<Acceptor<'a>>,
    /// Among whom it hands them out: itself, and then the others.
    pub(crate) handles: &'a [Arc<WorkerHandle>],
    /// The first of those who get any: another, where an accept may have to wait, for which nobody who is served should.
    pub(crate) first: usize,
    /// Whose turn it was.
    pub(crate) last: usize,
    // What it lends to the connection whose turn it is. One that ends gives it back to the bus, where the next is had.
    reader: Option<StateReader<B, SocketMailbox>>,
    // The keys of those that had more to read when their turn was over, or were held.
    again: Vec<usize>,
    /// One of them at least may go on at once, where the others wait for the end of somebody who has gone; or clients
    /// still wait at an endpoint.
    pub(crate) has_more_now: bool,
    // How many of its connections may become overdue.
    watched: u32,
    // When it last looked whether any of those is overdue.
    looked: Option<Instant>,
    // The bus ends: whoever still comes is closed.
    is_ending: bool,
}

/// Serves the connections that are handed over, until no more come and all have ended. The end of the input that is
/// watched ends them.
pub(crate) fn work<B: BusBrand, R: Wait + Drop, W: Wait + Clock>(
    rt: &W,
    alloc: Global,
    server: &Server<B, R>,
    setup: WorkerSetup,
) {
    let (mut worker, mut poll, mut events) = Worker::new(alloc, server, setup, None, &[]);
    for _ in rt.forever() {
        worker.serve(rt, &mut poll, &mut events);
        if worker.is_done(rt) {
            server.notes.finish(rt);
            return;
        }
    }
}

/// Serves as the first of the workers, which accepts connections, and hands them out among all, of whom it is the first.
pub(crate) fn accept_and_work<'a, B: BusBrand, R: Wait + Drop, W>(
    rt: &W,
    alloc: Global,
    server: &'a Server<B, R>,
    setup: WorkerSetup,
    acceptor: Acceptor<'a>,
    handles: &'a [Arc<WorkerHandle>],
)
where
    W: Files<File = File> + RandomSource + Wait + Clock,
{
    let (mut worker, mut poll, mut events) = Worker::new(
        alloc,
        server,
        setup,
        Some(acceptor),
        handles,
    );
    for _ in rt.forever() {
        worker.serve(rt, &mut poll, &mut events);
        worker.accept(rt);
        if worker.is_done(rt) {
            server.notes.finish(rt);
            return;
        }
    }
}

impl<'a, B: BusBrand, R: Wait + Drop> Worker<'a, B, R> {
    /// The worker at a setup, with what it waits at.
    fn new(
        alloc: Global,
        server: &'a Server<B, R>,
        setup: WorkerSetup,
        acceptor: Option<Acceptor<'a>>,
        handles: &'a [Arc<WorkerHandle>],
    ) -> (Worker<'a, B, R>, Poll, Events) {
        let WorkerSetup {
            poll,
            events,
            handle,
            scratch,
        } = setup;
        let worker = Worker {
            alloc,
            server,
            handle,
            connections: Slab::new(alloc),
            scratch,
            first: first_served(&acceptor),
            acceptor,
            handles,
            last: 0,
            reader: None,
            again: Vec::new(alloc),
            has_more_now: false,
            watched: 0,
            looked: None,
            is_ending: false,
        };
        (worker, poll, events)
    }

    /// Waits at the poll, and serves the connections of which it tells.
    fn serve<W: Wait + Clock>(&mut self, rt: &W, poll: &mut Poll, events: &mut Events) {
        if poll.poll(events, self.patience()).is_err() {
            thread::sleep(rt, Duration::from_millis(PAUSE));
            events.clear();
        }
        self.answer(rt, events);
        self.go_on(rt);
        self.end_overdue_ones(rt);
    }

    /// Does what the poll told of.
    fn answer<W: Wait + Clock>(&mut self, rt: &W, events: &Events) {
        for event in events.iter() {
            let has_ended = event.is_read_closed() || event.is_error();
            if event.token() == BELL {
                self.take_in(rt);
            } else if event.token() == INPUT {
                if has_ended {
                    self.stop_accepting();
                    self.end_all(rt);
                }
            } else if !self.is_of_endpoint(event.token()) {
                self.serve_connection(rt, event.token().0, event.is_writable(), has_ended);
            }
        }
    }

    /// Whether no more connections come, and all have ended.
    fn is_done<W: Wait + Clock>(&mut self, rt: &W) -> bool {
        if !self.handle.is_finished() {
            return false;
        }
        // A connection may have been handed over before the word that no more come.
        self.take_in(rt);
        self.connections.is_empty()
    }

    /// How long the poll may wait. An idle bus waits without a limit.
    fn patience(&self) -> Option<Duration> {
        if self.has_more_now {
            Some(Duration::from_millis(0))
        } else if !self.again.is_empty() || self.has_clients_waiting() {
            Some(Duration::from_millis(HELD_PAUSE))
        } else if self.watched > 0 {
            Some(Duration::from_millis(OVERDUE_CHECK))
        } else {
            None
        }
    }

    /// Takes in the connections that were handed over.
    fn take_in<W: Wait + Clock>(&mut self, rt: &W) {
        for arrival in self.handle.take_arrivals(rt, self.alloc) {
            self.take(rt, arrival);
        }
    }

    /// Takes in a connection, and gives it its first turn, since its client's first line has often come with it. Where memory
    /// runs out, or the bus ends, it is closed.
    pub(crate) fn take<W: Wait + Clock>(&mut self, rt: &W, arrival: Arrival) {
        self.server.retry_rests(rt, self.alloc);
        if self.is_ending {
            self.server.turn_away(rt, Cause::BusEnds);
            return;
        }
        match self.register(rt, arrival) {
            Ok(key) => self.serve_connection(rt, key, false, false),
            Err(_) => self.server.turn_away(rt, Cause::MEMORY),
        }
    }

    /// Answers the connection's key.
    fn register<W: Wait + Clock>(&mut self, rt: &W, arrival: Arrival) -> io::Result<usize> {
        self.connections.reserve(1)?;
        let key = self.connections.vacant_key();
        let handle = Arc::try_clone(&self.handle)?;
        let connection = Connection::new(rt, self.alloc, self.server, arrival, handle, Token(key))?;
        self.connections.insert_reserved(connection);
        self.recount(false, true);
        Ok(key)
    }

    /// Gives a connection its turn: it writes and reads as far as it goes, to the end where its client's bytes may have
    /// ended.
    fn serve_connection<W: Wait + Clock>(
        &mut self,
        rt: &W,
        key: usize,
        has_room: bool,
        has_ended: bool,
    ) {
        self.find_reader(rt);
        let Some(connection) = self.connections.get_mut(key) else {
            return;
        };
        if has_room {
            connection.mailbox.has_room(rt);
        }
        let was_watched = connection.is_watched();
        connection.lend(self.reader.take());
        let turn = connection.read(rt, self.alloc, self.server, &mut self.scratch, has_ended);
        self.reader = connection.session.reclaim();
        let is_watched = connection.is_watched();
        self.recount(was_watched, is_watched);
        match turn {
            Turn::Waits => {}
            Turn::Again => {
                self.has_more_now = true;
                self.call_again(rt, key);
            }
            Turn::Held => self.call_again(rt, key),
            Turn::Gone => self.end(rt, key, None),
            Turn::Ends(cause) => self.end(rt, key, Some(cause)),
        }
    }

    /// Has a reader to lend, if the last one went with a connection that ended.
    fn find_reader<W: Wait>(&mut self, rt: &W) {
        if self.reader.is_none() {
            self.reader = self.server.bus.reader(rt).ok();
        }
    }

    /// Has a connection get another turn.
    fn call_again<W: Wait>(&mut self, rt: &W, key: usize) {
        if self.again.push(key).is_err() {
            self.end(rt, key, Some(Cause::MEMORY));
        }
    }

    /// Gives another turn to those that had more to read, or were held.
    fn go_on<W: Wait + Clock>(&mut self, rt: &W) {
        self.has_more_now = false;
        for key in mem::replace(&mut self.again, Vec::new(self.alloc)) {
            self.serve_connection(rt, key, false, true);
        }
    }

    /// Counts a connection among those that may become overdue, or no longer.
    fn recount(&mut self, before: bool, now: bool) {
        let others = self.watched.saturating_sub(u32::from(before));
        self.watched = others.saturating_add(u32::from(now));
    }

    /// Ends the connections that are overdue.
    fn end_overdue_ones<W: Wait + Clock>(&mut self, rt: &W) {
        let Some(now) = self.next_look(rt) else {
            return;
        };
        for _ in 0..EVENTS {
            let Some((key, limit)) = self.overdue_one(now) else {
                return;
            };
            self.end(rt, key, Some(Cause::Limit(limit)));
        }
    }

    /// What time it is, if a look at those that may become overdue is due.
    fn next_look<W: Clock>(&mut self, rt: &W) -> Option<Instant> {
        if self.watched == 0 {
            return None;
        }
        let now = Instant::now(rt).ok()?;
        let probe = Duration::from_millis(OVERDUE_CHECK);
        if self
            .looked
            .is_some_and(|looked| now.duration_since(looked) < probe)
        {
            return None;
        }
        self.looked = Some(now);
        Some(now)
    }

    /// One that is overdue, and by which limit.
    fn overdue_one(&self, now: Instant) -> Option<(usize, Limit)> {
        for (key, connection) in self.connections.iter() {
            if let Some(limit) = connection.overdue(now, &self.server.limits) {
                return Some((key, limit));
            }
        }
        None
    }

    /// Ends all connections, and those that come from now on, since the bus ends. Their sockets are shut first, so that
    /// no client has to wait for the ends of those before it.
    fn end_all<W: Wait>(&mut self, rt: &W) {
        self.is_ending = true;
        for (_, connection) in self.connections.iter() {
            connection.link.shut();
        }
        for key in 0..self.connections.capacity() {
            self.end(rt, key, Some(Cause::BusEnds));
        }
    }

    /// Ends a connection, for a cause unless its client is gone.
    fn end<W: Wait>(&mut self, rt: &W, key: usize, cause: Option<Cause>) {
        let Some(mut connection) = self.connections.try_remove(key) else {
            return;
        };
        self.recount(connection.is_watched(), false);
        let cause = self.cause_of_end(rt, &connection, cause);
        let number = connection.session.number();
        self.find_reader(rt);
        connection.lend(self.reader.take());
        let lists = &mut self.scratch.aids.lists;
        let (link, told) = connection.end(rt, self.alloc, self.server, lists);
        if let Some(number) = number {
            self.server.clients.leave(rt, number);
        }
        close(link);
        if let Some(note) = Note::of_end(number, Cause::or_untold(cause, told)) {
            self.server.notes.leave(rt, note);
        }
    }
    /// Why a connection ends. One without Hello is no newcomer any more; if it was none already, a further one has closed it.
    fn cause_of_end<W: Wait>(
        &self,
        rt: &W,
        connection: &Connection<B>,
        cause: Option<Cause>,
    ) -> Option<Cause> {
        if !connection.is_in && !self.server.newcomers.leave(rt, connection.ticket) {
            return Some(Cause::Limit(Limit::Newcomers));
        }
        Some(connection.told(cause?))
    }
}
