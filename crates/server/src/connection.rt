// A connection of a worker.

use crate::limit::Limit;
use crate::limits::Limits;
use crate::note::{Cause, Note};
use crate::scratch::{Aids, Scratch};
use crate::shared::Server;
use crate::socket_probe::SocketProbe;
use crate::unfinished::Beginning;
use endpoints::Link;
use members::{Arrival, Handle, SocketMailbox, WorkerHandle};
use mio::Token;
use sessions::{BusBrand, RouteLists, Session, SessionError, StateReader, Step};
use std::alloc::Global;
use std::io;
use std::io::ErrorKind;
use std::sync::{Arc, Wait};
use std::time::{Clock, Duration, Instant};

/// How many messages are treated before what they put is written. An outbox holds far more.
const MESSAGES: u32 = 32;

/// How many reads one connection gets before the others have their turn.
const READS: u32 = 4;

/// A client of which one read brings as many messages is busy.
const BUSY: u32 = 2;

/// A message of more bytes that came in pieces leaves room that is given back.
const LONG: u64 = 1_048_576;

/// What becomes of a connection after its turn.
#[derive(Clone, Copy)]
pub(crate) enum Turn {
    /// It waits for the poll.
    Waits,
    /// More may be there to read.
    Again,
    /// Its next message waits until the end of another client that has gone was seen.
    Held,
    /// Its client is gone.
    Gone,
    /// The bus ends it.
    Ends(Cause),
}

/// A connection. One worker owns it.
#[derive(Drop)]
pub(crate) struct Connection<B: BusBrand> {
    pub(crate) session: Session<B, SocketMailbox>,
    pub(crate) mailbox: SocketMailbox,
    pub(crate) link: Arc<Link>,
    begun: Instant,
    // What it has sent of a message, or a line, that isn't whole.
    beginning: Option<Beginning>,
    /// Its Hello was answered, and it no longer counts among the newcomers.
    pub(crate) is_in: bool,
    // Its next message is whole, and waits until the end of another client that has gone was seen.
    is_held: bool,
    /// By which the newcomers know it.
    pub(crate) ticket: u64,
}

/// Closes a socket. Where another thread still has it, it is shut, so that the client sees its end at once all the same.
pub(crate) fn close(link: Arc<Link>) {
    if let Err(link) = Arc::try_unwrap(link) {
        link.shut();
    }
}

impl<B: BusBrand> Connection<B> {
    /// A connection that has just been accepted. The handle tells of it by the token, and it is one of the newcomers.
    ///
    /// All that may fail comes before its session, so that none has to be dropped.
    pub(crate) fn new<W: Wait + Clock, R: Wait + Drop>(
        rt: &W,
        alloc: Global,
        server: &Server<B, R>,
        arrival: Arrival,
        handle: Arc<WorkerHandle>,
        token: Token,
    ) -> io::Result<Connection<B>> {
        let begun = Instant::now(rt)?;
        let Arrival { link, admission } = arrival;
        link.set_nonblocking()?;
        let link = Arc::new(alloc, link)?;
        handle.register(&link, token)?;
        let instructions = Arc::try_clone(&server.instructions)?;
        let room = server.limits.room;
        let (mailbox, turn) = SocketMailbox::new(
            alloc,
            Arc::try_clone(&link)?,
            handle,
            token,
            room,
        )?;
        let shared = mailbox.share()?;
        let ticket = server.newcomers.enter(rt, Arc::try_clone(&link)?)?;
        let mut session = Session::admitting(alloc, server.identity, admission, shared, turn);
        session.share_instructions(instructions);
        Ok(Connection {
            session,
            mailbox,
            link,
            begun,
            beginning: None,
            is_in: false,
            is_held: false,
            ticket,
        })
    }

    /// Reads the bus's state by its worker's reader, until that is reclaimed.
    pub(crate) fn lend(&mut self, reader: Option<StateReader<B, SocketMailbox>>) {
        if let Some(reader) = reader {
            self.session.lend(reader);
        }
    }

    /// Whether it may become overdue: it is without Hello, or in the middle of a message.
    pub(crate) fn is_watched(&self) -> bool {
        !self.is_in || self.beginning.is_some()
    }

    /// The limit that it exceeds, if it has been without Hello for too long, or silent in the middle of a message.
    pub(crate) fn overdue(&self, now: Instant, limits: &Limits) -> Option<Limit> {
        if self.is_late(now, limits.patience()) {
            return Some(Limit::Hello);
        }
        if self.is_silent(now, limits.silence()) {
            return Some(Limit::Silence);
        }
        None
    }

    fn is_late(&self, now: Instant, patience: Duration) -> bool {
        !self.is_in && now.duration_since(self.begun) > patience
    }

    fn is_silent(&self, now: Instant, silence: Duration) -> bool {
        self.beginning
            .is_some_and(|beginning| beginning.is_silent(now, silence))
    }

    /// A cause of its end, with the message that came in the place of Hello.
    pub(crate) fn told(&self, cause: Cause) -> Cause {
        match (cause, self.session.opening()) {
            (Cause::Session(SessionError::NoHello), Some(opening)) => Cause::Opening(opening),
            _ => cause,
        }
    }

    /// Counts its client among those that are in, once its Hello is answered: before the answer is written, so that
    /// whoever asks about it finds it. Where memory is refused, nobody waits for its end.
    fn accept_word<W: Wait, R: Wait + Drop>(&mut self, rt: &W, server: &Server<B, R>) {
        let Some(number) = self.session.number() else {
            return;
        };
        self.is_in = true;
        server.newcomers.leave(rt, self.ticket);
        if let Ok(link) = Arc::try_clone(&self.link) {
            let _ = server.clients.enter(rt, number, link);
        }
        server.notes.leave(rt, Note::Came(number));
    }

    /// Reads into the block and treats what came, as far as it goes in one turn. A read that doesn't fill the block took
    /// all that was there, and the poll tells of what comes later, so it is the last one where it had few messages: while
    /// more of them are treated, a busy client sends others, and a further read is cheaper than a look at the
    /// poll. Nor does such a read show whether the client's bytes have ended, so where they may have, the end is read
    /// too.
    pub(crate) fn read<W: Wait + Clock, R: Wait + Drop>(
        &mut self,
        rt: &W,
        alloc: Global,
        server: &Server<B, R>,
        scratch: &mut Scratch,
        has_ended: bool,
    ) -> Turn {
        let (block, aids) = (scratch.block.as_mut_slice(), &mut scratch.aids);
        for _ in 0..READS {
            // What is held is treated before more is read.
            let count = if self.is_held {
                0
            } else {
                match self.link.receive(block) {
                    Ok(0) => return self.at_end(rt, alloc, server, &mut aids.lists),
                    Ok(count) => count,
                    Err(error) => match error.kind() {
                        ErrorKind::Interrupted => continue,
                        ErrorKind::WouldBlock => return Turn::Waits,
                        _ => return self.at_end(rt, alloc, server, &mut aids.lists),
                    },
                }
            };
            let treated = match self.treat(rt, alloc, server, aids, &block[..count]) {
                Ok(treated) => treated,
                Err(error) => return Turn::Ends(Cause::Session(error)),
            };
            if self.is_held {
                return Turn::Held;
            }
            if self.note_beginning(rt, alloc, server).is_err() {
                return Turn::Ends(Cause::Limit(Limit::Unfinished));
            }
            if count > 0 && count < block.len() && treated < BUSY && !has_ended {
                return Turn::Waits;
            }
        }
        Turn::Again
    }

    /// What becomes of it where nothing more can be read: its client is gone, unless the bus itself has shut the socket.
    fn at_end<W: Wait, R: Wait + Drop>(
        &mut self,
        rt: &W,
        alloc: Global,
        server: &Server<B, R>,
        lists: &mut RouteLists,
    ) -> Turn {
        let shares = server.limits.shares;
        match self.session.step(rt, alloc, &server.bus, shares, lists) {
            Ok(_) => Turn::Gone,
            Err(error) => Turn::Ends(Cause::Session(error)),
        }
    }

    /// Treats the lines and messages that are whole now, as far as none is held, and tells how many there were. What
    /// they put is written after every few of them, also before an error.
    fn treat<W: Wait, R: Wait + Drop>(
        &mut self,
        rt: &W,
        alloc: Global,
        server: &Server<B, R>,
        aids: &mut Aids,
        bytes: &[u8],
    ) -> Result<u32, SessionError> {
        self.session.feed(bytes)?;
        let mut treated = 0u32;
        for _ in rt.forever() {
            let some = self.treat_some(rt, alloc, server, aids);
            if !self.is_in {
                self.accept_word(rt, server);
            }
            self.session.push_out(rt);
            let some = some?;
            treated = treated.saturating_add(some);
            if some < MESSAGES {
                return Ok(treated);
            }
        }
        unreachable!()
    }

    fn treat_some<W: Wait, R: Wait + Drop>(
        &mut self,
        rt: &W,
        alloc: Global,
        server: &Server<B, R>,
        aids: &mut Aids,
    ) -> Result<u32, SessionError> {
        for treated in 0..MESSAGES {
            self.is_held = self.asks_about_one_gone(rt, server, &mut aids.probe);
            if self.is_held {
                return Ok(treated);
            }
            let shares = server.limits.shares;
            let step = self
                .session
                .step(rt, alloc, &server.bus, shares, &mut aids.lists)?;
            if step == Step::Waits {
                return Ok(treated);
            }
        }
        Ok(MESSAGES)
    }

    /// Whether its next message asks the bus about a client that has gone, and whose session hasn't ended: that comes
    /// first, as it happened first. The message is read for this only if a client has gone that its first argument may name.
    fn asks_about_one_gone<W: Wait, R: Wait + Drop>(
        &mut self,
        rt: &W,
        server: &Server<B, R>,
        probe: &mut SocketProbe,
    ) -> bool {
        let Some(number) = self.session.possible_subject() else {
            return false;
        };
        self.waits_for(rt, server, probe, number) && self.session.next_subject() == Some(number)
    }

    /// Whether a client has gone, and its session hasn't ended. Whoever has gone too doesn't wait, so that no two wait for
    /// each other.
    fn waits_for<W: Wait, R: Wait + Drop>(
        &self,
        rt: &W,
        server: &Server<B, R>,
        probe: &mut SocketProbe,
        number: u64,
    ) -> bool {
        let Some(link) = server.clients.link_of(rt, number) else {
            return false;
        };
        probe.sees_end(&link) && !probe.sees_end(&self.link)
    }

    /// Notes what it has sent of a message that isn't whole, now that all whole ones are treated.
    ///
    /// # Errors
    ///
    /// All connections together have sent more of such messages than there is room for.
    fn note_beginning<W: Clock, R: Wait + Drop>(
        &mut self,
        rt: &W,
        alloc: Global,
        server: &Server<B, R>,
    ) -> io::Result<()> {
        let before = self.beginning_len();
        let len = self.session.unread_len() as u64;
        if before == 0 && len == 0 {
            return Ok(());
        }
        let beginning = Beginning::of_len(rt, len)?;
        server.unfinished.replace(before, len)?;
        self.beginning = beginning;
        if len < before && before > LONG {
            self.session.shrink_to_fit(alloc);
        }
        Ok(())
    }

    fn beginning_len(&self) -> u64 {
        self.beginning.map_or(0, |beginning| beginning.len())
    }

    /// Ends it: what its socket still takes is written. The socket is given back, to be closed, and whether all were told that its
    /// client has left.
    pub(crate) fn end<W: Wait, R: Wait + Drop>(
        self,
        rt: &W,
        alloc: Global,
        server: &Server<B, R>,
        lists: &mut RouteLists,
    ) -> (Arc<Link>, Result<(), SessionError>) {
        server.unfinished.give_back(self.beginning_len());
        let Connection {
            session,
            mailbox,
            link,
            begun: _,
            beginning: _,
            is_in: _,
            is_held: _,
            ticket: _,
        } = self;
        let (told, rest) = session.end(rt, alloc, &server.bus, lists);
        if let Some(rest) = rest {
            server.keep_rest(rt, rest);
        }
        mailbox.end(rt);
        (link, told)
    }
}
