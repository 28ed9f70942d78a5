// A client's session.

ghost use Rattle.std.specs.Prelude.{◌≡◌, [], None, IfErr, IfNone, IfOk, IfSome, is_some, length, true};
ghost use Rattle.auth.specs.Admissions.{any_admission};
ghost use Rattle.sessions.specs.Openings.{HasNoOpening, IsNextOpening};
ghost use Rattle.sessions.specs.Steps.{Feeds, IsShutIf, Steps, TakesNext, TakesMessage, TakesLine};
ghost use Rattle.sessions.specs.Ends.{EndsAny};
ghost use Rattle.sessions.specs.Subjects.{HasLooked, IsNextSubject};
ghost use Rattle.sessions.specs.SessionState.{connection_of, new_session, client_written};

use crate::client::{Client, Newcomer};
use crate::ending::{Rest, end};
use crate::error::SessionError;
use crate::first_text::first_text;
use crate::opening::Opening;
use crate::step::Step;
use crate::talk::Talk;
use auth::Admission;
use crossbeam_utils::rule::Protocol;
use frames::Frames;
use message_view::{MsgError, View};
use outbox::Turn;
use peers::{
    AllInstructions, Bus, BusBrand, Command, Context, Identity, Mailbox, OwnOutbox, Published,
    RouteLists, Shares, Shown, StateReader,
};
use std::alloc::Global;
use std::collections::LinkedList;
use std::marker::Model;
use std::sync::{Arc, Wait};

/// The kind of a call, which is the second byte of its message (D-Bus Specification, "Message Format").
const METHOD_CALL: u8 = 1;

/// One client's session: the talk, then messages, of which the first is Hello. What it answers, and what others send to
/// its client, waits in the outbox of its mailbox. Contracts see where the talk stands, the bytes that wait to be handled,
/// the client's outbox before Hello, the client's peer, and why the session ends.
#[derive(Drop)]
pub struct Session<B: BusBrand, M: Mailbox>
where
    Published: Protocol<Shown<B, M>, LinkedList<Command<M>>>,
{
    talk: Talk,
    // What is read and not handled.
    input: Frames,
    client: Client<B, M>,
    fault: Option<SessionError>,
}

impl<B: BusBrand, M: Mailbox> Model for Session<B, M>
where
    Published: Protocol<Shown<B, M>, LinkedList<Command<M>>>,
{
    ghost use Rattle.std.specs.Prelude.{◌≡◌, None};
    ghost use Rattle.sessions.specs.SessionState.{SessionState, own_outbox, peer_of};

    ghost Value = { SessionState M };

    ghost view = { λ s. record { standing = s.talk.auth; has_begun = s.talk.has_begun; unread = s.input.unread; outbox = own_outbox s.client; peer = peer_of s.client; fault = s.fault } };

    // The faults of messages are kept in the session's own fault, and not in its frames.
    ghost invariant = { λ s. s.input.fault ≡ None };
}

impl<B: BusBrand, M: Mailbox> Session<B, M> {
    /// A session before its first byte, of a bus with this GUID. It admits EXTERNAL for anybody, and ANONYMOUS. All that
    /// it says goes to the mailbox, whose outbox's turn it is.
    pub fn new(alloc: Global, guid: [u8; 32], mailbox: M, turn: Turn) -> Session<B, M>
        requires { (turn.queue ≡ (M.outbox_of mailbox).queue) × (turn.last ≡ 0) }
        ensures { result ≡ new_session (M.outbox_of mailbox) (record { guid = guid; admission = any_admission }) }
    {
        let identity = Identity {
            guid,
            machine_id: None,
            user: None,
        };
        Session::admitting(alloc, identity, Admission::any(), mailbox, turn)
    }

    /// The same of a session that admits what is asked for, on a bus that says this of itself.
    pub fn admitting(
        alloc: Global,
        identity: Identity,
        admission: Admission,
        mailbox: M,
        turn: Turn,
    ) -> Session<B, M>
        requires { (turn.queue ≡ (M.outbox_of mailbox).queue) × (turn.last ≡ 0) }
        ensures { result ≡ new_session (M.outbox_of mailbox) (record { guid = identity.guid; admission = admission }) }
    {
        Session {
            talk: Talk::admitting(identity.guid, admission),
            input: Frames::new(alloc),
            client: Client::Newcomer(Newcomer {
                own: OwnOutbox::new(mailbox, turn),
                identity,
                all: None,
                reader: None,
            }),
            fault: None,
        }
    }

    /// Counts the instructions of the programs that its client attaches among those of all clients that share this. Without
    /// it, or after Hello, nobody counts them.
    pub fn share_instructions(&mut self, all: Arc<AllInstructions>)
        ensures { self.new ≡ self.old }
    {
        if let Client::Newcomer(newcomer) = &mut self.client {
            newcomer.all = Some(all);
        }
    }

    /// Reads the bus's state by this reader until it is reclaimed, so that a thread may lend its one reader to each session
    /// that it serves. It has to be lent for each step and for the end. A session to which none was lent at its Hello takes one
    /// of the bus's places for a reader of its own.
    pub fn lend(&mut self, reader: StateReader<B, M>)
        ensures { self.new ≡ self.old }
    {
        match &mut self.client {
            Client::Newcomer(newcomer) => newcomer.reader = Some(reader),
            Client::Peer(peer) => peer.lend(reader),
            Client::Arriving => {}
        }
    }

    /// Gives up the reader.
    pub fn reclaim(&mut self) -> Option<StateReader<B, M>>
        ensures { self.new ≡ self.old }
    {
        match &mut self.client {
            Client::Newcomer(newcomer) => newcomer.reader.take(),
            Client::Peer(peer) => peer.reclaim(),
            Client::Arriving => None,
        }
    }

    /// Whether the talk is over and messages are read.
    pub fn has_begun(&self) -> bool
        ensures { result ≡ self.now.has_begun }
    {
        self.talk.has_begun()
    }

    /// Whether Hello was accepted.
    pub fn is_connected(&self) -> bool
        ensures { result ≡ is_some self.now.peer }
    {
        matches!(self.client, Client::Peer(_))
    }

    /// The number of its client's connection, by which its unique name is made, once Hello was accepted.
    pub fn number(&self) -> Option<u64>
        ensures { result ≡ connection_of self.now.peer }
    {
        match &self.client {
            Client::Peer(peer) => Some(peer.connection()),
            Client::Newcomer(_) | Client::Arriving => None,
        }
    }

    /// How many bytes wait to be handled. Once a step waits, they are of a line or a message that isn't whole.
    pub fn unread_len(&self) -> usize
        ensures { result ≡ length self.now.unread }
    {
        self.input.unread().len()
    }

    /// The connection that the next message may ask the bus about: what `next_subject` tells, if it tells one. It takes a tenth
    /// of the time, since the message isn't read; so it may be told of a message that is none, or isn't for the bus.
    pub fn possible_subject(&mut self) -> Option<u64>
        ensures looked { HasLooked self.old self.new }
    {
        if !self.is_connected() || self.input.unread().get(1).copied() != Some(METHOD_CALL) {
            return None;
        }
        self.client.other_owner_of(first_text(self.input.unread())?)
    }

    /// The connection that the next message asks the bus about, by a name that it owns. `None` where no such message is next. A
    /// client that has gone, and whose session hasn't ended, may still own names; whoever serves many sessions ends that one's
    /// first, so that clients see each other go in the order in which it happened.
    #[inline(always)]
    pub fn next_subject(&mut self) -> Option<u64>
        ensures looked { HasLooked self.old self.new }
        ensures subject { IfSome result (λ number. IsNextSubject self.old.unread self.new.peer number) }
    {
        if !self.is_connected() || self.input.unread().get(1).copied() != Some(METHOD_CALL) {
            return None;
        }
        self.subject_of_call()
    }

    // It is a function of its own, since a function clears room for its values whenever it is called, and a view is wide. Most
    // messages are no calls.
    #[inline(never)]
    fn subject_of_call(&mut self) -> Option<u64>
        ensures looked { HasLooked self.old self.new }
        ensures subject { IfSome result (λ number. IsNextSubject self.old.unread self.new.peer number) }
    {
        match &self.input.front() {
            Ok(Some(view)) => self.client.subject_of(view),
            _ => None,
        }
    }

    /// The message that stands in front: the one that has ended the session, once a step has answered why.
    pub fn opening(&self) -> Option<Opening>
        ensures message { IfSome result (λ opening. IsNextOpening self.now.unread opening) }
        ensures none { IfNone result (HasNoOpening self.now.unread) }
    {
        match &self.input.front() {
            Ok(Some(view)) => Some(Opening::of(view)),
            Ok(None) => None,
            Err(_) => None,
        }
    }

    /// Keeps the client's next bytes.
    ///
    /// # Errors
    ///
    /// `NoMemory`, or what a step answered.
    pub fn feed(&mut self, bytes: &[u8]) -> Result<(), SessionError>
        ensures { Feeds bytes.now self.old result self.new }
    {
        if let Some(fault) = self.fault {
            return Err(fault);
        }
        match self.input.feed(bytes) {
            Ok(()) => Ok(()),
            Err(error) => Err(self.fail(SessionError::from(error))),
        }
    }

    /// Moves the bytes that wait to be handled to a room of their own length, so that the one of a long message is given back.
    /// Where memory is refused, they stay.
    pub fn shrink_to_fit(&mut self, alloc: Global)
        ensures { self.new ≡ self.old }
    {
        let mut input = Frames::new(alloc);
        if input.feed(self.input.unread()).is_ok() {
            self.input = input;
        }
    }

    /// Handles the next line of the talk or the next message. What the client takes of the bus is within the shares. The
    /// lists are those of any broadcast; whoever serves many sessions keeps them.
    ///
    /// # Errors
    ///
    /// Why the session ends, and from then on always. It is `Slow` only where the client's outbox is known to be shut. What
    /// the session has put may still be written out.
    pub fn step<'a, W: Wait, R: Wait + Drop>(
        &mut self,
        rt: &'a W,
        alloc: Global,
        bus: &'a Bus<B, M, R>,
        shares: Shares,
        lists: &mut RouteLists,
    ) -> Result<Step, SessionError>
        ensures steps { Steps M.outbox_of shares self.old result self.new }
        ensures slow { self.old.fault ≡ None → IfErr result (λ error. IsShutIf self.new.peer error) }
    {
        if let Some(fault) = self.fault {
            return Err(fault);
        }
        if self.client.is_shut() {
            return Err(self.fail(SessionError::Slow));
        }
        let context = Context {
            rt,
            alloc,
            bus,
            shares,
            control: None,
        };
        match self.take_next(&context, lists) {
            Ok(step) => Ok(step),
            Err(error) => Err(self.fail(error)),
        }
    }

    fn fail(&mut self, error: SessionError) -> SessionError
        ensures error { result ≡ error }
        ensures ended { self.new ≡ record self.old { fault = Some error } }
    {
        self.fault = Some(error);
        error
    }

    fn take_next<W: Wait, R: Wait + Drop>(
        &mut self,
        context: &Context<'_, B, M, W, R>,
        lists: &mut RouteLists,
    ) -> Result<Step, SessionError>
        ensures takes { TakesNext self.old.has_begun M.outbox_of context.now.shares self.old result self.new }
        ensures slow { IfErr result (λ error. IsShutIf self.new.peer error) }
    {
        if self.talk.has_begun() {
            self.take_message(context, lists)
        } else {
            self.take_line(context)
        }
    }

    fn take_line<W: Wait, R: Wait + Drop>(
        &mut self,
        context: &Context<'_, B, M, W, R>,
    ) -> Result<Step, SessionError>
        ensures takes { TakesLine self.old result self.new }
        ensures slow { IfErr result (λ error. IsShutIf self.new.peer error) }
    {
        let Client::Newcomer(newcomer) = &mut self.client else {
            return Ok(Step::Waits);
        };
        if self.input.is_empty() {
            return Ok(Step::Waits);
        }
        let bytes = self.input.unread();
        let taken = self
            .talk
            .take_line(context.rt, context.alloc, &mut newcomer.own, bytes)?;
        self.input.skip(taken);
        Ok(Step::Done)
    }

    fn take_message<W: Wait, R: Wait + Drop>(
        &mut self,
        context: &Context<'_, B, M, W, R>,
        lists: &mut RouteLists,
    ) -> Result<Step, SessionError>
        ensures takes { TakesMessage M.outbox_of context.now.shares self.old result self.new }
        ensures slow { IfErr result (λ error. IsShutIf self.new.peer error) }
    {
        let frame = match self.input.frame() {
            Ok(Some(frame)) => frame,
            Ok(None) => return Ok(Step::Waits),
            Err(fault) => return Err(SessionError::Message(fault)),
        };
        let len = frame.len();
        // The view is looked at where it was read, since it is wide to move.
        match &View::read(frame) {
            Ok(view) => self.client.handle(context, lists, view)?,
            Err(fault) => return Err(SessionError::Message(*fault)),
        }
        self.input.skip(len);
        Ok(Step::Done)
    }

    /// Writes out what the session has put, its own outbox's and that of others.
    pub fn push_out<W: Wait>(&mut self, rt: &W)
        ensures { self.new ≡ record self.old { peer = client_written self.old.peer } }
    {
        match &mut self.client {
            Client::Newcomer(newcomer) => newcomer.own.push_out(rt),
            Client::Peer(peer) => peer.push_out(rt),
            Client::Arriving => {}
        }
    }

    /// What the end of the client's bytes means here.
    ///
    /// # Errors
    ///
    /// `Auth` before BEGIN, `Message(Short)` inside a message, or what a step answered.
    pub fn end_of_input(&self) -> Result<(), SessionError>
        ensures { IfOk result (λ _. (self.now.fault ≡ None) × (self.now.has_begun ≡ true) × (self.now.unread ≡ [])) }
    {
        if let Some(fault) = self.fault {
            return Err(fault);
        }
        if !self.talk.has_begun() {
            return Err(SessionError::Auth);
        }
        if self.input.is_empty() {
            Ok(())
        } else {
            Err(SessionError::Message(MsgError::Short))
        }
    }

    /// Ends the session: its names are given up and its connection is closed, each change announced, by the caller's lists, and
    /// written out. Its reader, lent or its own, is given back to the bus. Answers also what is left of it if memory was refused
    /// for that.
    ///
    /// # Errors
    ///
    /// `NoMemory` if memory was refused to a message that tells of its leaving.
    pub fn end<W: Wait, R: Wait + Drop>(
        self,
        rt: &W,
        alloc: Global,
        bus: &Bus<B, M, R>,
        lists: &mut RouteLists,
    ) -> (Result<(), SessionError>, Option<Rest<B, M>>)
        ensures { EndsAny M.outbox_of self.peer result.0 result.1 }
    {
        let Session { client, .. } = self;
        let Client::Peer(peer) = client else {
            return (Ok(()), None);
        };
        end(peer, &Context::unlimited(rt, alloc, bus), lists)
    }
}
