// The client that a session serves.

ghost use Rattle.std.specs.Prelude.{◌≡◌, None, IfErr, IfSome, MatchBool};
ghost use Rattle.peers.specs.Holdings.{nothing_held};
ghost use Rattle.sessions.specs.SessionState.{outbox_after, own_outbox, peer_of};
ghost use Rattle.sessions.specs.Steps.{IsFoundShut, IsShutIf, Takes, outcome_of};
ghost use Rattle.sessions.specs.Subjects.{IsSubjectOf, MayHaveSeen};

use crate::error::SessionError;
use crate::greeting::greet;
use crossbeam_utils::rule::Protocol;
use message_view::View;
use peers::{
    AllInstructions, AnswerError, BusBrand, Command, Context, Identity, Mailbox, OwnOutbox, Pass,
    Peer, Published, RouteLists, Shown, StateReader,
};
use std::alloc::Global;
use std::collections::LinkedList;
use std::marker::Model;
use std::mem;
use std::sync::{Arc, Wait};

/// A client: one that hasn't said Hello, then a peer of the bus.
#[derive(Drop)]
pub(crate) enum Client<B: BusBrand, M: Mailbox>
where
    Published: Protocol<Shown<B, M>, LinkedList<Command<M>>>,
{
    Newcomer(Newcomer<B, M>),
    /// While its Hello is handled.
    Arriving,
    Peer(Peer<B, M>),
}

/// A client before Hello. Contracts see what they see of its outbox, which its peer has after.
#[derive(Drop)]
pub(crate) struct Newcomer<B: BusBrand, M: Mailbox>
where
    Published: Protocol<Shown<B, M>, LinkedList<Command<M>>>,
{
    pub(crate) own: OwnOutbox<M>,
    pub(crate) identity: Identity,
    /// Among which the instructions of its programs will be counted.
    pub(crate) all: Option<Arc<AllInstructions>>,
    /// What is lent to it, and will be its peer's.
    pub(crate) reader: Option<StateReader<B, M>>,
}

impl<B: BusBrand, M: Mailbox> Model for Newcomer<B, M>
where
    Published: Protocol<Shown<B, M>, LinkedList<Command<M>>>,
{
    ghost use Rattle.peers.specs.PeerState.{OwnState};

    ghost Value = { OwnState };

    ghost view = { λ n. n.own };
}

impl<B: BusBrand, M: Mailbox> Newcomer<B, M> {
    /// Its peer, once it has joined the bus by this pass.
    pub(crate) fn into_peer(self, alloc: Global, pass: Pass<B, M>) -> Peer<B, M>
        ensures pass { result.pass ≡ pass }
        ensures own { result.own ≡ self }
        ensures new { (result.serial ≡ 1) × (result.holdings ≡ nothing_held) }
    {
        let Newcomer {
            own,
            identity,
            all,
            ..
        } = self;
        let mut peer = Peer::new(alloc, pass, own, identity);
        if let Some(all) = all {
            peer.share_instructions(all);
        }
        peer
    }
}

impl<B: BusBrand, M: Mailbox> Client<B, M> {
    /// Whether the client's outbox was shut, since a message found no room.
    pub(crate) fn is_shut(&mut self) -> bool
        ensures shut { MatchBool result (IsFoundShut (peer_of self.old) (peer_of self.new)) (self.new ≡ self.old) }
        ensures outbox { own_outbox self.new ≡ own_outbox self.old }
    {
        match self {
            Client::Newcomer(newcomer) => newcomer.own.is_shut(),
            Client::Peer(peer) => peer.is_shut(),
            Client::Arriving => false,
        }
    }

    /// The other connection that a call of the bus is about. `None` before Hello.
    pub(crate) fn subject_of(&mut self, view: &View<'_>) -> Option<u64>
        ensures looked { MayHaveSeen (peer_of self.old) (peer_of self.new) }
        ensures same { own_outbox self.new ≡ own_outbox self.old }
        ensures subject { IfSome result (λ number. IsSubjectOf view.now (peer_of self.new) number) }
    {
        match self {
            Client::Peer(peer) => peer.subject_of(view),
            _ => None,
        }
    }

    /// The connection that owns a name, if it is another than the client's. `None` before Hello.
    pub(crate) fn other_owner_of(&mut self, name: &str) -> Option<u64>
        ensures looked { MayHaveSeen (peer_of self.old) (peer_of self.new) }
        ensures same { own_outbox self.new ≡ own_outbox self.old }
    {
        match self {
            Client::Peer(peer) => peer.other_owner_of(name),
            _ => None,
        }
    }

    /// Handles a message of the client, which is the first one if it has no peer.
    ///
    /// # Errors
    ///
    /// Why the session ends.
    pub(crate) fn handle<W: Wait, R: Wait + Drop>(
        &mut self,
        context: &Context<'_, B, M, W, R>,
        lists: &mut RouteLists,
        view: &View<'_>,
    ) -> Result<(), SessionError>
        ensures takes { Takes M.outbox_of context.now.shares view.now (own_outbox self.old) (peer_of self.old) result (peer_of self.new) }
        ensures outbox { own_outbox self.new ≡ outbox_after (peer_of self.new) (own_outbox self.old) }
        ensures slow { IfErr result (λ error. IsShutIf (peer_of self.new) error) }
    {
        match self {
            Client::Peer(peer) => {
                let handled = peer.handle(context, lists, view);
                outcome_of(handled)
            }
            _ => self.arrive(context, lists, view),
        }
    }

    // Makes the peer that the first message asks for, and answers it.
    #[tactic(auto, using(crate::proofs::Arriving::taken))]
    fn arrive<W: Wait, R: Wait + Drop>(
        &mut self,
        context: &Context<'_, B, M, W, R>,
        lists: &mut RouteLists,
        view: &View<'_>,
    ) -> Result<(), SessionError>
        requires { peer_of self.old ≡ None }
        ensures takes { Takes M.outbox_of context.now.shares view.now (own_outbox self.old) None result (peer_of self.new) }
        ensures outbox { own_outbox self.new ≡ outbox_after (peer_of self.new) (own_outbox self.old) }
        ensures slow { IfErr result (λ error. IsShutIf (peer_of self.new) error) }
    {
        let Client::Newcomer(newcomer) = mem::replace(self, Client::Arriving) else {
            return Err(SessionError::NoHello);
        };
        match greet(context, lists, newcomer, view) {
            Ok((peer, registered)) => {
                *self = Client::Peer(peer);
                outcome_of(registered)
            }
            Err(rejection) => {
                let (error, newcomer) = rejection.give_back(context);
                *self = Client::Newcomer(newcomer);
                Err(error)
            }
        }
    }
}

/// What it means for the session that its client was answered, or couldn't be.
pub(crate) fn outcome_of(answered: Result<(), AnswerError>) -> Result<(), SessionError>
    ensures { result ≡ outcome_of answered }
{
    Ok(answered?)
}
