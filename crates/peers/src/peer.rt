// A client that has said Hello.

ghost use Rattle.std.specs.Prelude.{◌≡◌, true, IsTrue, MatchBool};
ghost use Rattle.peers.specs.Holdings.{nothing_held};
ghost use Rattle.peers.specs.PeerState.{PeerState, peer_written};

use crate::all_instructions::AllInstructions;
use crate::holdings::Holdings;
use crate::identity::Identity;
use crate::own_outbox::OwnOutbox;
use crate::serial::Serials;
use bus_messages::UniqueName;
use crossbeam_utils::rule::Protocol;
use router::{BusBrand, Command, Mailbox, Pass, Published, Shown, StateReader};
use std::alloc::Global;
use std::collections::LinkedList;
use std::marker::Model;
use std::sync::{Arc, Wait};

/// A client on the bus. Its name is that of its pass's connection. Contracts see what its pass has seen and done, what
/// the bus has put to the client itself, the serial of the next message that the bus makes for it, what it is told of the
/// bus, and what it has taken of the bus.
#[derive(Drop)]
pub struct Peer<B: BusBrand, M: Mailbox>
where
    Published: Protocol<Shown<B, M>, LinkedList<Command<M>>>,
{
    pub(crate) pass: Pass<B, M>,
    pub(crate) name: UniqueName,
    // What the client is told of the bus.
    pub(crate) identity: Identity,
    pub(crate) serials: Serials,
    pub(crate) own: OwnOutbox<M>,
    pub(crate) holdings: Holdings,
    // Whether its last broadcast was for anybody: then the next may well be, too.
    pub(crate) was_heard: bool,
}

impl<B: BusBrand, M: Mailbox> Model for Peer<B, M>
where
    Published: Protocol<Shown<B, M>, LinkedList<Command<M>>>,
{
    ghost use Rattle.std.specs.Prelude.{◌≡◌};
    ghost use Rattle.peers.specs.HeldLists.{holdings_of};
    ghost use Rattle.peers.specs.PeerState.{PeerState};

    ghost Value = { PeerState M };

    ghost view = { λ p. record { pass = p.pass; own = p.own; serial = p.serials; identity = p.identity; holdings = holdings_of p.holdings } };

    ghost invariant = { λ p. p.name ≡ p.pass.connection };
}

impl<B: BusBrand, M: Mailbox> Peer<B, M> {
    /// The peer of a pass that is connected, named by its number. It has taken nothing yet.
    pub fn new(alloc: Global, pass: Pass<B, M>, own: OwnOutbox<M>, identity: Identity) -> Peer<B, M>
        ensures { result ≡ record { pass = pass; own = own; serial = 1; identity = identity; holdings = nothing_held } }
    {
        let name = UniqueName::new(pass.connection());
        Peer {
            pass,
            name,
            identity,
            serials: Serials::new(),
            own,
            holdings: Holdings::new(alloc),
            was_heard: false,
        }
    }

    /// The number of its connection, by which its unique name is made.
    pub fn connection(&self) -> u64
        ensures { result ≡ self.now.pass.connection }
    {
        self.pass.connection()
    }

    /// Counts the instructions of the programs that it attaches from now on among those of all clients.
    pub fn share_instructions(&mut self, all: Arc<AllInstructions>)
        ensures { self.new ≡ self.old }
    {
        self.holdings.share_instructions(all);
    }

    /// Has the client's pass read the published state by this reader, until it is reclaimed.
    pub fn lend(&mut self, reader: StateReader<B, M>)
        ensures { self.new ≡ self.old }
    {
        self.pass.lend(reader);
    }

    /// Gives up the reader of the client's pass.
    pub fn reclaim(&mut self) -> Option<StateReader<B, M>>
        ensures { self.new ≡ self.old }
    {
        self.pass.reclaim()
    }

    /// Whether the client's outbox was shut, since a message found no room. Once shut it stays so.
    pub fn is_shut(&mut self) -> bool
        ensures shut { MatchBool result (self.new ≡ record self.old { own = record self.old.own { knows_shut = true } }) (self.new ≡ self.old) }
        ensures stays { self.old.own.knows_shut ≡ true → IsTrue result }
    {
        self.own.is_shut()
    }

    /// Writes out what was put, to the client itself and to others.
    pub fn push_out<W: Wait>(&mut self, rt: &W)
        ensures { self.new ≡ peer_written self.old }
    {
        self.own.push_out(rt);
        self.pass.push_out(rt);
    }

    /// Gives up the peer, and keeps its pass.
    pub fn into_pass(self) -> Pass<B, M>
        ensures { result ≡ self.pass }
    {
        let Self {
            pass,
            name: _,
            identity: _,
            serials: _,
            own: _,
            holdings: _,
            was_heard: _,
        } = self;
        pass
    }
}
