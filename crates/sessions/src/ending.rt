// The end of a session.

ghost use Rattle.std.specs.Prelude.{◌≡◌};
ghost use Rattle.sessions.specs.Ends.{Ends};

use crate::client::outcome_of;
use crate::error::SessionError;
use crossbeam_utils::rule::Protocol;
use peers::{
    Bus, BusBrand, Command, Context, Leaving, Mailbox, Peer, Published, RouteLists, Shown,
    StateReader,
};
use std::alloc::Global;
use std::collections::LinkedList;
use std::marker::Model;
use std::sync::Wait;

/// What is left of a session whose end was refused memory: its peer is still on the bus. Contracts see the peer.
#[derive(Drop)]
pub struct Rest<B: BusBrand, M: Mailbox>
where
    Published: Protocol<Shown<B, M>, LinkedList<Command<M>>>,
{
    peer: Peer<B, M>,
}

impl<B: BusBrand, M: Mailbox> Model for Rest<B, M>
where
    Published: Protocol<Shown<B, M>, LinkedList<Command<M>>>,
{
    ghost use Rattle.peers.specs.PeerState.{PeerState};

    ghost Value = { PeerState M };

    ghost view = { λ r. r.peer };
}

impl<B: BusBrand, M: Mailbox> Rest<B, M> {
    /// Announces by this reader what the end changes.
    pub fn lend(&mut self, reader: StateReader<B, M>)
        ensures { self.new ≡ self.old }
    {
        self.peer.lend(reader);
    }

    /// Gives up the reader.
    pub fn reclaim(&mut self) -> Option<StateReader<B, M>>
        ensures { self.new ≡ self.old }
    {
        self.peer.reclaim()
    }

    /// Goes on with the session's end. Answers what became of it, as `end` of the session does.
    pub fn retry<W: Wait, R: Wait + Drop>(
        self,
        rt: &W,
        alloc: Global,
        bus: &Bus<B, M, R>,
    ) -> (Result<(), SessionError>, Option<Rest<B, M>>)
        ensures { Ends M.outbox_of self result.0 result.1 }
    {
        let Rest { peer } = self;
        let mut lists = RouteLists::new();
        end(peer, &Context::unlimited(rt, alloc, bus), &mut lists)
    }
}

/// Takes a peer off the bus. Answers whether all were told of it, and what is left of it if memory was refused.
pub(crate) fn end<B: BusBrand, M: Mailbox, W: Wait, R: Wait + Drop>(
    mut peer: Peer<B, M>,
    context: &Context<'_, B, M, W, R>,
    lists: &mut RouteLists,
) -> (Result<(), SessionError>, Option<Rest<B, M>>)
    ensures { Ends M.outbox_of peer result.0 result.1 }
{
    let (leaving, told) = peer.leave(context, lists);
    let outcome = outcome_of(told);
    match leaving {
        Leaving::Refused => (outcome, Some(Rest { peer })),
        Leaving::Done | Leaving::Ended => {
            let _ = context.give_back(peer.into_pass());
            (outcome, None)
        }
    }
}
