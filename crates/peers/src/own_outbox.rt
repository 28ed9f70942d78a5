// The outbox of a client, as its own session puts messages there.

ghost use Rattle.std.specs.Prelude.{◌≡◌, [], false, true, None, IfErr, IfOk, IfSome, IsTrue, MatchBool, MatchResult, is_some};
ghost use Rattle.peers.specs.Answers.{IsShutIf, after_own_put, after_refusal};
ghost use Rattle.peers.specs.PeerState.{without_turn};

use crate::error::AnswerError;
use outbox::{Item, Seat, Tally, Turn};
use router::Mailbox;
use std::alloc::AllocError;
use std::marker::Model;
use std::sync::Wait;

/// A client's own mailbox, and a seat at its outbox. All that is written to the client goes through this outbox.
/// Contracts see the outbox, whether its turn is still there, what was put by this seat, in order, whether the outbox is known
/// to be shut, and whether anything waits there to be written out.
#[derive(Drop)]
pub struct OwnOutbox<M: Mailbox> {
    mailbox: M,
    seat: Seat,
    // Until the client joins the bus.
    turn: Option<Turn>,
    // Something was put that nobody was asked to write out.
    is_waiting: bool,
}

impl<M: Mailbox> Model for OwnOutbox<M> {
    ghost use Rattle.std.specs.Prelude.{◌≡◌, IfSome, is_some};
    ghost use Rattle.peers.specs.PeerState.{OwnState};

    ghost Value = { OwnState };

    ghost view = { λ o. record { outbox = o.seat.outbox; has_turn = is_some o.turn; put = o.seat.view.put; knows_shut = o.seat.knows_shut; is_waiting = o.is_waiting } };

    ghost invariant = { λ o. (o.seat.outbox ≡ M.outbox_of o.mailbox) × IfSome o.turn (λ t. (t.queue ≡ (M.outbox_of o.mailbox).queue) × (t.last ≡ 0)) };
}

impl<M: Mailbox> OwnOutbox<M> {
    /// What goes through the outbox of this mailbox, whose turn it is. Nothing is put yet.
    pub fn new(mailbox: M, turn: Turn) -> OwnOutbox<M>
        requires { (turn.queue ≡ (M.outbox_of mailbox).queue) × (turn.last ≡ 0) }
        ensures new { (result.put ≡ []) × (result.is_waiting ≡ false) }
        ensures turn { result.has_turn ≡ true }
        ensures outbox { result.outbox ≡ M.outbox_of mailbox }
    {
        let seat = mailbox.outbox().seat();
        OwnOutbox {
            mailbox,
            seat,
            turn: Some(turn),
            is_waiting: false,
        }
    }

    /// Another handle of the mailbox, for the bus.
    pub fn share(&self) -> Result<M, AllocError>
        ensures { IfOk result (λ mailbox. M.outbox_of mailbox ≡ self.now.outbox) }
    {
        self.mailbox.share()
    }

    /// The outbox's turn, for the bus. It is there until it was taken.
    pub(crate) fn take_turn(&mut self) -> Option<Turn>
        ensures turn { IfSome result (λ t. (t.queue ≡ self.old.outbox.queue) × (t.last ≡ 0)) }
        ensures there { is_some result ≡ self.old.has_turn }
        ensures taken { self.new ≡ without_turn self.old }
    {
        self.turn.take()
    }

    /// Puts a message that is no broadcast.
    ///
    /// # Errors
    ///
    /// `Slow` if the outbox is full or shut. Nothing is put then, and the outbox is known to be shut.
    pub fn put<W: Wait>(&mut self, rt: &W, message: Item) -> Result<(), AnswerError>
        requires mark { message.mark ≡ None }
        requires place { message.place ≡ None }
        ensures put { MatchResult result (λ _. self.new ≡ after_own_put message self.old) (λ error. (error ≡ AnswerError.Slow) × (self.new ≡ after_refusal error self.old)) }
        ensures slow { IfErr result (λ error. IsShutIf error self.new) }
        ensures outbox { self.new.outbox ≡ self.old.outbox }
    {
        self.is_waiting = true;
        match self.mailbox.outbox().put(rt, &mut self.seat, message) {
            Ok(()) => Ok(()),
            Err(_) => Err(AnswerError::Slow),
        }
    }

    /// What is counted of the client.
    pub(crate) fn tally(&self) -> &Tally {
        self.mailbox.outbox().tally()
    }

    /// Whether the outbox was shut, since a message found no room. Once shut it stays so.
    pub fn is_shut(&mut self) -> bool
        ensures shut { MatchBool result (self.new ≡ record self.old { knows_shut = true }) (self.new ≡ self.old) }
        ensures stays { self.old.knows_shut ≡ true → IsTrue result }
    {
        self.mailbox.outbox().is_shut(&mut self.seat)
    }

    /// Writes out what was put since the last call.
    pub fn push_out<W: Wait>(&mut self, rt: &W)
        ensures { self.new ≡ record self.old { is_waiting = false } }
    {
        if self.is_waiting {
            self.is_waiting = false;
            self.mailbox.push_out(rt);
        }
    }
}
