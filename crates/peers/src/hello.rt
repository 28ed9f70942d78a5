// How a client joins the bus, and what Hello is answered.

ghost use Rattle.std.specs.Prelude.{◌≡◌, IfErr};
ghost use Rattle.peers.specs.Answers.{IsPutAt, IsShutIf, TurnsAwayIf, UnlessShut};
ghost use Rattle.peers.specs.Arrival.{Joins, Registers};
ghost use Rattle.peers.specs.PeerState.{name_of};
ghost use Rattle.peers.specs.Queries.{RepliesTextBy};

use crate::answers::error_bytes;
use crate::context::Context;
use crate::error::AnswerError;
use crate::own_outbox::OwnOutbox;
use crate::peer::Peer;
use crate::refused::Refused;
use crate::request::Request;
use crate::serial::Serials;
use bus_messages::{Body, ErrorName, UniqueName};
use outbox::Item;
use router::{BusBrand, Control, Mailbox, Pass, RouteLists, Standing};
use std::sync::Wait;

/// Connects a pass, whose messages go to the client's outbox, under the bus's lock. The bus gets the outbox's turn.
///
/// # Errors
///
/// The refusal of the bus, and `NoMemory`, also if the turn was taken before. Nothing is published then.
pub fn join<B: BusBrand, M: Mailbox, R: Wait + Drop>(
    control: &mut Control<B, M, R>,
    pass: &mut Pass<B, M>,
    own: &mut OwnOutbox<M>,
) -> Result<(), Refused>
    ensures joins { Joins M.outbox_of own.old pass.old control.old result own.new pass.new control.new }
    ensures outbox { own.new.outbox ≡ own.old.outbox }
{
    let mailbox = own.share()?;
    let Some(turn) = own.take_turn() else {
        return Err(Refused::Error(ErrorName::NoMemory));
    };
    match control.connect(pass, mailbox, turn) {
        Ok(_) => Ok(()),
        Err(error) => Err(Refused::from(error)),
    }
}

/// Answers a Hello that is refused, if its caller waits for an answer. The client has no name that the answer could bear.
///
/// # Errors
///
/// `Slow`, and `NoMemory` if not even the error NoMemory could be built.
pub fn put_refusal<B: BusBrand, M: Mailbox, W: Wait, R: Wait + Drop>(
    context: &Context<'_, B, M, W, R>,
    own: &mut OwnOutbox<M>,
    request: Request,
    name: ErrorName,
) -> Result<(), AnswerError>
    ensures answer { TurnsAwayIf request.wants_answer request name own.old result own.new }
    ensures slow { IfErr result (λ error. IsShutIf error own.new) }
    ensures outbox { own.new.outbox ≡ own.old.outbox }
{
    if !request.wants_answer {
        return Ok(());
    }
    let serial = Serials::new().take();
    let bytes = error_bytes(context.alloc, serial, None, request, name)?;
    context.show(None, &bytes);
    match Item::new(context.alloc, bytes, None) {
        Ok(message) => own.put(context.rt, message),
        Err(_) => Err(AnswerError::NoMemory),
    }
}

impl<B: BusBrand, M: Mailbox> Peer<B, M> {
    /// Answers Hello with the client's name, and announces it, by who has held the lock of the bus since the client joined it. Nobody
    /// gets one of these messages before all are put.
    ///
    /// # Errors
    ///
    /// `Slow` if the answer has no room, and `NoMemory` if memory was refused or the bus has ended. The name is announced
    /// even if it isn't answered.
    pub fn register<W: Wait, R: Wait + Drop>(
        &mut self,
        context: &Context<'_, B, M, W, R>,
        lists: &mut RouteLists,
        control: &mut Control<B, M, R>,
        request: Request,
    ) -> Result<(), AnswerError>
        ensures registered { Registers M.outbox_of control.old.history request self.old result self.new }
        ensures error { UnlessShut request.wants_answer result self.new }
        ensures control { control.new ≡ control.old }
    {
        self.pass.hold(context.alloc);
        let answered = self.answer_hello(context, control, request);
        let announced = self.announce_arrival(context, lists, control);
        self.pass.release();
        answered.and(announced)
    }

    // Answers Hello with the client's name, at the place of the command that has made its connection.
    fn answer_hello<W: Wait, R: Wait + Drop>(
        &mut self,
        context: &Context<'_, B, M, W, R>,
        control: &mut Control<B, M, R>,
        request: Request,
    ) -> Result<(), AnswerError>
        ensures answer { RepliesTextBy (IsPutAt Standing.Last M.outbox_of control.old.history) request (name_of self.old) self.old result self.new }
        ensures error { UnlessShut request.wants_answer result self.new }
        ensures control { control.new ≡ control.old }
    {
        if request.wants_answer {
            let name = UniqueName::new(self.pass.connection());
            let bytes = self.reply_bytes(context.alloc, request, Body::Text(name.as_str()))?;
            return self.put_placed(context, control, Standing::Last, bytes);
        }
        Ok(())
    }
}
