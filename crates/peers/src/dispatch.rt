// Where a client's message goes.

ghost use Rattle.std.specs.Prelude.{◌≡◌};
ghost use Rattle.message_view.specs.Message.{Message};
ghost use Rattle.message_view.specs.Valid.{Valid};
ghost use Rattle.peers.specs.Answers.{SlowIfShut};
ghost use Rattle.peers.specs.Handling.{CallsBus, Handles, is_for_bus, is_known, is_signal};

use crate::context::Context;
use crate::error::AnswerError;
use crate::identity::BUS_NAME;
use crate::peer::Peer;
use crate::refused::Refused;
use crate::request::Request;
use bus_messages::Call;
use message_view::{Kind, View};
use router::{BusBrand, Mailbox, RouteLists};
use std::sync::Wait;

/// Whether a message is a call of the bus itself.
pub fn is_for_bus(view: &View<'_>) -> bool
    ensures { (m : Message) → Valid view.now m → result ≡ is_for_bus m }
{
    view.kind() == Kind::MethodCall
        && match view.destination() {
            Some(name) => name == BUS_NAME,
            None => true,
        }
}

/// Whether the D-Bus Specification has this kind of messages.
fn is_known(kind: Kind) -> bool
    ensures { result ≡ is_known kind }
{
    !matches!(kind, Kind::Other(_))
}

fn is_signal(kind: Kind) -> bool
    ensures { result ≡ is_signal kind }
{
    matches!(kind, Kind::Signal)
}

impl<B: BusBrand, M: Mailbox> Peer<B, M> {
    /// Handles a message: a call of the bus is answered, a signal without destination is a broadcast, another message with
    /// a destination goes there, and all else is dropped.
    ///
    /// # Errors
    ///
    /// `Monitor` if the client watches the bus. `Slow` if an answer has no room, `NoMemory` if a message can't be passed on
    /// or answered for want of memory.
    pub fn handle<W: Wait, R: Wait + Drop>(
        &mut self,
        context: &Context<'_, B, M, W, R>,
        lists: &mut RouteLists,
        view: &View<'_>,
    ) -> Result<(), AnswerError>
        ensures handled { Handles M.outbox_of context.now.shares view.now self.old result self.new }
        ensures slow { SlowIfShut result self.new }
    {
        if self.pass.is_closed() {
            return Err(AnswerError::Monitor);
        }
        if is_for_bus(view) {
            return self.call_bus(context, lists, view);
        }
        match view.destination() {
            Some(name) if is_known(view.kind()) => self.send_to(context, view, name),
            None if is_signal(view.kind()) => self.send_broadcast(context, lists, view),
            _ => Ok(()),
        }
    }

    fn call_bus<W: Wait, R: Wait + Drop>(
        &mut self,
        context: &Context<'_, B, M, W, R>,
        lists: &mut RouteLists,
        view: &View<'_>,
    ) -> Result<(), AnswerError>
        ensures handled { (m : Message) → Valid view.now m → CallsBus M.outbox_of context.now.shares m self.old result self.new }
        ensures slow { SlowIfShut result self.new }
    {
        self.show(context, view);
        let request = Request::of(view);
        match Call::read(context.alloc, view) {
            Ok(call) => self.perform(context, lists, request, call),
            Err(error) => self.refuse(context, request, Refused::from(error)),
        }
    }
}
