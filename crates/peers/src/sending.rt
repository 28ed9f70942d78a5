// What a client sends to others.

ghost use Rattle.std.specs.Prelude.{◌≡◌, IfOk};
ghost use Rattle.message_view.specs.Message.{Message};
ghost use Rattle.message_view.specs.Valid.{Valid};
ghost use Rattle.message_build.specs.Stamped.{Stamps};
ghost use Rattle.unique_name.specs.UniqueNames.{unique_name};
ghost use Rattle.peers.specs.Answers.{SlowIfShut};
ghost use Rattle.peers.specs.Calling.{HasSent, GoesOn};
ghost use Rattle.peers.specs.Passing.{HasBroadcast, SendsStamped, SendsAtOnce, WentSo, Concludes, GivesUp, with_pass};
ghost use Rattle.peers.specs.PeerState.{name_of};

use crate::context::Context;
use crate::error::AnswerError;
use crate::peer::Peer;
use crate::refused::Refused;
use crate::request::Request;
use bus_messages::{Bytes, ErrorName, Exceeded, UniqueName};
use message_build::{StampError, stamp};
use message_view::{Kind, View};
use outbox::Counts;
use router::{BusBrand, BusError, Mailbox, RouteLists, Sent, Source};
use std::alloc::Global;
use std::sync::Wait;

impl<B: BusBrand, M: Mailbox> Peer<B, M> {
    /// Passes on a signal without destination, stamped with the client's name, to its recipients. Most broadcasts are for
    /// nobody, and aren't even stamped, unless somebody watches the bus. One that would be above the limits with its sender is dropped.
    ///
    /// # Errors
    ///
    /// `NoMemory` if memory was refused or the bus has ended.
    pub(crate) fn send_broadcast<W: Wait, R: Wait + Drop>(
        &mut self,
        context: &Context<'_, B, M, W, R>,
        lists: &mut RouteLists,
        view: &View<'_>,
    ) -> Result<(), AnswerError>
        ensures { HasBroadcast M.outbox_of view.now self.old result self.new }
    {
        if self.reaches_nobody(context, view) {
            return Ok(());
        }
        match stamp_message(context.alloc, view, &self.name) {
            Ok(bytes) => {
                let stamped = View::of_message(bytes.as_slice());
                self.broadcast(context, &stamped, &bytes, lists)
            }
            Err(StampError::TooLarge) => Ok(()),
            Err(StampError::NoMemory) => Err(AnswerError::NoMemory),
        }
    }

    /// Passes on a message to the owner of a name, stamped with the client's name. A reply goes only to who waits for it.
    ///
    /// # Errors
    ///
    /// `Slow` if the client's own answer has no room, `NoMemory`.
    pub(crate) fn send_to<W: Wait, R: Wait + Drop>(
        &mut self,
        context: &Context<'_, B, M, W, R>,
        view: &View<'_>,
        to: &str,
    ) -> Result<(), AnswerError>
        ensures outcome { HasSent M.outbox_of context.now.shares view.now to.now self.old result self.new }
        ensures slow { SlowIfShut result self.new }
    {
        match stamp_message(context.alloc, view, &self.name) {
            Ok(bytes) => self.send_stamped(context, view, to, &bytes),
            Err(StampError::TooLarge) => {
                self.give_up(context, view, Refused::beyond(Exceeded::MessageLen))
            }
            Err(StampError::NoMemory) => {
                self.give_up(context, view, Refused::Error(ErrorName::NoMemory))
            }
        }
    }

    fn send_stamped<W: Wait, R: Wait + Drop>(
        &mut self,
        context: &Context<'_, B, M, W, R>,
        view: &View<'_>,
        to: &str,
        bytes: &Bytes,
    ) -> Result<(), AnswerError>
        ensures outcome { GoesOn M.outbox_of context.now.shares view.now to.now bytes.now self.old result self.new }
        ensures slow { SlowIfShut result self.new }
    {
        self.own.tally().add(Counts {
            unicasts: 1,
            ..Counts::none()
        });
        let number = Some(self.pass.connection());
        context.show(number, bytes);
        match view.kind() {
            Kind::MethodCall => self.send_call(context, view, to, bytes),
            Kind::MethodReturn => self.send_reply(context, view, to, bytes),
            Kind::Error => self.send_reply(context, view, to, bytes),
            _ => self.deliver(context, view, to, bytes),
        }
    }

    /// Puts a stamped message into the outbox of the owner of a name.
    ///
    /// # Errors
    ///
    /// As those of `send_to`.
    pub(crate) fn deliver<W: Wait, R: Wait + Drop>(
        &mut self,
        context: &Context<'_, B, M, W, R>,
        view: &View<'_>,
        to: &str,
        bytes: &Bytes,
    ) -> Result<(), AnswerError>
        ensures outcome { SendsStamped M.outbox_of view.now to.now bytes.now self.old result self.new }
        ensures slow { SlowIfShut result self.new }
    {
        let sent = self.send_by_name(context, to, bytes);
        if let Ok(Sent::NoOwner) = sent {
            return self.deliver_at_last(context, view, to, bytes);
        }
        self.conclude(context, view, sent)
    }

    // Looks once more for the owner of a name, under the lock of the bus, and says that there is none: so nobody is told that before
    // it is announced to all that the last owner has lost the name, nor after it is announced who has it next.
    fn deliver_at_last<W: Wait, R: Wait + Drop>(
        &mut self,
        context: &Context<'_, B, M, W, R>,
        view: &View<'_>,
        to: &str,
        bytes: &Bytes,
    ) -> Result<(), AnswerError>
        ensures outcome { SendsAtOnce M.outbox_of view.now to.now bytes.now self.old result self.new }
        ensures slow { SlowIfShut result self.new }
    {
        let control = context.bus.control(context.rt);
        let context = &context.under(&control);
        let sent = self.send_by_name(context, to, bytes);
        self.conclude(context, view, sent)
    }

    /// Puts a stamped message into the outbox of the owner of a name.
    pub(crate) fn send_by_name<W: Wait, R: Wait + Drop>(
        &mut self,
        context: &Context<'_, B, M, W, R>,
        to: &str,
        bytes: &Bytes,
    ) -> Result<Sent, BusError>
        ensures sent { WentSo M.outbox_of to.now bytes.now self.old.pass result self.new.pass }
        ensures same { self.new ≡ with_pass self.old self.new.pass }
    {
        self.pass
            .send_to(context.rt, context.alloc, Source::Own, to, bytes)
    }

    /// What comes of a message for its sender, by what became of it. An outbox that is full drops it.
    ///
    /// # Errors
    ///
    /// As those of `send_to`.
    pub(crate) fn conclude<W: Wait, R: Wait + Drop>(
        &mut self,
        context: &Context<'_, B, M, W, R>,
        view: &View<'_>,
        sent: Result<Sent, BusError>,
    ) -> Result<(), AnswerError>
        ensures outcome { Concludes view.now sent self.old result self.new }
        ensures slow { SlowIfShut result self.new }
    {
        match sent {
            Ok(Sent::Put(_)) => Ok(()),
            Ok(Sent::Full(_)) => Ok(()),
            Ok(Sent::NoOwner) => {
                self.give_up(context, view, Refused::Error(ErrorName::ServiceUnknown))
            }
            Err(error) => self.give_up(context, view, Refused::from(error)),
        }
    }

    /// A message that isn't passed on: a call whose caller waits is answered with the error. Another message is dropped;
    /// but none is lost for want of memory without a word: that ends the session.
    pub(crate) fn give_up<W: Wait, R: Wait + Drop>(
        &mut self,
        context: &Context<'_, B, M, W, R>,
        view: &View<'_>,
        why: Refused,
    ) -> Result<(), AnswerError>
        ensures outcome { GivesUp view.now why self.old result self.new }
        ensures slow { SlowIfShut result self.new }
    {
        let request = Request::of(view);
        if view.kind() == Kind::MethodCall && request.wants_answer {
            return self.refuse(context, request, why);
        }
        match why {
            Refused::Ended | Refused::Error(ErrorName::NoMemory) => Err(AnswerError::NoMemory),
            Refused::Error(_) => Ok(()),
        }
    }
}

/// The message as it is passed on, with its sender.
pub(crate) fn stamp_message(
    alloc: Global,
    view: &View<'_>,
    sender: &UniqueName,
) -> Result<Bytes, StampError>
    ensures stamps { (m : Message) → Valid view.now m → Stamps m (unique_name sender.now) result }
    ensures valid { IfOk result (λ bytes. (m : Message) × Valid bytes m) }
{
    match stamp(alloc, view, sender.as_str()) {
        Ok(bytes) => match Bytes::from_vec(bytes) {
            Ok(bytes) => Ok(bytes),
            Err(_) => Err(StampError::NoMemory),
        },
        Err(error) => Err(error),
    }
}
