// Calls that clients make of one another, and their replies.

ghost use Rattle.std.specs.Prelude.{◌≡◌, ◌<◌};
ghost use Rattle.peers.specs.Answers.{SlowIfShut};
ghost use Rattle.peers.specs.Calling.{SendsCall, CallsWaiting, CallsStamped, CallsAtOnce, SendsReply, AnswersCallers, AnswersCaller, EndsCalls, callee_of, remembered};

use crate::context::Context;
use crate::error::AnswerError;
use crate::peer::Peer;
use crate::refused::Refused;
use crate::request::Request;
use bus_messages::{Bytes, ErrorName, Exceeded, UniqueName, error};
use message_view::View;
use router::{BusBrand, BusError, Mailbox, OpenCall, OpenCalls, SHARDS, Sent};
use std::sync::Wait;

impl<B: BusBrand, M: Mailbox> Peer<B, M> {
    /// Passes on a stamped call. One whose caller waits for the reply is remembered, within the client's share of calls that
    /// wait; no reply comes before that.
    ///
    /// # Errors
    ///
    /// As those of `send_to`.
    pub(crate) fn send_call<W: Wait, R: Wait + Drop>(
        &mut self,
        context: &Context<'_, B, M, W, R>,
        view: &View<'_>,
        to: &str,
        bytes: &Bytes,
    ) -> Result<(), AnswerError>
        ensures outcome { SendsCall M.outbox_of context.now.shares view.now to.now bytes.now self.old result self.new }
        ensures slow { SlowIfShut result self.new }
    {
        let request = Request::of(view);
        if !request.wants_answer {
            return self.deliver(context, view, to, bytes);
        }
        let mut calls = context.bus.calls_of(context.rt, self.pass.connection());
        self.call_and_wait(context, &mut calls, view, request, to, bytes)
    }

    // Passes on a call whose caller waits, and remembers it among these, if the client's share has room.
    fn call_and_wait<W: Wait, R: Wait + Drop>(
        &mut self,
        context: &Context<'_, B, M, W, R>,
        calls: &mut OpenCalls,
        view: &View<'_>,
        request: Request,
        to: &str,
        bytes: &Bytes,
    ) -> Result<(), AnswerError>
        ensures outcome { CallsWaiting M.outbox_of context.now.shares request view.now to.now bytes.now calls.old.calls self.old result calls.new.calls self.new }
        ensures slow { SlowIfShut result self.new }
    {
        if calls.count_of(self.pass.connection()) >= context.shares.calls as usize {
            return self.give_up(context, view, Refused::beyond(Exceeded::Calls));
        }
        if calls.reserve().is_err() {
            return self.give_up(context, view, Refused::Error(ErrorName::NoMemory));
        }
        self.call_remembered(context, calls, view, request, to, bytes)
    }

    // Passes on a call for which there is room, and remembers it.
    fn call_remembered<W: Wait, R: Wait + Drop>(
        &mut self,
        context: &Context<'_, B, M, W, R>,
        calls: &mut OpenCalls,
        view: &View<'_>,
        request: Request,
        to: &str,
        bytes: &Bytes,
    ) -> Result<(), AnswerError>
        requires room { 0 < calls.old.room }
        ensures outcome { CallsStamped M.outbox_of request view.now to.now bytes.now calls.old.calls self.old result calls.new.calls self.new }
        ensures slow { SlowIfShut result self.new }
    {
        let caller = self.pass.connection();
        let sent = self.send_by_name(context, to, bytes);
        if let Ok(Sent::NoOwner) = sent {
            return self.call_at_last(context, calls, view, request, to, bytes);
        }
        remember(calls, caller, request.serial, &sent);
        self.conclude(context, view, sent)
    }

    // Looks once more for the owner of a name, and says that there is none, under the lock of the bus, as `deliver` does.
    fn call_at_last<W: Wait, R: Wait + Drop>(
        &mut self,
        context: &Context<'_, B, M, W, R>,
        calls: &mut OpenCalls,
        view: &View<'_>,
        request: Request,
        to: &str,
        bytes: &Bytes,
    ) -> Result<(), AnswerError>
        requires room { 0 < calls.old.room }
        ensures outcome { CallsAtOnce M.outbox_of request view.now to.now bytes.now calls.old.calls self.old result calls.new.calls self.new }
        ensures slow { SlowIfShut result self.new }
    {
        let control = context.bus.control(context.rt);
        let context = &context.under(&control);
        let caller = self.pass.connection();
        let sent = self.send_by_name(context, to, bytes);
        remember(calls, caller, request.serial, &sent);
        self.conclude(context, view, sent)
    }

    /// Passes on a stamped reply to the client that waits for it. One that nobody waits for is dropped.
    ///
    /// # Errors
    ///
    /// As those of `send_to`.
    pub(crate) fn send_reply<W: Wait, R: Wait + Drop>(
        &mut self,
        context: &Context<'_, B, M, W, R>,
        view: &View<'_>,
        to: &str,
        bytes: &Bytes,
    ) -> Result<(), AnswerError>
        ensures outcome { SendsReply M.outbox_of view.now to.now bytes.now self.old result self.new }
        ensures slow { SlowIfShut result self.new }
    {
        let Some(call) = self.call_answered(view, to) else {
            return Ok(());
        };
        let mut calls = context.bus.calls_of(context.rt, call.caller);
        if !calls.has(call) {
            return Ok(());
        }
        let sent = self.deliver(context, view, to, bytes);
        if sent.is_ok() {
            calls.remove(call);
        }
        sent
    }

    // The call of the connection with this name that the reply is to.
    fn call_answered(&self, view: &View<'_>, to: &str) -> Option<OpenCall> {
        match (UniqueName::number_of(to), view.reply_serial()) {
            (Some(caller), Some(serial)) => Some(OpenCall {
                caller,
                serial,
                callee: self.pass.connection(),
            }),
            _ => None,
        }
    }

    /// Ends the calls that wait, of a client whose pass is closed: nobody waits for the replies to its own, and who waits
    /// for its reply is answered NoReply.
    ///
    /// # Errors
    ///
    /// As those of `announce`.
    pub(crate) fn end_calls<W: Wait, R: Wait + Drop>(
        &mut self,
        context: &Context<'_, B, M, W, R>,
    ) -> Result<(), AnswerError>
        ensures { AnswersCallers M.outbox_of self.old result self.new }
    {
        let number = self.pass.connection();
        context
            .bus
            .calls_of(context.rt, number)
            .remove_calls_of(number);
        let mut answered = Ok(());
        for shard in 0..SHARDS {
            let mut calls = context.bus.calls_of(context.rt, shard);
            let told = self.end_calls_to(context, number, &mut calls);
            answered = answered.and(told);
        }
        answered
    }

    // Ends the calls to this connection that are among these.
    fn end_calls_to<W: Wait, R: Wait + Drop>(
        &mut self,
        context: &Context<'_, B, M, W, R>,
        callee: u64,
        calls: &mut OpenCalls,
    ) -> Result<(), AnswerError>
        ensures { EndsCalls M.outbox_of callee calls.old.calls self.old result calls.new.calls self.new }
    {
        let mut answered = Ok(());
        'calls: while let Some(call) = calls.take_call_to(callee) {
            let told = self.answer_caller(context, call);
            answered = answered.and(told);
        }
        answered
    }

    fn answer_caller<W: Wait, R: Wait + Drop>(
        &mut self,
        context: &Context<'_, B, M, W, R>,
        call: OpenCall,
    ) -> Result<(), AnswerError>
        ensures { AnswersCaller M.outbox_of call.caller call.serial self.old result self.new }
    {
        let to = UniqueName::new(call.caller);
        let serial = self.serials.take();
        let name = Some(to.as_str());
        let built_message = error(context.alloc, serial, name, call.serial, ErrorName::NoReply);
        self.tell(context, &to, built_message)
    }
}

// Remembers a call that went to somebody, for which there is room.
fn remember(calls: &mut OpenCalls, caller: u64, serial: u32, sent: &Result<Sent, BusError>)
    requires { 0 < calls.old.room }
    ensures { calls.new.calls ≡ remembered caller serial sent.now calls.old.calls }
{
    if let Some(callee) = callee_of(sent) {
        calls.add(OpenCall {
            caller,
            serial,
            callee,
        });
    }
}

// The connection that a call was for. One whose outbox is shut is about to leave, and who waits is told so then.
fn callee_of(sent: &Result<Sent, BusError>) -> Option<u64>
    ensures { result ≡ callee_of sent.now }
{
    match sent {
        Ok(Sent::Put(callee)) => Some(*callee),
        Ok(Sent::Full(callee)) => Some(*callee),
        _ => None,
    }
}
