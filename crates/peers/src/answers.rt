// How a call is answered.

ghost use Rattle.std.specs.Prelude.{◌≡◌, ◌∷◌, [], Some, IfErr, IfOk, option_map};
ghost use Rattle.signature.specs.Name.{bus_name};
ghost use Rattle.bus_messages.specs.Sent.{error_asked};
ghost use Rattle.peers.specs.Answers.{IsRefused, RefusesBy, IsPut, IsPutAt, IsEither, SlowIfShut, UnlessShut, after_serial, fault_asked, reply_with};
ghost use Rattle.peers.specs.LentTexts.{lent_texts};
ghost use Rattle.peers.specs.PeerState.{name_of};
ghost use Rattle.peers.specs.Queries.{RepliesText, RepliesTexts, RepliesTextsBy};
ghost use Rattle.peers.specs.Rows.{Replies, RepliesBy};

use crate::context::Context;
use crate::error::AnswerError;
use crate::identity::BUS_NAME;
use crate::peer::Peer;
use crate::refused::Refused;
use crate::request::Request;
use bus_messages::{Body, Bytes, ErrorName, error, reply};
use router::{BusBrand, Control, Mailbox, Sent, Source, Standing};
use std::alloc::Global;
use std::sync::Wait;

impl<B: BusBrand, M: Mailbox> Peer<B, M> {
    /// Answers a call, if its caller waits for an answer.
    ///
    /// # Errors
    ///
    /// `Slow`, and `NoMemory` if not even the error NoMemory could be built. Nothing is put then.
    pub(crate) fn answer<W: Wait, R: Wait + Drop>(
        &mut self,
        context: &Context<'_, B, M, W, R>,
        request: Request,
        body: Body<'_>,
    ) -> Result<(), AnswerError>
        ensures answer { Replies request body.entry self.old result self.new }
        ensures error { UnlessShut request.wants_answer result self.new }
    {
        if !request.wants_answer {
            return Ok(());
        }
        let bytes = self.reply_bytes(context.alloc, request, body)?;
        self.put(context, bytes)
    }

    /// Answers a call about names under the lock of the bus, if its caller waits for an answer: at the place of what is published,
    /// which the pass has then seen.
    ///
    /// # Errors
    ///
    /// As those of `answer`, and `NoMemory` if the bus has ended.
    pub(crate) fn answer_placed<W: Wait, R: Wait + Drop>(
        &mut self,
        context: &Context<'_, B, M, W, R>,
        control: &mut Control<B, M, R>,
        request: Request,
        told: Body<'_>,
    ) -> Result<(), AnswerError>
        ensures answer { RepliesBy (IsPutAt Standing.State M.outbox_of control.old.history) request told.entry self.old result self.new }
        ensures error { UnlessShut request.wants_answer result self.new }
    {
        if !request.wants_answer {
            return Ok(());
        }
        let bytes = self.reply_bytes(context.alloc, request, told)?;
        let at = Standing::State;
        self.put_placed(context, control, at, bytes)
    }

    /// Answers a call with an error, if its caller waits for an answer.
    ///
    /// # Errors
    ///
    /// As those of `answer`, and `NoMemory` if the bus has ended.
    pub(crate) fn refuse<W: Wait, R: Wait + Drop>(
        &mut self,
        context: &Context<'_, B, M, W, R>,
        request: Request,
        why: Refused,
    ) -> Result<(), AnswerError>
        ensures answer { IsRefused request why self.old result self.new }
        ensures error { UnlessShut request.wants_answer result self.new }
    {
        let Refused::Error(name) = why else {
            return Err(AnswerError::NoMemory);
        };
        if !request.wants_answer {
            return Ok(());
        }
        let bytes = self.fault_bytes(context.alloc, request, name)?;
        self.put(context, bytes)
    }

    /// Answers a call about names with an error, as `answer_placed` does.
    ///
    /// # Errors
    ///
    /// As those of `answer_placed`.
    pub(crate) fn refuse_placed<W: Wait, R: Wait + Drop>(
        &mut self,
        context: &Context<'_, B, M, W, R>,
        control: &mut Control<B, M, R>,
        request: Request,
        why: Refused,
    ) -> Result<(), AnswerError>
        ensures answer { RefusesBy (IsPutAt Standing.State M.outbox_of control.old.history) request why self.old result self.new }
        ensures error { UnlessShut request.wants_answer result self.new }
    {
        let Refused::Error(fault) = why else {
            return Err(AnswerError::NoMemory);
        };
        if !request.wants_answer {
            return Ok(());
        }
        let bytes = self.fault_bytes(context.alloc, request, fault)?;
        self.put_placed(context, control, Standing::State, bytes)
    }

    /// Answers a call with a text, if its caller waits for an answer.
    ///
    /// # Errors
    ///
    /// As those of `answer`.
    pub(crate) fn answer_text<W: Wait, R: Wait + Drop>(
        &mut self,
        context: &Context<'_, B, M, W, R>,
        request: Request,
        text: &str,
    ) -> Result<(), AnswerError>
        ensures answer { RepliesText request text.now self.old result self.new }
        ensures error { UnlessShut request.wants_answer result self.new }
    {
        self.answer(context, request, Body::Text(text))
    }

    /// Answers a call about names with an array of texts, as `answer_placed` does.
    ///
    /// # Errors
    ///
    /// As those of `answer_placed`.
    pub(crate) fn answer_texts_placed<W: Wait, R: Wait + Drop>(
        &mut self,
        context: &Context<'_, B, M, W, R>,
        control: &mut Control<B, M, R>,
        request: Request,
        texts: &[&str],
    ) -> Result<(), AnswerError>
        ensures answer { RepliesTextsBy (IsPutAt Standing.State M.outbox_of control.old.history) request (lent_texts texts.now) self.old result self.new }
        ensures error { UnlessShut request.wants_answer result self.new }
    {
        self.answer_placed(context, control, request, Body::Texts(texts))
    }

    /// Answers a call with the bus's own name alone, if its caller waits for an answer.
    ///
    /// # Errors
    ///
    /// As those of `answer`.
    pub(crate) fn answer_bus_name<W: Wait, R: Wait + Drop>(
        &mut self,
        context: &Context<'_, B, M, W, R>,
        request: Request,
    ) -> Result<(), AnswerError>
        ensures answer { RepliesTexts request (bus_name ∷ []) self.old result self.new }
        ensures error { UnlessShut request.wants_answer result self.new }
    {
        self.answer(context, request, Body::Texts([BUS_NAME].as_slice()))
    }

    /// The bytes of the answer to a call, or of the error NoMemory in its place, with the next serial.
    ///
    /// # Errors
    ///
    /// `NoMemory` if neither could be built.
    pub(crate) fn reply_bytes(
        &mut self,
        alloc: Global,
        request: Request,
        body: Body<'_>,
    ) -> Result<Bytes, AnswerError>
        ensures built { IfOk result (IsEither (reply_with self.old.serial (name_of self.old) request body.entry) (fault_asked self.old request ErrorName.NoMemory)) }
        ensures error { IfErr result (λ error. error ≡ AnswerError.NoMemory) }
        ensures same { self.new ≡ after_serial self.old }
    {
        let serial = self.serials.take();
        let to = Some(self.name.as_str());
        if let Ok(bytes) = reply(alloc, serial, to, request.serial, body) {
            return Ok(bytes);
        }
        error_bytes(alloc, serial, to, request, ErrorName::NoMemory)
    }

    // The bytes of the error that a call is answered with, or of the error NoMemory in its place, with the next serial.
    fn fault_bytes(
        &mut self,
        alloc: Global,
        request: Request,
        name: ErrorName,
    ) -> Result<Bytes, AnswerError>
        ensures built { IfOk result (IsEither (fault_asked self.old request name) (fault_asked self.old request ErrorName.NoMemory)) }
        ensures error { IfErr result (λ error. error ≡ AnswerError.NoMemory) }
        ensures same { self.new ≡ after_serial self.old }
    {
        let serial = self.serials.take();
        let to = Some(self.name.as_str());
        error_bytes(alloc, serial, to, request, name)
    }

    /// Puts a message to the client, held with what its pass holds.
    pub(crate) fn put<W: Wait, R: Wait + Drop>(
        &mut self,
        context: &Context<'_, B, M, W, R>,
        bytes: Bytes,
    ) -> Result<(), AnswerError>
        ensures put { IsPut (λ put. put ≡ bytes) self.old result self.new }
        ensures slow { SlowIfShut result self.new }
    {
        context.show(None, &bytes);
        match self.pass.message(context.alloc, bytes) {
            Ok(message) => self.own.put(context.rt, message),
            Err(_) => Err(AnswerError::NoMemory),
        }
    }

    /// Puts a message that tells of names to the client, under the lock of the bus, at its place in the history, held with what its
    /// pass holds.
    ///
    /// # Errors
    ///
    /// `Slow`, and `NoMemory` if memory was refused or the bus has ended. Nothing is put then.
    pub(crate) fn put_placed<W: Wait, R: Wait + Drop>(
        &mut self,
        context: &Context<'_, B, M, W, R>,
        control: &mut Control<B, M, R>,
        at: Standing,
        message: Bytes,
    ) -> Result<(), AnswerError>
        ensures put { IsPutAt at M.outbox_of control.old.history (λ put. put ≡ message) self.old result self.new }
        ensures slow { SlowIfShut result self.new }
        ensures control { control.new ≡ control.old }
    {
        context
            .bus
            .show_under(context.rt, context.alloc, control, None, &message);
        let sent = control.send_to(
            context.rt,
            context.alloc,
            &mut self.pass,
            at,
            Source::Bus,
            self.name.as_str(),
            &message,
        );
        match sent {
            Ok(Sent::Put(_)) => Ok(()),
            // An outbox that has no room is shut.
            Ok(Sent::Full(_)) if self.own.is_shut() => Err(AnswerError::Slow),
            Ok(_) | Err(_) => Err(AnswerError::NoMemory),
        }
    }
}

/// The bytes of an error, or of the error NoMemory in its place.
///
/// # Errors
///
/// `NoMemory` if neither could be built.
pub(crate) fn error_bytes(
    alloc: Global,
    serial: u32,
    to: Option<&str>,
    request: Request,
    name: ErrorName,
) -> Result<Bytes, AnswerError>
    ensures built { IfOk result (IsEither (error_asked serial (option_map (λ text. text.now) to.entry) request.serial name) (error_asked serial (option_map (λ text. text.now) to.entry) request.serial ErrorName.NoMemory)) }
    ensures error { IfErr result (λ error. error ≡ AnswerError.NoMemory) }
{
    match error(alloc, serial, to, request.serial, name) {
        Ok(bytes) => Ok(bytes),
        Err(_) => {
            error(alloc, serial, to, request.serial, ErrorName::NoMemory).map_err(
                |_| AnswerError::NoMemory,
            )
        }
    }
}
