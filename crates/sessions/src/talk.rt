// The talk before messages begin.

ghost use Rattle.std.specs.Prelude.{◌≡◌, ◌⊎◌, ◌≤◌, None, length, take, IfErr, IfOk, false};
ghost use Rattle.auth.specs.Talk.{opening_with, talk, taken_of};
ghost use Rattle.sessions.specs.Steps.{EndsTalk, Hears};

use crate::error::SessionError;
use auth::{Admission, Auth};
use bytes::Bytes;
use outbox::Item;
use peers::{Mailbox, OwnOutbox};
use std::alloc::{AllocError, Global};
use std::sync::Wait;

/// The server's side of a talk, and whether it is over.
#[derive(Drop)]
pub(crate) struct Talk {
    auth: Auth,
    has_begun: bool,
}

impl Talk {
    pub(crate) fn admitting(guid: [u8; 32], admission: Admission) -> Talk
        ensures standing { result.auth ≡ opening_with (record { guid = guid; admission = admission }) }
        ensures begun { result.has_begun ≡ false }
    {
        Talk {
            auth: Auth::admitting(guid, admission),
            has_begun: false,
        }
    }

    /// Whether BEGIN came: what follows are messages.
    pub(crate) fn has_begun(&self) -> bool
        ensures { result ≡ self.now.has_begun }
    {
        self.has_begun
    }

    /// Treats the next line and puts its answer. Answers how many bytes were taken: all of them where the line's end
    /// isn't there.
    ///
    /// # Errors
    ///
    /// `Auth`, `Slow`, `NoMemory`.
    pub(crate) fn take_line<M: Mailbox, W: Wait>(
        &mut self,
        rt: &W,
        alloc: Global,
        own: &mut OwnOutbox<M>,
        bytes: &[u8],
    ) -> Result<usize, SessionError>
        ensures within { IfOk result (λ taken. taken ≤ length bytes.now) }
        ensures taken { IfOk result (λ taken. taken ≡ taken_of self.old.auth bytes.now) }
        ensures heard { IfOk result (λ taken. Hears (take taken bytes.now) self.old.auth self.new.auth self.new.has_begun) }
        ensures led { self.new.auth ≡ (talk self.old.auth (take (taken_of self.old.auth bytes.now) bytes.now)).standing }
        ensures ended { IfErr result (λ error. EndsTalk error self.new.auth) }
        ensures outbox { own.new.outbox ≡ own.old.outbox }
    {
        let Ok(fed) = self.auth.feed(bytes) else {
            return Err(SessionError::Auth);
        };
        self.has_begun = fed.begun;
        put_answer(rt, alloc, own, fed.answer.as_slice())?;
        Ok(fed.taken)
    }
}

// Puts the answer to a line, if there is one.
fn put_answer<M: Mailbox, W: Wait>(
    rt: &W,
    alloc: Global,
    own: &mut OwnOutbox<M>,
    answer: &[u8],
) -> Result<(), SessionError>
    ensures outbox { own.new.outbox ≡ own.old.outbox }
    ensures error { IfErr result (λ error. (error ≡ SessionError.Slow) ⊎ (error ≡ SessionError.NoMemory)) }
{
    if answer.is_empty() {
        return Ok(());
    }
    match message_of(alloc, answer) {
        Ok(message) => Ok(own.put(rt, message)?),
        Err(_) => Err(SessionError::NoMemory),
    }
}

fn message_of(alloc: Global, answer: &[u8]) -> Result<Item, AllocError>
    ensures { IfOk result (λ message. (message.mark ≡ None) × (message.place ≡ None)) }
{
    Item::new(alloc, Bytes::copy_from_slice(alloc, answer)?, None)
}
