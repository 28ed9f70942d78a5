// Bytes that were taken from an outbox and aren't written yet.

ghost use Rattle.std.specs.Prelude.{◌≡◌, ◌≤◌, ◌++◌, ◌==◌, true, [], length, drop, unwrap_or};
ghost use Rattle.members.specs.Waiting.{all_of, first_of};

use crate::batch::{BATCH, Batch};
use crate::whole_message::WholeMessage;
use outbox::Delivery;
use std::alloc::Global;
use std::marker::Model;

/// The bytes of messages, one after the other. Short ones are copied, so that one write sends them together. Written from where
/// it lies is one that is alone, one that is longer than what a batch has left, and one for whose copy memory is refused.
#[derive(Drop)]
pub(crate) struct Unsent {
    // The message before the batch: a short one, to which nothing was added.
    alone: Option<WholeMessage>,
    batch: Batch,
    // The message after the batch.
    next: Option<WholeMessage>,
}

impl Model for Unsent {
    ghost use Rattle.std.specs.Prelude.{[], is_none, unwrap_or};
    ghost use Rattle.members.specs.Waiting.{Waiting};

    ghost Value = { Waiting };

    ghost view = { λ u. record { alone = unwrap_or u.alone []; batch = u.batch; next = unwrap_or u.next []; is_open = is_none u.next } };
}

impl Unsent {
    pub(crate) fn new(alloc: Global) -> Unsent
        ensures { (all_of result ≡ []) × (result.is_open ≡ true) }
    {
        Unsent {
            alone: None,
            batch: Batch::new(alloc),
            next: None,
        }
    }

    /// Whether there is something to write.
    pub(crate) fn is_empty(&self) -> bool
        ensures { result ≡ (length (all_of self.now) == 0) }
    {
        self.as_slice().is_empty()
    }

    /// Whether further messages may be added: none waits after the batch.
    pub(crate) fn is_open(&self) -> bool
        ensures { result ≡ self.now.is_open }
    {
        self.next.is_none()
    }

    /// Adds a message after the others.
    pub(crate) fn add(&mut self, message: Delivery)
        ensures { self.old.is_open ≡ true → all_of self.new ≡ all_of self.old ++ message.bytes }
    {
        if self.is_empty() && message.bytes().len() <= BATCH {
            self.alone = Some(WholeMessage::new(message));
        } else {
            self.batch_alone();
            self.add_after(message);
        }
    }

    /// Copies the message that was alone, if there is one and nothing after it.
    fn batch_alone(&mut self)
        ensures all { all_of self.new ≡ all_of self.old }
        ensures open { self.new.is_open ≡ self.old.is_open }
    {
        if !self.batch.is_empty() {
            return;
        }
        if let Some(alone) = self.alone.take() {
            if !self.batch.add(alone.as_slice()) {
                self.alone = Some(alone);
            }
        }
    }

    /// Adds a message to the batch, or after it.
    fn add_after(&mut self, message: Delivery)
        ensures { self.old.is_open ≡ true → all_of self.new ≡ all_of self.old ++ message.bytes }
    {
        if !self.batch.add(message.bytes().as_slice()) {
            self.next = Some(WholeMessage::new(message));
        }
    }

    /// The bytes to write next.
    pub(crate) fn as_slice(&self) -> &[u8]
        ensures { result.now ≡ first_of self.now }
    {
        let alone = left_of(&self.alone);
        if !alone.is_empty() {
            alone
        } else if !self.batch.is_empty() {
            self.batch.as_slice()
        } else {
            left_of(&self.next)
        }
    }

    /// Drops the first `count` bytes, which were written.
    pub(crate) fn advance(&mut self, count: usize)
        ensures { count ≤ length (first_of self.old) → all_of self.new ≡ drop count (all_of self.old) }
    {
        if !left_of(&self.alone).is_empty() {
            self.alone = rest_of(self.alone.take(), count);
        } else if !self.batch.is_empty() {
            self.batch.advance(count);
        } else {
            self.next = rest_of(self.next.take(), count);
        }
    }

    /// Drops all bytes.
    pub(crate) fn clear(&mut self)
        ensures { all_of self.new ≡ [] }
    {
        self.alone = None;
        self.batch.clear();
        self.next = None;
    }
}

// The bytes that are left of a message, none where there is no message.
fn left_of(message: &Option<WholeMessage>) -> &[u8]
    ensures { result.now ≡ unwrap_or message.now [] }
{
    match message {
        Some(message) => message.as_slice(),
        None => &[],
    }
}

// What is left of a message once `count` bytes more were written.
fn rest_of(message: Option<WholeMessage>, count: usize) -> Option<WholeMessage>
    ensures { unwrap_or result [] ≡ drop count (unwrap_or message []) }
{
    message?.advance(count)
}
