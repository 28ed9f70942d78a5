// A message that is written from where it lies.

ghost use Rattle.std.specs.Prelude.{◌≡◌, [], drop, unwrap_or};

use outbox::Delivery;
use std::marker::Model;

/// A message of which the first bytes were written. Contracts see the bytes that are left.
#[derive(Drop)]
pub(crate) struct WholeMessage {
    message: Delivery,
    written: usize,
}

impl Model for WholeMessage {
    ghost use Rattle.std.specs.Prelude.{◌≤◌, ℕ, List, drop, length};

    ghost Value = { List ℕ };

    ghost view = { λ l. drop l.written l.message.bytes };

    ghost invariant = { λ l. l.written ≤ length l.message.bytes };
}

impl WholeMessage {
    /// A message of which nothing was written.
    pub(crate) fn new(message: Delivery) -> WholeMessage
        ensures { result ≡ message.bytes }
    {
        WholeMessage {
            message,
            written: 0,
        }
    }

    /// The bytes that are left.
    pub(crate) fn as_slice(&self) -> &[u8]
        ensures { result.now ≡ self.now }
    {
        &self.message.bytes().as_slice()[self.written..]
    }

    /// What is left once `count` bytes more were written.
    pub(crate) fn advance(self, count: usize) -> Option<WholeMessage>
        ensures { unwrap_or result [] ≡ drop count self }
    {
        if count >= self.message.bytes().len() - self.written {
            return None;
        }
        let WholeMessage { message, written } = self;
        Some(WholeMessage {
            message,
            written: written + count,
        })
    }
}
