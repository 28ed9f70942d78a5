// Bytes of short messages that one write sends together.

ghost use Rattle.std.specs.Prelude.{◌≡◌, ◌++◌, ◌==◌, [], length, drop, if◌then◌else◌};

use std::alloc::Global;
use std::marker::Model;

/// How many bytes of short messages one write sends together.
pub(crate) const BATCH: usize = 8192;

/// Bytes in memory that is there while some of them are to be written. Contracts see those. The ones before them, which were
/// written, stay until all are, and with them there is never more than a batch, however little each write takes.
#[derive(Drop)]
pub(crate) struct Batch {
    alloc: Global,
    bytes: Vec<u8>,
    written: usize,
}

impl Model for Batch {
    ghost use Rattle.std.specs.Prelude.{◌≤◌, ℕ, List, drop, length};

    ghost Value = { List ℕ };

    ghost view = { λ b. drop b.written b.bytes.items };

    ghost invariant = { λ b. (b.written ≤ length b.bytes.items) × (length b.bytes.items ≤ 8192) };
}

impl Batch {
    /// One without bytes.
    pub(crate) fn new(alloc: Global) -> Batch
        ensures { result ≡ [] }
    {
        Batch {
            alloc,
            bytes: Vec::new(alloc),
            written: 0,
        }
    }

    /// How many bytes are to be written.
    pub(crate) fn len(&self) -> usize
        ensures { result ≡ length self.now }
    {
        self.bytes.len() - self.written
    }

    /// Whether none is.
    pub(crate) fn is_empty(&self) -> bool
        ensures { result ≡ (length self.now == 0) }
    {
        self.len() == 0
    }

    /// The bytes to be written.
    pub(crate) fn as_slice(&self) -> &[u8]
        ensures { result.now ≡ self.now }
    {
        &self.bytes.as_slice()[self.written..]
    }

    /// Copies bytes after the others; not where that would be more than a batch, or memory for them is refused.
    pub(crate) fn add(&mut self, bytes: &[u8]) -> bool
        ensures { self.new ≡ (if result then self.old ++ bytes.now else self.old) }
    {
        if bytes.len() > BATCH - self.bytes.len() {
            return false;
        }
        self.bytes.extend_from_slice(bytes).is_ok()
    }

    /// Drops the first `count` bytes, which were written, and the memory once all of them are.
    pub(crate) fn advance(&mut self, count: usize)
        ensures { self.new ≡ drop count self.old }
    {
        if count >= self.len() {
            self.clear();
        } else {
            self.written += count;
        }
    }

    /// Drops all bytes.
    pub(crate) fn clear(&mut self)
        ensures { self.new ≡ [] }
    {
        self.bytes = Vec::new(self.alloc);
        self.written = 0;
    }
}
