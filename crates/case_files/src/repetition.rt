// A part of a field that stands many times, as the long programs need it: `\{255*TEXT\}` is TEXT 255 times.

use crate::error::LineError;
use std::alloc::AllocError;

/// A repetition whose end is still to come: how often its bytes stand, and the bytes before it.
#[derive(Drop)]
pub(crate) struct Repetition {
    pub(crate) count: usize,
    pub(crate) before: Vec<u8>,
}

impl Repetition {
    /// The bytes before it, and then its own as often as they stand.
    pub(crate) fn end(self, repeated: &[u8]) -> Result<Vec<u8>, AllocError> {
        let Repetition { count, before } = self;
        let mut bytes = before;
        for _ in 0..count {
            bytes.extend_from_slice(repeated)?;
        }
        Ok(bytes)
    }
}

/// The count before the first `*`, and what follows that.
pub(crate) fn count(letters: &[u8]) -> Result<(usize, &[u8]), LineError> {
    let text = std::str::from_utf8(letters)?;
    let (digits, after) = text.split_once('*').ok_or(LineError::Unreadable)?;
    let count = digits.parse().map_err(|_| LineError::Unreadable)?;
    Ok((count, after.as_bytes()))
}
