// How long a message will be, as its first bytes say.

use super::headers::validity;
use case_files::{Fields, Judge, LineError};
use message_view::{MsgError, View, frame_len};
use std::alloc::{AllocError, Global};
use std::fmt::Write;

/// Adds the length of the message, `more` where that takes more bytes, or the fault.
fn push_frame(words: &mut String, bytes: &[u8]) -> Result<(), AllocError> {
    match frame_len(bytes) {
        Ok(Some(len)) => write!(words, "{len}"),
        Ok(None) => words.push_str("more"),
        Err(fault) => words.push_str(fault.name()),
    }
}

/// The first bytes of a message: its length, and what reading them as a message says.
pub(crate) struct Frames;

impl Judge for Frames {
    const INPUTS: usize = 1;

    fn came(&self, alloc: Global, inputs: &Fields) -> Result<String, LineError> {
        let bytes = inputs.digits(alloc, 0)?;
        let mut words = String::new(alloc);
        push_frame(&mut words, bytes.as_slice())?;
        words.push(' ')?;
        words.push_str(validity(bytes.as_slice()))?;
        Ok(words)
    }
}

/// A message: the lengths at which its first bytes say more or less than `Short`, the frame's length from 16 bytes on.
pub(crate) struct Fronts;

impl Judge for Fronts {
    const INPUTS: usize = 1;

    fn came(&self, alloc: Global, inputs: &Fields) -> Result<String, LineError> {
        let bytes = inputs.digits(alloc, 0)?;
        let mut words = String::new(alloc);
        match other_front(bytes.as_slice()) {
            Some(len) => write!(words, "another at {len} bytes")?,
            None => push_frame(&mut words, bytes.as_slice())?,
        }
        Ok(words)
    }
}

/// The length of the first bytes that say another thing than those of a message that goes on.
fn other_front(bytes: &[u8]) -> Option<usize> {
    let whole = frame_len(bytes);
    for len in 0..bytes.len() {
        let front = &bytes[..len];
        let frame = if len < 16 { Ok(None) } else { whole };
        if frame_len(front) != frame || View::read(front).err() != Some(MsgError::Short) {
            return Some(len);
        }
    }
    None
}
