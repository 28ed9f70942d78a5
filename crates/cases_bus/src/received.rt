// What a client got.

use case_files::LineError;
use message_view::{View, frame_len};
use std::alloc::{AllocError, Global};
use std::mem;
use value_text::message_line;

/// What a client has to get next.
#[derive(Drop)]
pub(crate) enum Wanted<'a> {
    /// These bytes.
    Bytes(Vec<u8>),
    /// A message with this line.
    Line(&'a str),
    Nothing,
}

/// What a client got and no line of its case has looked at, as one stream of bytes.
#[derive(Drop)]
pub(crate) struct Received {
    bytes: Vec<u8>,
}

impl Received {
    pub(crate) fn new(alloc: Global) -> Received {
        Received {
            bytes: Vec::new(alloc),
        }
    }

    pub(crate) fn add(&mut self, bytes: &[u8]) -> Result<(), AllocError> {
        self.bytes.extend_from_slice(bytes)
    }

    /// Forgets all.
    pub(crate) fn clear(&mut self) {
        self.bytes.clear();
    }

    /// Looks at what came next: in words, where it isn't what is wanted.
    ///
    /// # Errors
    ///
    /// `NoMemory`.
    pub(crate) fn miss(
        &mut self,
        alloc: Global,
        wanted_event: &Wanted<'_>,
    ) -> Result<Option<String>, LineError> {
        match wanted_event {
            Wanted::Bytes(bytes) => {
                let came = self.take(bytes.len())?;
                if came == *bytes {
                    return Ok(None);
                }
                Ok(Some(spelled_bytes(alloc, came.as_slice())?))
            }
            Wanted::Line(line) => {
                let came = self.take_message()?;
                let words = words_of(alloc, came.as_slice())?;
                Ok(if words.as_str() == *line {
                    None
                } else {
                    Some(words)
                })
            }
            Wanted::Nothing if self.bytes.is_empty() => Ok(None),
            Wanted::Nothing => Ok(Some(spelled_bytes(alloc, self.bytes.as_slice())?)),
        }
    }

    // The first `len` bytes, or all where there are fewer.
    fn take(&mut self, len: usize) -> Result<Vec<u8>, AllocError> {
        let rest = self.bytes.split_off(len.min(self.bytes.len()))?;
        Ok(mem::replace(&mut self.bytes, rest))
    }

    // The first message, or all where none is there whole.
    fn take_message(&mut self) -> Result<Vec<u8>, AllocError> {
        self.take(self.message_len())
    }

    // The length of the first message in bytes: more than there are where it can't be told yet, all where no message is
    // there.
    fn message_len(&self) -> usize {
        match frame_len(self.bytes.as_slice()) {
            Ok(Some(len)) => usize::try_from(len).unwrap_or(usize::MAX),
            Ok(None) => usize::MAX,
            Err(_) => self.bytes.len(),
        }
    }
}

/// A message as a line, or its bytes where they are none.
fn words_of(alloc: Global, bytes: &[u8]) -> Result<String, LineError> {
    let Ok(view) = View::read(bytes) else {
        return spelled_bytes(alloc, bytes);
    };
    let Ok(line) = message_line(alloc, &view) else {
        return Err(LineError::NoMemory);
    };
    let text = std::str::from_utf8(line.as_slice())?;
    Ok(String::from_str(alloc, text.trim_end())?)
}

/// Bytes as digits, or the word nothing.
fn spelled_bytes(alloc: Global, bytes: &[u8]) -> Result<String, LineError> {
    if bytes.is_empty() {
        return Ok(String::from_str(alloc, "nothing")?);
    }
    Ok(hex::encode(alloc, bytes)?)
}
