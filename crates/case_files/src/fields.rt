// The inputs of a case.

use crate::error::LineError;
use std::alloc::Global;

/// The fields of a case between its name and what is wanted, read from their spelling.
#[derive(Drop)]
pub struct Fields {
    fields: Vec<Vec<u8>>,
}

impl Fields {
    pub(crate) fn new(fields: Vec<Vec<u8>>) -> Fields {
        Fields { fields }
    }

    pub fn bytes(&self, index: usize) -> Result<&[u8], LineError> {
        match self.fields.get(index) {
            Some(field) => Ok(field.as_slice()),
            None => Err(LineError::Unreadable),
        }
    }

    pub fn text(&self, index: usize) -> Result<&str, LineError> {
        Ok(std::str::from_utf8(self.bytes(index)?)?)
    }

    /// The bytes of a field's hexadecimal words.
    pub fn digits(&self, alloc: Global, index: usize) -> Result<Vec<u8>, LineError> {
        digits(alloc, self.text(index)?)
    }
}

/// The bytes of hexadecimal words, divided by blanks.
pub fn digits(alloc: Global, words: &str) -> Result<Vec<u8>, LineError> {
    let mut bytes = Vec::new(alloc);
    for word in words.split_whitespace() {
        bytes.extend_from_slice(hex::decode(alloc, word)?.as_slice())?;
    }
    Ok(bytes)
}
