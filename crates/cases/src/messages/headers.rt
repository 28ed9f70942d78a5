// Whether messages are valid.

use super::composing::{message, pad};
use case_files::{Fields, Judge, LineError, digits};
use message_view::View;
use std::alloc::Global;

/// `ok`, or the message's fault.
pub(crate) fn validity(bytes: &[u8]) -> &'static str {
    match View::read(bytes) {
        Ok(_) => "ok",
        Err(fault) => fault.name(),
    }
}

/// A message: `ok` or its fault.
pub(crate) struct Messages;

impl Judge for Messages {
    const INPUTS: usize = 1;

    fn came(&self, alloc: Global, inputs: &Fields) -> Result<String, LineError> {
        let bytes = inputs.digits(alloc, 0)?;
        Ok(String::from_str(alloc, validity(bytes.as_slice()))?)
    }
}

/// The kind of a little-endian message without a body, and its header fields divided by bars: `ok` or its fault.
pub(crate) struct HeaderFields;

impl Judge for HeaderFields {
    const INPUTS: usize = 2;

    fn came(&self, alloc: Global, inputs: &Fields) -> Result<String, LineError> {
        let kind = inputs.text(0)?.parse::<u8>()?;
        let mut fields = Vec::new(alloc);
        push_fields(alloc, &mut fields, inputs.text(1)?)?;
        let bytes = message(alloc, kind, fields.as_slice(), &[])?;
        Ok(String::from_str(alloc, validity(bytes.as_slice()))?)
    }
}

/// Adds header fields, each at the next place at which one may begin.
fn push_fields(alloc: Global, bytes: &mut Vec<u8>, fields: &str) -> Result<(), LineError> {
    for field in fields.split('|') {
        pad(bytes)?;
        bytes.extend_from_slice(digits(alloc, field)?.as_slice())?;
    }
    Ok(())
}
