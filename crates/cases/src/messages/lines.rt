// The lines of messages.

use case_files::{Fields, Judge, LineError};
use message_view::View;
use std::alloc::Global;
use value_text::{TextError, json_line, message_line};

/// A message: its line without the line feed, or the fault of the message.
pub(crate) struct Lines;

impl Judge for Lines {
    const INPUTS: usize = 1;

    fn came(&self, alloc: Global, inputs: &Fields) -> Result<String, LineError> {
        let bytes = inputs.digits(alloc, 0)?;
        match View::read(bytes.as_slice()) {
            Ok(view) => line_of(alloc, message_line(alloc, &view)),
            Err(fault) => Ok(String::from_str(alloc, fault.name())?),
        }
    }
}

/// A message: its line of JSON at the time 0, without the line feed, or the fault of the message.
pub(crate) struct JsonLines;

impl Judge for JsonLines {
    const INPUTS: usize = 1;

    fn came(&self, alloc: Global, inputs: &Fields) -> Result<String, LineError> {
        let bytes = inputs.digits(alloc, 0)?;
        match View::read(bytes.as_slice()) {
            Ok(view) => line_of(alloc, json_line(alloc, &view, 0)),
            Err(fault) => Ok(String::from_str(alloc, fault.name())?),
        }
    }
}

/// The line of a message, or why there is none.
fn line_of(alloc: Global, line: Result<Vec<u8>, TextError>) -> Result<String, LineError> {
    match line {
        Ok(line) => Ok(String::from_str(alloc, text_of(&line))?),
        Err(error) => Ok(format!(in alloc; "{error}")?),
    }
}

/// The text of a line up to its line feed.
fn text_of(line: &[u8]) -> &str {
    match std::str::from_utf8(line) {
        Ok(text) => text.strip_suffix('\n').unwrap_or("no line feed"),
        Err(_) => "no text",
    }
}
