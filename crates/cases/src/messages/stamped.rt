// Messages with their sender's name.

use super::spelling::words_of;
use case_files::{Fields, Judge, LineError};
use message_build::{StampError, stamp};
use message_view::View;
use signature::check_bus_name;
use std::alloc::Global;

/// A message and its sender: the message with that sender.
pub(crate) struct Stamped;

impl Judge for Stamped {
    const INPUTS: usize = 2;

    fn came(&self, alloc: Global, inputs: &Fields) -> Result<String, LineError> {
        let bytes = inputs.digits(alloc, 0)?;
        let Ok(view) = View::read(bytes.as_slice()) else {
            return Err(LineError::Unreadable);
        };
        let sender = inputs.text(1)?;
        if !check_bus_name(sender) {
            return Err(LineError::Unreadable);
        }
        match stamp(alloc, &view, sender) {
            Ok(stamped) => words_of(alloc, stamped.as_slice()),
            Err(StampError::NoMemory) => Err(LineError::NoMemory),
            Err(StampError::TooLarge) => Ok(String::from_str(alloc, "TooLarge")?),
        }
    }
}
