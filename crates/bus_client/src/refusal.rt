// What a bus refuses a call by.

use crate::error::ClientError;
use crate::strings::first_string;
use message_view::View;
use std::alloc::Global;

/// The error that a bus answers a call with.
#[derive(Debug, Drop)]
pub struct Refusal {
    /// The error's name.
    pub name: String,
    /// What the bus says of it, if it says anything.
    pub text: Option<String>,
}

impl Refusal {
    /// What an error says.
    pub(crate) fn of(alloc: Global, message: &[u8]) -> Result<Refusal, ClientError> {
        let view = View::read(message)?;
        Ok(Refusal {
            name: String::from_str(alloc, view.error_name().unwrap_or(""))?,
            text: first_string(alloc, message)?,
        })
    }
}
