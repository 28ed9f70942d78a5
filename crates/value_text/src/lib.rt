//! Messages as lines of text. The layer above uses that a line is printable ASCII and one line feed, whatever bytes the
//! message has, and that the hexadecimal line is the message's bytes.
#![tactic(auto)]

mod basic;
mod body;
mod double;
mod element;
mod error;
mod json;
mod line;
mod message;
mod notation;
mod value;

pub use error::TextError;
pub use json::json_line;
pub use line::Line;
pub use message::{Ends, hex_line, line_between, message_line};
pub use notation::Notation;
pub use value::write_value;
