//! Values of D-Bus messages, in the wire format. The layer above uses that a value is read exactly where
//! bytes spell it, and that the first fault is named otherwise.
#![tactic(auto)]

mod arg;
mod args;
mod basic_form;
mod cursor;
mod error;
mod fixed_len;
mod order;
mod reading;
mod skip;
mod skip_text;
mod text;
mod value;

pub use arg::Arg;
pub use args::{Args, MAX_LEVELS};
pub use cursor::{Cursor, are_zeros, padding};
pub use error::MsgError;
pub use order::Order;
pub use reading::{members_reading, value_reading};
pub use text::TextType;
pub use value::{check_members, check_value};
