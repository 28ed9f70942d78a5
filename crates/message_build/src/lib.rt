//! Building D-Bus messages. What a builder gives is valid, and is what it was asked for. A message that is
//! stamped stays the same but for its sender.
#![tactic(auto)]

mod appending;
mod arguments;
mod body;
mod body_state;
mod builder;
mod error;
mod facts;
mod field;
mod fields;
mod finishing;
mod header;
mod kept_fields;
mod message;
mod stamping;
mod strings;
mod text_lists;

pub use builder::Builder;
pub use error::BuildError;
pub use facts::{Fact, NamedFact};
pub use finishing::{one_answer, valid_at_its_size};
pub use stamping::{StampError, stamp};
pub use text_lists::TextList;
