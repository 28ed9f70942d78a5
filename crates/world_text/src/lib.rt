//! Lists of events and their answers as a person writes them, one event a line.
//!
//! The programs that play such lists use `Line::read`, which is exact both ways: a line is read as the event
//! that `event_in` says, and as unreadable where there is none; and `TextAnswer`, whose `{}` is `answer_text`.
#![tactic(auto)]

mod answer;
mod error;
mod event;
mod hex_word;
mod line;
mod list;
mod number;

pub use answer::{ClaimWord, Owner, RefusalWord, TextAnswer};
pub use error::{LineError, ListError};
pub use event::TextEvent;
pub use line::Line;
pub use list::read_list;
