//! The command `dbusfan watch`: what goes over a bus, by match rules or by a program of one's own, and what a capture has.
//! The program above calls `watch` with the words after the command's name.
#![tactic(auto)]

mod arguments;
mod asking;
mod call_text;
mod calls;
mod connection_rules;
mod counts;
mod criteria;
mod entry;
mod error;
mod expression;
mod form;
mod live;
mod option_values;
mod options;
mod owners;
mod plan;
mod reading;
mod reasons;
mod sayings;
mod screen;
mod selection;
mod senders;
mod shown_text;
mod sink;
mod stamp;
mod style;
mod top;
mod words;
mod zone;

pub use entry::watch;
pub use error::Fault;
pub use options::Options;
pub use style::{Device, Style};
pub use words::{Key, Word};
