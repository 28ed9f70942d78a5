//! Help for all commands, the version, and what is wrong with words that no command takes. The programs above use that
//! `text_for` has a text only where some word asks for one.
#![tactic(auto)]

mod commands;
mod faults;
mod help;

pub use faults::{fault_of, spread};
pub use help::text_for;
