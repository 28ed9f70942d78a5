//! The words that dbusfan's programs take and the streams that they speak on: the rows of the command line, faults with
//! their lines and statuses, files and outputs. The commands above use `CommandRow::read`
//! (a row exactly where the words spell one), `Fault::line` and `Output::put_fault` (one line for each fault).
#![tactic(auto)]

mod command_row;
mod error;
mod files;
mod gathered;
mod hex_text;
mod number;
mod options;
mod output;
mod progress;
mod streams;
mod system;
mod writer;

pub use command_row::CommandRow;
pub use error::Fault;
pub use files::{FileError, Files};
pub use hex_text::{HexError, decode};
pub use output::Output;
pub use streams::Stream;
pub use system::{System, args};
pub use usage::{fault_of, spread, text_for};
pub use writer::Writer;
