//! Files of cases, for programs that compare what comes of each case with what is wanted.
//!
//! A case is one line: its name, its inputs, last what is wanted, divided by tabs. Empty lines and lines
//! that begin with `#` are passed over. In a field `\t`, `\n`, `\r`, `\\` and `\xHH` stand for the tab, the
//! line feed, the carriage return, the backslash and the byte with these two hexadecimal digits; `\{255*TEXT\}` stands
//! for 255 times TEXT, in which no other repetition stands.
//!
//! A program has a `Judge` for each table. It hands them to a `Tally`, file by file, and ends with what that says; or
//! it hands its only one to `judge_files`, which takes the files that the program's arguments name.
#![tactic(auto)]

mod case;
mod error;
mod fields;
mod judging;
mod repetition;
mod spelling;
mod tally;

pub use error::LineError;
pub use fields::{Fields, digits};
pub use judging::{Judge, judge_files};
pub use spelling::escape_field;
pub use tally::Tally;
