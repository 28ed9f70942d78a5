//! The commands `match`, `asm`, `check`, `compile` and `run` of dbusfan. The program above uses `tool`: for words that
//! are a row of the command line, what it writes and answers is what `Tool` says, or it is out of memory.
#![tactic(auto)]

mod answer;
mod assembling;
mod beginning;
mod capture_fault;
mod capturing;
mod checking;
mod compiling;
mod entry;
mod expression_words;
mod file_judging;
mod filters;
mod finding;
mod help;
mod judgement;
mod matching;
mod nearest;
mod program;
mod program_judge;
mod reasons;
mod report;
mod running;
mod sentences;
mod tally;
mod why;
mod wording;

pub use command_line::{Fault, FileError, Files, Output, Writer};
pub use entry::tool;
pub use reasons::{capture_reason, reason_for};
