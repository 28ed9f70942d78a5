//! The command `serve`. The program above calls `serve`, which reads its words, listens, says where, and
//! serves.
#![tactic(auto)]

mod address_fault;
mod addresses;
mod binding;
mod entry;
mod error;
mod guid;
mod limit_fault;
mod listening;
mod log;
mod machine;
mod mechanisms;
mod options;
mod place;
mod reasons;
mod target;
mod words;

pub use entry::serve;
