//! The unique names that a bus gives to its connections. The layers above use that a number's name is the text that the
//! standard says, and that a text names at most one connection.
#![tactic(auto)]

mod unique_name;

pub use unique_name::UniqueName;
