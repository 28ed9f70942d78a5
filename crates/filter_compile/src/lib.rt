//! Filters as programs. The layers above use what `compile` ensures: the verdict of the program on the image of a message
//! is nonzero exactly where the filter holds of the message.
#![tactic(auto)]

mod arg_number;
mod code;
mod compiling;
mod digits;
mod error;
mod exits;
mod integer_type;
mod names;
mod nested;
mod number;
mod scope;
mod sign;
mod test;
mod test_bytes;
mod text;
mod tree;
mod type_entries;
mod verdict;

pub use compiling::compile;
pub use error::CompileError;
pub use names::Names;
pub use verdict::{VerdictError, verdict_of_filter};
