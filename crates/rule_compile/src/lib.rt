//! Match rules as programs. The layers above use what `compile` ensures: the verdict of the program on the image
//! of a message is nonzero exactly where the rule holds of the message.
#![tactic(auto)]

mod compiling;
mod condition;
mod error;
mod folders;
mod headline;
mod piece;
mod ranking;
mod rest;
mod text;
mod verdict;

pub use compiling::{compile, compile_rest};
pub use error::CompileError;
pub use headline::outcome_on;
pub use verdict::{VerdictError, verdict_of_text};
