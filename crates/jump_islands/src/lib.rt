//! Source programs, whose jumps go over any number of instructions, and how they are lowered. A conditional jump that
//! is too far goes to an island, a jump in between. A draft is a source program whose jumps name labels. What they mean
//! stands in `specs/`: `IsTarget` says what lowering gives, `instructions_of` which source program a draft is.
#![tactic(auto)]

mod draft;
mod error;
mod label;
mod line;
mod lowering;
mod source_ins;
mod source_program;
mod tail;

pub use draft::Draft;
pub use error::LowerError;
pub use label::Label;
pub use line::Line;
pub use lowering::lower;
pub use source_program::SourceProgram;
