//! Instructions of the classic packet filter: what each code does, and their byte form. What a program means stands in
//! `specs/`: `Step` and `Ends` for its runs, `WellFormed` for the programs that are accepted. The layers above use that
//! `Op::of` is the table of codes, and that `decode` and `encode` mean the same list; what an error is called is
//! `code_error_text`.
#![tactic(auto)]

mod byte_form;
mod error;
mod instruction;
mod laws;
mod operation;

pub use byte_form::{bytes_of, decode, encode};
pub use error::CodeError;
pub use instruction::Ins;
pub use laws::a_row_has_one_code;
pub use operation::{Arithmetic, Op, Operand, Test, Width};
