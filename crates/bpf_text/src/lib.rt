//! Programs of the packet filter as text, one instruction a line. The layers above use that `assemble` and
//! `assemble_bytes` are `SourceText`, else the first fault, and that `print` gives the text `text_of`,
//! which names the program, else the lowest fault; and of `put_instruction` that it is the spelling that lines have.
#![tactic(auto)]

mod assembler;
mod draft;
mod lexis;
mod line;
mod mnemonic;
mod named_labels;
mod operands;
mod printer;
mod resolve;
mod row;
mod spelling;

pub use assembler::{assemble, assemble_bytes, one_source};
pub use printer::{print, reads_back};
pub use spelling::put_instruction;
