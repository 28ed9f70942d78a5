// What stands in the place of an answer.

use bpf_code::CodeError;
use bpf_verify::VerifyError;
use case_files::LineError;
use std::alloc::{AllocError, Global};

/// Why a program gives no answer.
pub enum Refusal {
    Code(CodeError),
    Program(VerifyError),
    /// The case itself can't be read.
    Line(LineError),
}

impl Refusal {
    /// The fault as a case's answer; a case that can't be read has none.
    pub fn into_answer(self, alloc: Global) -> Result<String, LineError> {
        match self {
            Refusal::Code(CodeError::NoMemory) => Err(LineError::NoMemory),
            Refusal::Code(fault) => Ok(fault.to_string(alloc)?),
            Refusal::Program(fault) => Ok(fault.to_string(alloc)?),
            Refusal::Line(error) => Err(error),
        }
    }
}

impl From<CodeError> for Refusal {
    fn from(fault: CodeError) -> Refusal {
        Refusal::Code(fault)
    }
}

impl From<LineError> for Refusal {
    fn from(error: LineError) -> Refusal {
        Refusal::Line(error)
    }
}

impl From<AllocError> for Refusal {
    fn from(_refused: AllocError) -> Refusal {
        Refusal::Line(LineError::NoMemory)
    }
}
