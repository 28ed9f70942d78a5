// What a case asks of its program.

use super::refusal::Refusal;
use super::{image, program};
use case_files::{Fields, Judge, LineError};
use std::alloc::Global;

/// The field that says what is asked, and the message that a program is run over.
const QUESTION: usize = 2;

const MESSAGE: usize = 3;

pub struct Programs;

impl Judge for Programs {
    const INPUTS: usize = 4;

    fn came(&self, alloc: Global, inputs: &Fields) -> Result<String, LineError> {
        match answer(alloc, inputs) {
            Ok(answer) => Ok(answer),
            Err(refusal) => refusal.into_answer(alloc),
        }
    }
}

fn answer(alloc: Global, inputs: &Fields) -> Result<String, Refusal> {
    let program = program::read(alloc, inputs)?;
    match inputs.text(QUESTION)? {
        "bytes" => program::bytes(alloc, program.as_slice()),
        "text" => program::text(alloc, program.as_slice()),
        "check" => program::count(alloc, program),
        question => {
            let asked = question.strip_prefix("run ").ok_or(LineError::Unreadable)?;
            let message = inputs.digits(alloc, MESSAGE)?;
            let program = program::verify_program(program)?;
            image::outcome(alloc, asked, &program, message.as_slice())
        }
    }
}
