// A case's program, and what is said of it alone.

use super::refusal::Refusal;
use bpf_code::{Ins, decode, encode};
use bpf_text::{assemble, assemble_bytes, print};
use bpf_verify::{Verified, verify};
use case_files::{Fields, LineError};
use std::alloc::Global;

/// The field that says how the program is spelled, and the program.
const FORM: usize = 0;

const PROGRAM: usize = 1;

/// The program of a case: an assembler text, or bytes in hexadecimal digits.
pub fn read(alloc: Global, inputs: &Fields) -> Result<Vec<Ins>, Refusal> {
    match inputs.text(FORM)? {
        "text" => Ok(assemble_bytes(alloc, inputs.bytes(PROGRAM)?)?),
        "bytes" => {
            let bytes = inputs.digits(alloc, PROGRAM)?;
            Ok(decode(alloc, bytes.as_slice())?)
        }
        _ => Err(Refusal::Line(LineError::Unreadable)),
    }
}

/// Its bytes, one instruction a line.
pub fn bytes(alloc: Global, program: &[Ins]) -> Result<String, Refusal> {
    let encoded = encode(alloc, program)?;
    let mut listing = String::new(alloc);
    push_lines(alloc, &mut listing, encoded.as_slice())?;
    Ok(listing)
}

fn push_lines(alloc: Global, listing: &mut String, encoded: &[u8]) -> Result<(), LineError> {
    for bytes in encoded.chunks(8) {
        let digits = hex::encode(alloc, bytes)?;
        listing.push_str(digits.as_str())?;
        listing.push('\n')?;
    }
    Ok(())
}

/// Its text, which has to be read back as the same program.
pub fn text(alloc: Global, program: &[Ins]) -> Result<String, Refusal> {
    let mut text = print(alloc, program)?;
    let again = assemble(alloc, text.as_str())?;
    if again.as_slice() != program {
        text.push_str("which is read back as another program")?;
    }
    Ok(text)
}

/// How many instructions it has, where it is accepted.
pub fn count(alloc: Global, program: Vec<Ins>) -> Result<String, Refusal> {
    let count = verify_program(program)?.code().len();
    Ok(format!(in alloc; "ok {count}")?)
}

pub fn verify_program(program: Vec<Ins>) -> Result<Verified, Refusal> {
    match verify(program) {
        Ok(verified) => Ok(verified),
        Err((fault, _)) => Err(Refusal::Program(fault)),
    }
}
