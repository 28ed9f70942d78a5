// What is said to the commands of a case.

use crate::files::CaseFiles;
use case_files::{Fields, Judge, LineError};
use dbusfan_tool::{Output, tool};
use std::alloc::Global;
use std::fmt::Write;

/// The field of the commands, and those of the files.
const COMMANDS: usize = 0;

const FIRST_FILE: usize = 1;

const SECOND_FILE: usize = 2;

pub struct Commands;

impl Judge for Commands {
    const INPUTS: usize = 3;

    fn came(&self, alloc: Global, inputs: &Fields) -> Result<String, LineError> {
        let mut files = CaseFiles::new(inputs.bytes(FIRST_FILE)?, inputs.bytes(SECOND_FILE)?)?;
        let mut transcript = String::new(alloc);
        for command in inputs.text(COMMANDS)?.split(" ; ") {
            put_said(alloc, command, &mut files, &mut transcript)?;
        }
        Ok(transcript)
    }
}

/// Writes what a command says at the end: its output, after a `!` what it writes to standard error, and its status.
fn put_said(
    alloc: Global,
    command: &str,
    files: &mut CaseFiles<'_>,
    transcript: &mut String,
) -> Result<(), LineError> {
    let words: Vec<&str> = command.split('|').collect(alloc)?;
    let (program, words) = words.as_slice().split_first().ok_or(LineError::Unreadable)?;
    if *program != "dbusfan" {
        return Err(LineError::Unreadable);
    }
    let mut out = Output::new(Vec::new(alloc));
    let mut err = Output::new(Vec::new(alloc));
    let status = tool(alloc, words, files, &mut out, &mut err);
    let out = std::str::from_utf8(out.writer.as_slice())?;
    let err = std::str::from_utf8(err.writer.as_slice())?;
    let mark = if err.is_empty() { "" } else { "!" };
    write!(transcript, "{out}{mark}{err}[{status}]")?;
    Ok(())
}
