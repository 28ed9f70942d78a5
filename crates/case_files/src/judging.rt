// One case.

use crate::case::Case;
use crate::error::LineError;
use crate::fields::Fields;
use crate::spelling::escape_field;
use crate::tally::Tally;
use std::alloc::Global;
use std::collections::BTreeSet;
use std::env;
use std::process::ExitCode;
use std::rt::Runtime;

/// What a program asks of its cases.
pub trait Judge {
    /// How many fields a case has between its name and what is wanted.
    const INPUTS: usize;

    /// What comes of a case, as text, to be compared with what is wanted.
    fn came(&self, alloc: Global, inputs: &Fields) -> Result<String, LineError>;
}

/// Judges the files that the program's arguments name, each by the same judge.
pub fn judge_files<R: Runtime<A = Global>, J: Judge>(rt: &R, judge: &J) -> ExitCode {
    let Ok(files) = env::args(rt) else {
        return ExitCode::FAILURE;
    };
    let mut tally = Tally::default();
    for file in files.skip(1) {
        tally.judge(rt, file.as_str(), judge);
    }
    tally.end(rt)
}

/// The words on a case that misses; none where the line's case comes as wanted, or where it has none.
pub(crate) fn judge_line<J: Judge>(
    alloc: Global,
    judge: &J,
    names: &mut BTreeSet<String>,
    line: &[u8],
) -> Result<Option<String>, LineError> {
    let line = std::str::from_utf8(line)?;
    if line.is_empty() || line.starts_with('#') {
        return Ok(None);
    }
    let case = Case::read(alloc, line, J::INPUTS)?;
    let name = case.name;
    if !names.insert(String::from_str(alloc, name)?)? {
        return Err(LineError::NameTwice);
    }
    let came = judge.came(alloc, &case.inputs)?;
    if came.as_bytes() == case.wanted.as_slice() {
        return Ok(None);
    }
    let wanted = escape_field(alloc, case.wanted.as_slice())?;
    let came = escape_field(alloc, came.as_bytes())?;
    Ok(Some(format!(in alloc; "{name}: wanted {wanted}, came {came}")?))
}
