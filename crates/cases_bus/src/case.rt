// The cases of a file.

use case_files::LineError;
use std::alloc::Global;

/// A case: all that happens on one new bus, or in one new world.
#[derive(Drop)]
pub(crate) struct Case<'a> {
    pub(crate) name: &'a str,
    pub(crate) lines: Vec<CaseLine<'a>>,
}

/// A line of a case.
#[derive(Clone, Copy)]
pub(crate) struct CaseLine<'a> {
    /// The line's number in its file, from 1.
    pub(crate) number: usize,
    pub(crate) words: &'a str,
}

/// The cases of a file. A case begins with a line `== NAME`. Empty lines and lines that begin with `#` are passed over.
///
/// # Errors
///
/// `Unreadable` where a line stands before the first name, or a byte is no text; `NameTwice`; `NoMemory`.
pub(crate) fn read_cases(alloc: Global, bytes: &[u8]) -> Result<Vec<Case<'_>>, LineError> {
    let text = std::str::from_utf8(bytes)?;
    let mut cases = Vec::new(alloc);
    let mut number: usize = 0;
    for words in text.split('\n') {
        number = number.saturating_add(1);
        if !words.is_empty() && !words.starts_with('#') {
            add_line(alloc, &mut cases, CaseLine { number, words })?;
        }
    }
    Ok(cases)
}

fn add_line<'a>(
    alloc: Global,
    cases: &mut Vec<Case<'a>>,
    line: CaseLine<'a>,
) -> Result<(), LineError> {
    if let Some(name) = line.words.strip_prefix("== ") {
        return begin(alloc, cases, name);
    }
    match cases.last_mut() {
        Some(case) => Ok(case.lines.push(line)?),
        None => Err(LineError::Unreadable),
    }
}

fn begin<'a>(alloc: Global, cases: &mut Vec<Case<'a>>, name: &'a str) -> Result<(), LineError> {
    if cases.iter().any(|case| case.name == name) {
        return Err(LineError::NameTwice);
    }
    cases.push(Case {
        name,
        lines: Vec::new(alloc),
    })?;
    Ok(())
}
