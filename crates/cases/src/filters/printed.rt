// What filters are printed as.

use case_files::{Fields, Judge, LineError};
use filter::{Filter, FilterError};
use std::alloc::Global;

/// The most bytes of an expression.
const MAX_LEN: usize = 4096;

/// An expression: what its filter is printed as.
pub(crate) struct Printed;

impl Judge for Printed {
    const INPUTS: usize = 1;

    fn came(&self, alloc: Global, inputs: &Fields) -> Result<String, LineError> {
        let filter = read(alloc, inputs.text(0)?)?;
        Ok(filter.print(alloc)?)
    }
}

/// The filter of a text that a case takes for one.
fn read(alloc: Global, text: &str) -> Result<Filter, LineError> {
    match Filter::read(alloc, text) {
        Ok(filter) => Ok(filter),
        Err(FilterError::NoMemory) => Err(LineError::NoMemory),
        Err(FilterError::Fault(_)) => Err(LineError::Unreadable),
    }
}

/// Whether a filter's text is read as one of the same weight and text. One that became longer than an expression may be isn't
/// read.
pub(crate) fn reads_back(alloc: Global, filter: &Filter) -> Result<bool, LineError> {
    let text = filter.print(alloc)?;
    if text.len() > MAX_LEN {
        return Ok(true);
    }
    let again = read(alloc, text.as_str())?;
    let printed = again.print(alloc)?;
    Ok(again.weight() == filter.weight() && printed.as_str() == text.as_str())
}
