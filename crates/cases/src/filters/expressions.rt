// Which texts are filters, and what these weigh.

use super::printed::reads_back;
use case_files::{Fields, Judge, LineError};
use filter::{Filter, FilterError};
use std::alloc::Global;

/// An expression: the weight of its filter, which also has to be read from what it is printed as; or the first fault and its
/// place.
pub(crate) struct Expressions;

impl Judge for Expressions {
    const INPUTS: usize = 1;

    fn came(&self, alloc: Global, inputs: &Fields) -> Result<String, LineError> {
        match Filter::read(alloc, inputs.text(0)?) {
            Ok(filter) => weight(alloc, &filter),
            Err(FilterError::Fault(at)) => Ok(format!(in alloc; "{at}")?),
            Err(FilterError::NoMemory) => Err(LineError::NoMemory),
        }
    }
}

fn weight(alloc: Global, filter: &Filter) -> Result<String, LineError> {
    if !reads_back(alloc, filter)? {
        return Ok(String::from_str(alloc, "another filter is printed")?);
    }
    let weight = filter.weight();
    Ok(format!(in alloc; "weight {weight}")?)
}
