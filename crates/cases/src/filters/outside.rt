// Whether filters hold of messages.

use case_files::{Fields, Judge, LineError, digits};
use filter::{Filter, FilterError};
use filter_compile::{CompileError, Names, VerdictError, verdict_of_filter};
use message_view::View;
use std::alloc::Global;
use summary::Slots;

/// An expression, a message, and the names that its sender owns, or `none`: the weight of the filter and whether it holds of
/// the message, or the first fault and its place.
pub(crate) struct Outside;

impl Judge for Outside {
    const INPUTS: usize = 3;

    fn came(&self, alloc: Global, inputs: &Fields) -> Result<String, LineError> {
        match Filter::read(alloc, inputs.text(0)?) {
            Ok(filter) => answer(alloc, &filter, inputs),
            Err(FilterError::Fault(at)) => Ok(format!(in alloc; "{at}")?),
            Err(FilterError::NoMemory) => Err(LineError::NoMemory),
        }
    }
}

fn answer(alloc: Global, filter: &Filter, inputs: &Fields) -> Result<String, LineError> {
    let weight = filter.weight();
    let message = digits(alloc, inputs.text(1)?)?;
    let owned = owned_slots(alloc, filter, inputs.text(2)?)?;
    let view = View::read(message.as_slice()).map_err(|_| LineError::Unreadable)?;
    let word = match verdict_of_filter(alloc, inputs.text(0)?, &view, &owned) {
        Ok(outcome) => { if outcome.verdict > 0 { "yes" } else { "no" } }
        Err(VerdictError::Program(CompileError::NoMemory)) => return Err(LineError::NoMemory),
        Err(VerdictError::Program(refused)) => refused.name(),
        Err(VerdictError::Filter(_)) => return Err(LineError::Unreadable),
    };
    Ok(format!(in alloc; "weight {weight} {word}")?)
}

/// The slots of those names that a filter asks for which are among the owned ones.
fn owned_slots(alloc: Global, filter: &Filter, owned: &str) -> Result<Slots, LineError> {
    let names = Names::of(alloc, filter)?;
    let mut slots = Slots::empty();
    for (slot, name) in names.as_slice().iter().enumerate() {
        if owned.split_whitespace().any(|other| other == *name) && slot < 1024 {
            slots.insert(slot as u16);
        }
    }
    Ok(slots)
}
