// Which texts are rules, and which of them are the same one.

use case_files::{Fields, Judge, LineError};
use match_rule::{Rule, RuleError};
use std::alloc::Global;

/// A text: `ok`, or why it is no rule.
pub(crate) struct Texts;

impl Judge for Texts {
    const INPUTS: usize = 1;

    fn came(&self, alloc: Global, inputs: &Fields) -> Result<String, LineError> {
        let word = match Rule::read(alloc, inputs.text(0)?) {
            Ok(_) => "ok",
            Err(fault) => fault.name(),
        };
        Ok(String::from_str(alloc, word)?)
    }
}

/// Two texts of rules: `equal` or `different`, whichever comes first.
pub(crate) struct Pairs;

impl Judge for Pairs {
    const INPUTS: usize = 2;

    fn came(&self, alloc: Global, inputs: &Fields) -> Result<String, LineError> {
        let rule = read(alloc, inputs.text(0)?)?;
        let other = read(alloc, inputs.text(1)?)?;
        Ok(String::from_str(alloc, comparison(&rule, &other))?)
    }
}

fn comparison(rule: &Rule, other: &Rule) -> &'static str {
    let forth = rule == other;
    let back = other == rule;
    match (forth, back) {
        (true, true) => "equal",
        (false, false) => "different",
        _ => "equal in one order",
    }
}

/// The rule of a text that a case takes for one.
pub(crate) fn read(alloc: Global, text: &str) -> Result<Rule, LineError> {
    match Rule::read(alloc, text) {
        Ok(rule) => Ok(rule),
        Err(RuleError::NoMemory) => Err(LineError::NoMemory),
        Err(_) => Err(LineError::Unreadable),
    }
}
