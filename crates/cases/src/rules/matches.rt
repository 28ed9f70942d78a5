// Of which messages rules hold: by the plain test and by the verdict of the text's program.

use super::verdict::Verdict;
use case_files::{Fields, Judge, LineError, digits};
use match_rule::{Rule, RuleError};
use message_view::View;
use rule_compile::{CompileError, VerdictError, verdict_of_text};
use std::alloc::Global;
use summary::Slots;

/// The slot of the well-known name that a rule asks for as the sender.
pub(crate) const SLOT: u16 = 33;

/// The text of a rule, a message, or several divided by bars, and whether the sender owns the name that the rule asks
/// for: `yes`, `no`, or `either` where it doesn't matter. `match`, `no match` or why the text is no rule.
pub(crate) struct Matches;

impl Judge for Matches {
    const INPUTS: usize = 3;

    fn came(&self, alloc: Global, inputs: &Fields) -> Result<String, LineError> {
        let messages = inputs.text(1)?;
        let owner = inputs.text(2)?;
        let text = inputs.text(0)?;
        let said = match Rule::read(alloc, text) {
            Ok(rule) => verdict_words(alloc, text, &rule, messages, owner),
            Err(RuleError::NoMemory) => Err(LineError::NoMemory),
            Err(fault) => Ok(fault.name()),
        };
        Ok(String::from_str(alloc, said?)?)
    }
}

/// What is said of a rule, of this text, and messages.
fn verdict_words(
    alloc: Global,
    text: &str,
    rule: &Rule,
    messages: &str,
    owner: &str,
) -> Result<&'static str, LineError> {
    let mut said: Option<Verdict> = None;
    for message in messages.split('|') {
        let bytes = digits(alloc, message)?;
        let verdict = verdict(alloc, text, rule, bytes.as_slice(), owner)?;
        said = match said {
            None => Some(verdict),
            Some(before) => Some(verdict.and(before)),
        };
    }
    match said {
        None => Ok("no message"),
        Some(verdict) => Ok(verdict.words()),
    }
}

fn verdict(
    alloc: Global,
    text: &str,
    rule: &Rule,
    bytes: &[u8],
    owner: &str,
) -> Result<Verdict, LineError> {
    let Ok(view) = View::read(bytes) else {
        return Err(LineError::Unreadable);
    };
    match owner {
        "yes" => verdict_of(alloc, text, rule, &view, true),
        "no" => verdict_of(alloc, text, rule, &view, false),
        "either" => {
            let of_owner = verdict_of(alloc, text, rule, &view, true)?;
            Ok(of_owner.and(verdict_of(alloc, text, rule, &view, false)?))
        }
        _ => Err(LineError::Unreadable),
    }
}

fn verdict_of(
    alloc: Global,
    text: &str,
    rule: &Rule,
    view: &View<'_>,
    owns: bool,
) -> Result<Verdict, LineError> {
    let mut owned = Slots::empty();
    if owns {
        owned.insert(SLOT);
    }
    match verdict_of_text(alloc, text, SLOT, view, &owned) {
        Ok(outcome) => Ok(Verdict::of(rule.holds(view, owns), outcome.verdict != 0)),
        Err(VerdictError::Program(CompileError::TooLong)) => Ok(Verdict::NoProgram),
        Err(_) => Err(LineError::NoMemory),
    }
}
