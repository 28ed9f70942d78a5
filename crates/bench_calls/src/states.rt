// States of a bus in which each connection has given rules.

use entry_table::{IndexKey, RuleProgram};
use match_rule::Rule;
use program_table::{BusState, Command, Reply};
use std::alloc::Global;

/// Each connection takes as many rules as this, one after the other.
#[derive(Clone, Copy)]
pub(crate) struct Rules<'a> {
    /// One rule a line.
    pub(crate) lines: &'a str,
    pub(crate) of_each: u32,
}

/// Adds a rule, which may not ask for an owned name as the sender.
fn add_rule(alloc: Global, state: &mut BusState<()>, connection: u64, line: &str) -> Option<()> {
    let rule = Rule::read(alloc, line).ok()?;
    if rule.sender_name().is_some() {
        return None;
    }
    let program = RuleProgram::compile(alloc, rule, None).ok()?;
    match state.apply(&Command::AddRule(connection, program)).ok()? {
        Reply::Entry(_) => Some(()),
        _ => None,
    }
}

/// The key of the index, digits of pi: of the fractional part in hexadecimal the ninth and the tenth sixteen digits. Under
/// any key some entries share a list with another one's texts: of 1,000 one in thirty, of 16,000 two in five. Under this
/// one those that the messages ask for don't; under the first 32 digits two of 16,000 share the list of `m7`.
const KEY: IndexKey = IndexKey {
    first: 0x9216_d5d9_8979_fb1b,
    second: 0xd131_0ba6_98df_b5ac,
};

/// One more connection, by its number.
fn connect(state: &mut BusState<()>) -> Option<u64> {
    match state.apply(&Command::Connect(())).ok()? {
        Reply::Connected(connection) => Some(connection),
        _ => None,
    }
}

/// The state of a bus after connections came until all rules were added; without rules it has one connection.
pub(crate) fn state_of(alloc: Global, rules: Rules<'_>) -> Option<BusState<()>> {
    let mut state = BusState::new(alloc, KEY).ok()?;
    let mut connection = connect(&mut state)?;
    if rules.lines.is_empty() {
        return Some(state);
    }
    let mut left = rules.of_each;
    for line in rules.lines.split('\n') {
        if left == 0 {
            connection = connect(&mut state)?;
            left = rules.of_each;
        }
        add_rule(alloc, &mut state, connection, line)?;
        left = left.saturating_sub(1);
    }
    Some(state)
}
