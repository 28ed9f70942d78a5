// Commands of the tests of a state, and who gets a broadcast. A failure ends the test at once, so that a test has one
// way out.

ghost use Rattle.std.specs.Prelude.{◌<◌};

use crate::fixture::KEY;
use entry_table::RuleProgram;
use fan_out::select_counted;
use match_rule::Rule;
use message_view::View;
use program_table::{BusState, Command, Reply};
use std::alloc::Global;
use std::mem::forget;
use std::process::Abort;

/// A message. Nothing is promised of it, so that a test's body carries none of the reading's clauses.
pub(crate) fn read_message<'a, R: Abort>(rt: &R, bytes: &'a [u8]) -> View<'a> {
    View::read(bytes).expect(rt, "a message")
}

/// A broadcast of the bus goes to these connections, after this many programs were run.
pub(crate) fn expect_counted<R: Abort>(
    rt: &R,
    state: &BusState<()>,
    view: &View<'_>,
    recipients: &[u64],
    runs: u32,
) {
    let counted = select_counted(state, None, view);
    assert_eq!(rt; counted.recipients.as_slice(), recipients);
    assert_eq!(rt; counted.runs, runs);
}

/// A state without connections.
pub(crate) fn empty<R: Abort>(rt: &R, alloc: Global) -> BusState<()> {
    BusState::new(alloc, KEY).expect(rt, "a state")
}

/// A rule with its program. The sender that it asks for, if any, has slot 0.
pub(crate) fn compile<R: Abort>(rt: &R, alloc: Global, text: &str) -> RuleProgram {
    compile_at(rt, alloc, text, 0)
}

/// A rule with its program. The sender that it asks for, if any, has this slot.
pub(crate) fn compile_at<R: Abort>(rt: &R, alloc: Global, text: &str, slot: u16) -> RuleProgram
    requires { slot < 1024 }
{
    let rule = Rule::read(alloc, text).expect(rt, "a rule");
    if rule.sender_name().is_some() {
        RuleProgram::compile(alloc, rule, Some(slot)).expect(rt, "its program")
    } else {
        RuleProgram::compile(alloc, rule, None).expect(rt, "its program")
    }
}

/// Applies a command. It promises nothing, so that a test's body carries none of the command's clauses.
pub(crate) fn apply<R: Abort>(rt: &R, state: &mut BusState<()>, command: Command<()>) -> Reply {
    let reply = state.apply(&command).expect(rt, "memory");
    forget(command);
    reply
}

/// Applies a command that is to be accepted.
pub(crate) fn accept<R: Abort>(rt: &R, state: &mut BusState<()>, command: Command<()>) {
    if let Reply::Refused(_) = apply(rt, state, command) {
        panic!(rt; "a command was refused")
    }
}

/// Connects the next connection.
pub(crate) fn connect<R: Abort>(rt: &R, state: &mut BusState<()>) {
    accept(rt, state, Command::Connect(()));
}

/// Adds a rule of the connection.
pub(crate) fn subscribe<R: Abort>(
    rt: &R,
    alloc: Global,
    state: &mut BusState<()>,
    connection: u64,
    text: &str,
) {
    let command = Command::AddRule(connection, compile(rt, alloc, text));
    accept(rt, state, command);
}
