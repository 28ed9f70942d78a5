// What commands are answered, and that they are done.

use crate::state::{apply, compile, compile_at, empty};
use owners::WellKnown;
use program_table::{BusState, Command, Refusal, Reply};
use std::mem::forget;
use std::process::Abort;

fn expect_answer<R: Abort>(rt: &R, state: &BusState<()>, command: Command<()>, wanted: Reply) {
    assert_eq!(rt; state.answer(&command), wanted);
    forget(command);
}

fn expect_reply<R: Abort>(rt: &R, state: &mut BusState<()>, command: Command<()>, wanted: Reply) {
    assert_eq!(rt; apply(rt, state, command), wanted);
}

fn nothing_was_done<R: Abort>(rt: &R, state: &BusState<()>) {
    assert_eq!(rt; state.commands(), 0);
    assert!(rt; state.connections().is_empty());
    assert!(rt; state.mailbox_of(1).is_none());
}

/// A question changes nothing.
#[test]
fn answers_before_anyone_connects(rt: HostRuntime) {
    let state = empty(&rt, rt.alloc());
    let program = compile(&rt, rt.alloc(), "member='c'");
    let closed = Reply::Refused(Refusal::Closed);
    expect_answer(&rt, &state, Command::Connect(()), Reply::Connected(1));
    expect_answer(&rt, &state, Command::AddRule(1, program), closed);
    let closed = Reply::Refused(Refusal::Closed);
    expect_answer(&rt, &state, Command::Close(1), closed);
    nothing_was_done(&rt, &state);
    forget(state);
}

// The name of these tests is the connection's from now on.
fn own<R: Abort>(rt: &R, state: &mut BusState<()>, connection: u64, flags: u32) {
    let name = WellKnown::read("com.example.A").expect(rt, "a name");
    let _ = apply(rt, state, Command::Request(connection, name, flags));
    expect_owner(rt, state, connection);
}

fn expect_owner<R: Abort>(rt: &R, state: &BusState<()>, connection: u64) {
    assert_eq!(rt; state.owner_of("com.example.A"), Some(connection));
}

fn connect<R: Abort>(rt: &R, state: &mut BusState<()>, number: u64) {
    expect_reply(rt, state, Command::Connect(()), Reply::Connected(number));
}

fn expect_counts<R: Abort>(rt: &R, state: &BusState<()>, all: u64, of_first: u64) {
    assert_eq!(rt; state.commands(), all);
    assert_eq!(rt; state.commands_of(1), of_first);
}

#[test]
fn each_command_is_done(rt: HostRuntime) {
    let mut state = empty(&rt, rt.alloc());
    connect(&rt, &mut state, 1);
    connect(&rt, &mut state, 2);
    own(&rt, &mut state, 1, 1);
    own(&rt, &mut state, 2, 2);
    expect_reply(&rt, &mut state, Command::Close(2), Reply::Done);
    expect_owner(&rt, &state, 1);
    let closed = Reply::Refused(Refusal::Closed);
    expect_reply(&rt, &mut state, Command::DropOne(2), closed);
    expect_counts(&rt, &state, 5, 2);
    forget(state);
}

fn expect_next_slot<R: Abort>(rt: &R, state: &BusState<()>, slot: u16) {
    assert_eq!(rt; state.slot_next("com.example.A"), Some(slot));
}

/// The program of a rule is for another slot than the next free one.
#[test]
fn stale_slot(rt: HostRuntime) {
    let mut state = empty(&rt, rt.alloc());
    connect(&rt, &mut state, 1);
    let program = compile_at(&rt, rt.alloc(), "sender='com.example.A'", 1);
    let stale = Reply::Refused(Refusal::Stale);
    expect_reply(&rt, &mut state, Command::AddRule(1, program), stale);
    expect_next_slot(&rt, &state, 0);
    expect_counts(&rt, &state, 1, 1);
    forget(state);
}

fn expect_places<R: Abort>(rt: &R, state: &BusState<()>) {
    assert_eq!(rt; state.place_of(1), Some(0));
    assert!(rt; state.mailbox_of(1).is_some());
    assert_eq!(rt; state.place_of(2), None);
}

#[test]
fn places_of_connections(rt: HostRuntime) {
    let mut state = empty(&rt, rt.alloc());
    connect(&rt, &mut state, 1);
    expect_places(&rt, &state);
    forget(state);
}

fn expect_one_name<R: Abort>(rt: &R, state: &BusState<()>) {
    let name = WellKnown::read("com.example.A").expect(rt, "a name");
    assert!(rt; state.next_name(None).is_some_and(|least| least == name));
    assert!(rt; state.slots_of(Some(1)).contains(0));
}

#[test]
fn names_that_are_owned(rt: HostRuntime) {
    let mut state = empty(&rt, rt.alloc());
    connect(&rt, &mut state, 1);
    own(&rt, &mut state, 1, 0);
    expect_one_name(&rt, &state);
    forget(state);
}
