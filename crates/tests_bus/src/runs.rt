// How many programs are run.

use crate::fixture::M7;
use crate::state::{accept, connect, empty, expect_counted, read_message, subscribe};
use fan_out::may_reach;
use match_rule::Rule;
use program_table::{BusState, Command};
use std::alloc::Global;
use std::mem::forget;
use std::process::Abort;

/// The next connection has four rules, of the members from four times its place on.
fn subscribe_next<R: Abort>(rt: &R, alloc: Global, state: &mut BusState<()>, place: u8) {
    connect(rt, state);
    let place = u64::from(place);
    for number in 0..4u64 {
        subscribe_member(rt, alloc, state, place + 1, 4 * place + number);
    }
}

fn subscribe_member<R: Abort>(
    rt: &R,
    alloc: Global,
    state: &mut BusState<()>,
    connection: u64,
    member: u64,
) {
    let text = format!(in alloc; "member='m{member}'").expect(rt, "a text");
    subscribe(rt, alloc, state, connection, text.as_str());
}

fn expect_runs<R: Abort>(rt: &R, state: &BusState<()>, recipients: &[u64], runs: u32) {
    let view = read_message(rt, &M7);
    expect_counted(rt, state, &view, recipients, runs);
    assert_eq!(rt; may_reach(state, &view, ":1.1"), runs != 0);
}

fn remove<R: Abort>(rt: &R, alloc: Global, state: &mut BusState<()>) {
    let rule = Rule::read(alloc, "member='m7'").expect(rt, "a rule");
    accept(rt, state, Command::RemoveRule(2, rule));
}

/// 250 connections have four rules each, of the members `m0` to `m999` in order, and the first one an empty rule. A rule of
/// another path namespace isn't run.
#[test]
fn index_runs(rt: HostRuntime) {
    let alloc = rt.alloc();
    let mut state = empty(&rt, alloc);
    for place in 0..250u8 {
        subscribe_next(&rt, alloc, &mut state, place);
    }
    subscribe(&rt, alloc, &mut state, 1, "");
    subscribe(&rt, alloc, &mut state, 3, "path_namespace='/elsewhere'");
    expect_runs(&rt, &state, &[1, 2], 2);
    remove(&rt, alloc, &mut state);
    expect_runs(&rt, &state, &[1], 1);
    forget(state);
}
