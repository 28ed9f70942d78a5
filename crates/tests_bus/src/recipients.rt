// A name changes its owner: who gets the broadcasts, found by one thread and by workers.

ghost use Rattle.std.specs.Prelude.{◌<◌, ◌≤◌};

use crate::fixture::S1;
use crate::gates::open_gate;
use crate::state::{accept, connect, empty, read_message, subscribe};
use arrayvec::ArrayVec;
use fan_out::{FanError, select, select_many, select_piece};
use owners::WellKnown;
use program_table::{BusState, Command};
use std::alloc::Global;
use std::mem::forget;
use std::process::Abort;
use std::sync::Wait;
use std::thread::Threads;

/// A broadcast of the sender goes to these connections.
fn expect<R: Abort + Threads + Wait>(rt: &R, state: &BusState<()>, sender: u64, wanted: &[u64]) {
    let view = read_message(rt, &S1);
    assert_eq!(rt; select(state, Some(sender), &view).as_slice(), wanted);
    for workers in [1, 2, 16] {
        expect_by(rt, state, sender, workers, wanted);
    }
}

/// The recipients of a broadcast, found by workers. Nothing is promised of them.
fn select_by<R: Abort + Threads + Wait>(
    rt: &R,
    state: &BusState<()>,
    sender: Option<u64>,
    workers: u32,
) -> Result<ArrayVec<u64, 4096>, FanError> {
    let view = read_message(rt, &S1);
    let gate = open_gate();
    select_many(rt, state, sender, &view, workers, &gate)
}

fn expect_by<R: Abort + Threads + Wait>(
    rt: &R,
    state: &BusState<()>,
    sender: u64,
    workers: u32,
    wanted: &[u64],
) {
    let found = select_by(rt, state, Some(sender), workers);
    assert_eq!(rt; found.expect(rt, "the recipients").as_slice(), wanted);
}

fn request<R: Abort>(rt: &R, state: &mut BusState<()>, connection: u64, flags: u32) {
    let name = WellKnown::read("com.example.A").expect(rt, "a name");
    accept(rt, state, Command::Request(connection, name, flags));
}

#[test]
fn takeover_and_close(rt: HostRuntime) {
    let alloc = rt.alloc();
    let mut state = empty(&rt, alloc);
    for _ in 0..3 {
        connect(&rt, &mut state);
    }
    subscribe(&rt, alloc, &mut state, 3, "sender='com.example.A'");
    request(&rt, &mut state, 1, 1);
    expect(&rt, &state, 1, &[3]);
    expect(&rt, &state, 2, &[]);
    request(&rt, &mut state, 2, 2);
    expect(&rt, &state, 1, &[]);
    expect(&rt, &state, 2, &[3]);
    accept(&rt, &mut state, Command::Close(2));
    expect(&rt, &state, 1, &[3]);
    forget(state);
}

fn expect_workers<R: Abort + Threads + Wait>(rt: &R, state: &BusState<()>, workers: u32) {
    let found = select_by(rt, state, None, workers);
    assert_eq!(rt; found.err(), Some(FanError::Workers));
}

#[test]
fn numbers_of_workers(rt: HostRuntime) {
    let state = empty(&rt, rt.alloc());
    expect_workers(&rt, &state, 0);
    expect_workers(&rt, &state, 17);
    assert_eq!(rt; FanError::Workers.number(), 1);
    assert_eq!(rt; FanError::NotStarted.name(), "NotStarted");
    forget(state);
}

fn expect_piece<R: Abort>(rt: &R, state: &BusState<()>, part: u32, of: u32, wanted: &[u64])
    requires { (0 < part) × (part ≤ of) }
{
    let view = read_message(rt, &S1);
    assert_eq!(rt;
        select_piece(state, None, &view, part, of).as_slice(),
        wanted
    );
}

fn subscribe_to_all<R: Abort>(rt: &R, alloc: Global, state: &mut BusState<()>) {
    for connection in 1..4u64 {
        connect(rt, state);
        subscribe(rt, alloc, state, connection, "");
    }
}

/// Of three connections that all match, the first piece of two has those of even numbers.
#[test]
fn pieces_by_remainders(rt: HostRuntime) {
    let mut state = empty(&rt, rt.alloc());
    subscribe_to_all(&rt, rt.alloc(), &mut state);
    expect_piece(&rt, &state, 1, 2, &[2]);
    expect_piece(&rt, &state, 2, 2, &[1, 3]);
    expect_piece(&rt, &state, 4, 16, &[3]);
    forget(state);
}
