// Workers run at once.

use crate::fixture::S1;
use crate::state::{empty, read_message};
use fan_out::{Gate, select_many};
use program_table::BusState;
use std::mem::forget;
use std::process::Abort;
use std::sync::Wait;
use std::sync::atomic::{AtomicBool, Ordering};
use std::thread::{Threads, yield_now};

/// How often the first piece yields to the second.
const TURNS: u32 = 10_000_000;

/// A gate that holds the first piece until the second is done.
#[derive(Drop)]
pub(crate) struct SecondFirst {
    second_done: AtomicBool,
    given_up: AtomicBool,
}

impl Gate for SecondFirst {
    fn before(&self, piece: u32) {
        if piece != 1 {
            return;
        }
        for _ in 0..TURNS {
            if self.second_done.load(Ordering::SeqCst) {
                return;
            }
            yield_now();
        }
        self.given_up.store(true, Ordering::SeqCst);
    }

    fn after(&self, piece: u32) {
        if piece == 2 {
            self.second_done.store(true, Ordering::SeqCst);
        }
    }
}

/// A gate whose second piece is still to be done.
pub(crate) fn second_first() -> SecondFirst {
    SecondFirst {
        second_done: AtomicBool::new(false),
        given_up: AtomicBool::new(false),
    }
}

/// A gate that is always open: its second piece counts as done. It has no type of its own, so that what workers do is
/// proved for one type of gate.
pub(crate) fn open_gate() -> SecondFirst {
    SecondFirst {
        second_done: AtomicBool::new(true),
        given_up: AtomicBool::new(false),
    }
}

/// The second piece was done, and the first waited for it.
pub(crate) fn expect_second_first<R: Abort>(rt: &R, gate: &SecondFirst) {
    assert!(rt; gate.second_done.load(Ordering::SeqCst));
    assert!(rt; !gate.given_up.load(Ordering::SeqCst));
}

/// The first of two workers waits until the second is done.
fn expect_both_at_once<R: Threads + Wait + Abort>(rt: &R, state: &BusState<()>) {
    let view = read_message(rt, &S1);
    let gate = second_first();
    let found = select_many(rt, state, None, &view, 2, &gate).expect(rt, "the recipients");
    assert!(rt; found.is_empty());
    expect_second_first(rt, &gate);
}

#[test]
fn workers_at_once(rt: HostRuntime) {
    let state = empty(&rt, rt.alloc());
    expect_both_at_once(&rt, &state);
    forget(state);
}
