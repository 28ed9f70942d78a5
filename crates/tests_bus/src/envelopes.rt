// Rules that ask for an envelope: for a kind, a sender by its own name, or any destination.

use crate::fixture::S1;
use crate::state::{connect, empty, expect_counted, read_message, subscribe};
use program_table::BusState;
use std::mem::forget;
use std::process::Abort;

/// The same as `S1`, but sent by the bus to `:1.9`.
const TO_ONE: [u8; 112] = [
    b'l', 4, 0, 1, 0, 0, 0, 0, 1, 0, 0, 0, 0x5d, 0, 0, 0, 1, 1, b'o', 0, 2, 0, 0, 0, b'/', b'a', 0,
    0, 0, 0, 0, 0, 2, 1, b's', 0, 3, 0, 0, 0, b'a', b'.', b'b', 0, 0, 0, 0, 0, 3, 1, b's', 0, 1, 0,
    0, 0, b'c', 0, 0, 0, 0, 0, 0, 0, 7, 1, b's', 0, 0x14, 0, 0, 0, b'o', b'r', b'g', b'.', b'f',
    b'r', b'e', b'e', b'd', b'e', b's', b'k', b't', b'o', b'p', b'.', b'D', b'B', b'u', b's', 0, 0,
    0, 0, 6, 1, b's', 0, 4, 0, 0, 0, b':', b'1', b'.', b'9', 0, 0, 0, 0,
];

/// Connections, each with its rule.
const RULES: [(u64, &str); 5] = [
    (1, "type='signal',member='c'"),
    (2, "type='error',member='c'"),
    (3, "sender='org.freedesktop.DBus',member='c'"),
    (
        4,
        "sender='org.freedesktop.DBus',member='c',eavesdrop='true'",
    ),
    (5, "sender=':1.7',member='c',eavesdrop='true'"),
];

/// One connection gets the message, and no program of another one's rule is run.
fn expect_one<R: Abort>(rt: &R, state: &BusState<()>, message: &[u8], recipient: u64) {
    let view = read_message(rt, message);
    expect_counted(rt, state, &view, [recipient].as_slice(), 1);
}

#[test]
fn envelopes(rt: HostRuntime) {
    let alloc = rt.alloc();
    let mut state = empty(&rt, alloc);
    for (connection, rule) in RULES {
        connect(&rt, &mut state);
        subscribe(&rt, alloc, &mut state, connection, rule);
    }
    expect_one(&rt, &state, &S1, 1);
    expect_one(&rt, &state, &TO_ONE, 4);
    forget(state);
}
