// Messages of a sender that are held, and given out together or never.

use crate::outboxes::{expect_next, expect_none, expect_shut, new_outbox, new_taker};
use crate::routes::{expect_sent, reply, sender_to};
use routing::Sent;
use std::mem::forget;

// What is held is given out together, in the order in which it was put.
#[test]
fn released_together(rt: HostRuntime) {
    let alloc = rt.alloc();
    let outbox = new_outbox(&rt, alloc);
    let mut taker = new_taker(&rt, &outbox);
    let mut sender = sender_to(&rt, alloc, &outbox);
    sender.hold();
    reply(&rt, alloc, &mut sender, Sent::Put);
    expect_sent(&rt, alloc, &mut sender, 1, 1);
    expect_none(&rt, &mut taker);
    sender.release();
    expect_next(&rt, &mut taker, None);
    expect_next(&rt, &mut taker, Some((1, 1)));
    forget(sender);
    forget(taker);
    forget(outbox);
}

// What is withdrawn is never given out, nor what stands after it: the outbox is shut.
#[test]
fn withdrawn_is_never_given_out(rt: HostRuntime) {
    let alloc = rt.alloc();
    let outbox = new_outbox(&rt, alloc);
    let mut taker = new_taker(&rt, &outbox);
    let mut sender = sender_to(&rt, alloc, &outbox);
    sender.hold();
    reply(&rt, alloc, &mut sender, Sent::Put);
    sender.withdraw();
    sender.push_out(&rt);
    expect_none(&rt, &mut taker);
    expect_shut(&rt, &mut taker);
    forget(sender);
    forget(taker);
    forget(outbox);
}

// A message that another sender puts after a held one waits for it, and writing out releases what is held.
#[test]
fn waits_behind_a_held_message(rt: HostRuntime) {
    let alloc = rt.alloc();
    let outbox = new_outbox(&rt, alloc);
    let mut taker = new_taker(&rt, &outbox);
    let mut sender = sender_to(&rt, alloc, &outbox);
    let mut other = sender_to(&rt, alloc, &outbox);
    sender.hold();
    expect_sent(&rt, alloc, &mut sender, 1, 1);
    reply(&rt, alloc, &mut other, Sent::Put);
    expect_none(&rt, &mut taker);
    sender.push_out(&rt);
    expect_next(&rt, &mut taker, Some((1, 1)));
    expect_next(&rt, &mut taker, None);
    forget(sender);
    forget(other);
    forget(taker);
    forget(outbox);
}
