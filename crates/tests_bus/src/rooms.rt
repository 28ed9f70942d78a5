// Outboxes: what no contract says of how much may wait.

ghost use Rattle.std.specs.Prelude.{◌≡◌};

use crate::outboxes::new_taker;
use bytes::Bytes;
use outbox::{Item, Outbox, Room, Taker};
use std::alloc::Global;
use std::mem::forget;
use std::process::Abort;
use std::sync::Wait;

/// A message of six bytes.
fn signal<R: Abort>(rt: &R, alloc: Global) -> Item
    ensures { (result.mark ≡ None) × (result.place ≡ None) }
{
    Item::new(alloc, Bytes::from_static(b"signal"), None).expect(rt, "memory")
}

fn outbox_of<R: Abort>(rt: &R, alloc: Global, messages: usize, bytes: usize) -> Outbox {
    Outbox::with_room(alloc, Room { messages, bytes }).expect(rt, "an outbox")
}

fn takes_one<R: Wait + Abort>(rt: &R, alloc: Global, outbox: &Outbox) -> bool {
    let mut seat = outbox.seat();
    outbox.put(rt, &mut seat, signal(rt, alloc)).is_ok()
}

/// How many of ten messages an outbox takes until one is refused.
fn count_taken<R: Wait + Abort>(rt: &R, alloc: Global, outbox: &Outbox) -> usize {
    for count in 0..10 {
        if !takes_one(rt, alloc, outbox) {
            return count;
        }
    }
    10
}

#[test]
fn room_for_three_messages(rt: HostRuntime) {
    let outbox = outbox_of(&rt, rt.alloc(), 3, 1000);
    assert_eq!(rt; count_taken(&rt, rt.alloc(), &outbox), 3);
    forget(outbox);
}

// Twelve bytes wait before the third message, and eighteen before the fourth.
#[test]
fn room_for_thirteen_bytes(rt: HostRuntime) {
    let outbox = outbox_of(&rt, rt.alloc(), 1000, 13);
    assert_eq!(rt; count_taken(&rt, rt.alloc(), &outbox), 3);
    forget(outbox);
}

#[test]
fn an_empty_outbox_has_room_for_any_message(rt: HostRuntime) {
    let outbox = outbox_of(&rt, rt.alloc(), 1000, 1);
    assert_eq!(rt; count_taken(&rt, rt.alloc(), &outbox), 1);
    forget(outbox);
}

fn passes_one<R: Wait + Abort>(rt: &R, alloc: Global, outbox: &Outbox, taker: &mut Taker) -> bool {
    takes_one(rt, alloc, outbox) && taker.take(rt).is_some()
}

// What was taken doesn't wait, however often.
#[test]
fn room_comes_back(rt: HostRuntime) {
    let outbox = outbox_of(&rt, rt.alloc(), 1, 1);
    let mut taker = new_taker(&rt, &outbox);
    for _ in 0..1000 {
        assert!(rt; passes_one(&rt, rt.alloc(), &outbox, &mut taker));
    }
    forget(taker);
    forget(outbox);
}
