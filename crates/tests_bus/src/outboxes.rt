//! What stands in outboxes.

use bytes::Bytes;
use outbox::{Delivery, Outbox, ROOM, Taker};
use std::alloc::Global;
use std::mem::forget;
use std::process::Abort;
use std::sync::Wait;

/// These bytes, of which nothing is promised.
pub(crate) fn new_bytes(bytes: &'static [u8]) -> Bytes {
    Bytes::from_static(bytes)
}

pub(crate) fn new_outbox<R: Abort>(rt: &R, alloc: Global) -> Outbox {
    Outbox::new(alloc).expect(rt, "an outbox")
}

pub(crate) fn new_taker<R: Abort>(rt: &R, outbox: &Outbox) -> Taker {
    Taker::new(outbox).expect(rt, "a taker")
}

/// The taker is given a message with this mark.
pub(crate) fn expect_next<R: Wait + Abort>(rt: &R, taker: &mut Taker, mark: Option<(u64, u64)>) {
    let delivery = taker.take(rt).expect(rt, "a message");
    assert_eq!(rt; delivery.mark(), mark);
}

/// The taker is given nothing.
pub(crate) fn expect_none<R: Wait + Abort>(rt: &R, taker: &mut Taker) {
    assert!(rt; taker.take(rt).is_none());
}

/// The taker's outbox is shut.
pub(crate) fn expect_shut<R: Abort>(rt: &R, taker: &mut Taker) {
    assert!(rt; taker.is_shut());
}

/// Takes all that the outbox gives out.
pub(crate) fn take_all<R: Wait + Abort>(rt: &R, alloc: Global, outbox: &Outbox) -> Vec<Delivery> {
    let mut taker = new_taker(rt, outbox);
    let mut items = Vec::new(alloc);
    for _ in 0..ROOM {
        if let Some(item) = taker.take(rt) {
            items.push(item).expect(rt, "memory");
        }
    }
    items
}

/// That just this many broadcasts of each of the origins 1 and 2 stand in the outbox, in the order of their counts.
/// They are taken.
pub(crate) fn expect_both_in_order<R: Wait + Abort>(
    rt: &R,
    alloc: Global,
    outbox: &Outbox,
    broadcasts: u64,
) {
    let items = take_all(rt, alloc, outbox);
    assert_eq!(rt; items.len() as u64, broadcasts.saturating_mul(2));
    assert_eq!(rt; count_in_order(items.as_slice(), 1), broadcasts);
    assert_eq!(rt; count_in_order(items.as_slice(), 2), broadcasts);
    forget(items);
}

/// How many of the items are the origin's broadcasts, where their counts are 1, 2, 3 and so on; else 0.
fn count_in_order(items: &[Delivery], origin: u64) -> u64 {
    let mut count = 0u64;
    for item in items {
        if let Some((from, number)) = item.mark()
            && from == origin
        {
            count = count.wrapping_add(1);
            if number != count {
                return 0;
            }
        }
    }
    count
}
