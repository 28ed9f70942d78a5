// Outboxes: what no contract says, that a put is refused only by an outbox that is full or shut.

ghost use Rattle.std.specs.Prelude.{◌≡◌, false};

use crate::outboxes::{expect_next, expect_none, new_bytes, new_outbox, new_taker};
use outbox::{Item, Outbox, ROOM, Releases, Taker};
use std::alloc::Global;
use std::mem::forget;
use std::process::Abort;
use std::sync::Wait;

fn unicast<R: Abort>(rt: &R, alloc: Global) -> Item
    ensures { (result.mark ≡ None) × (result.place ≡ None) }
{
    Item::new(alloc, new_bytes(b"signal"), None).expect(rt, "memory")
}

// Whether an outbox takes as many messages as it holds, and then shuts.
fn fills_and_shuts<R: Wait + Abort>(rt: &R, alloc: Global, outbox: &Outbox) -> bool {
    let mut seat = outbox.seat();
    for _ in 0..ROOM {
        if outbox.put(rt, &mut seat, unicast(rt, alloc)).is_err() {
            return false;
        }
    }
    let was_open = !outbox.is_shut(&mut seat);
    let is_refused = outbox.put(rt, &mut seat, unicast(rt, alloc)).is_err();
    let has_oldest = new_taker(rt, outbox).take(rt).is_some();
    let stays_refused = outbox.put(rt, &mut seat, unicast(rt, alloc)).is_err();
    was_open && is_refused && has_oldest && stays_refused && outbox.is_shut(&mut seat)
}

#[test]
fn full_outbox(rt: HostRuntime) {
    let outbox = new_outbox(&rt, rt.alloc());
    assert!(rt; fills_and_shuts(&rt, rt.alloc(), &outbox));
    forget(outbox);
}

// What one handle puts, the other takes: a broadcast once it is released.
fn exchange<R: Wait + Abort>(rt: &R, alloc: Global, outbox: &Outbox, other: &Outbox) {
    let mut taker = new_taker(rt, other);
    let mut releases = Releases::new(alloc).expect(rt, "memory");
    put_one(rt, alloc, outbox, &mut releases, &mut taker);
    expect_none(rt, &mut taker);
    releases.release();
    expect_next(rt, &mut taker, Some((7, 5)));
    expect_none(rt, &mut taker);
}

// Puts a broadcast, which the taker isn't given.
fn put_one<R: Wait + Abort>(
    rt: &R,
    alloc: Global,
    outbox: &Outbox,
    releases: &mut Releases,
    taker: &mut Taker,
)
    requires { releases.old.is_putting ≡ false }
    ensures { releases.new.is_putting ≡ false }
{
    let mut seat = outbox.seat();
    let mut shares = releases
        .begin(alloc, new_bytes(b"signal"), Some((7, 5)), None, 1)
        .expect(rt, "memory");
    assert!(rt; outbox.put(rt, &mut seat, shares.next()).is_ok());
    expect_none(rt, taker);
    releases.end(shares);
}

#[test]
fn broadcast_is_taken_by_another_handle(rt: HostRuntime) {
    let outbox = new_outbox(&rt, rt.alloc());
    let shared = outbox.share().expect(&rt, "a share");
    exchange(&rt, rt.alloc(), &outbox, &shared);
    forget(outbox);
    forget(shared);
}
