// A name that is taken over, and who gets the broadcasts of its owner, found by one thread and by workers.

ghost use Rattle.std.specs.Prelude.{◌≡◌};

use crate::fixture::{add_rule, close, expect_recipients, name_a, new_bus, own, s1_bytes};
use crate::letters::{connect, connect_with, new_letterbox, send_s1};
use crate::outboxes::take_all;
use crate::workers::expect_by_workers;
use owners::WellKnown;
use published::{BusBrand, Opened};
use router::{Bus, Control, Pass, PlainMailbox, Sent};
use routing::Mailbox;
use std::alloc::Global;
use std::marker::Brand;
use std::mem::forget;
use std::process::Abort;
use std::sync::Wait;
use std::thread::Threads;

#[test]
fn takeover_through_passes(rt: HostRuntime) {
    take_over::<Brand, _>(&rt, rt.alloc(), Opened::<PlainMailbox>::new());
}

fn take_over<B: BusBrand, R: Wait + Threads + Abort>(
    rt: &R,
    alloc: Global,
    opened: Opened<PlainMailbox>,
)
    requires { opened ≡ B.book }
{
    let bus = new_bus::<B, R>(rt, alloc, opened);
    let (mailbox, turn) = new_letterbox(rt, alloc);
    let mut one = connect(rt, alloc, &bus);
    let mut second_pass = connect_with(rt, &bus, &mailbox, turn);
    let mut three = connect(rt, alloc, &bus);
    add_rule(rt, alloc, &bus, &mut three, "sender='com.example.A'", 1);
    let name = name_a(rt);
    own(rt, &bus, &mut one, &name, 1, None, 1);
    expect_each_way(rt, &mut one, &[3]);
    expect_each_way(rt, &mut second_pass, &[]);
    own(rt, &bus, &mut second_pass, &name, 2, Some(1), 2);
    expect_each_way(rt, &mut one, &[]);
    expect_each_way(rt, &mut second_pass, &[3]);
    look_up(rt, alloc, &bus, &mut one, &name);
    send_s1(rt, alloc, &bus, &mut one, "com.example.A", Sent::Put(2));
    expect_s1(rt, alloc, &mailbox);
    close(rt, &bus, &mut second_pass);
    expect_each_way(rt, &mut one, &[3]);
    forget(one);
    forget(second_pass);
    forget(three);
    forget(mailbox);
    forget(bus);
}

// Each way to find the recipients of S1 gives them.
fn expect_each_way<B: BusBrand, R: Wait + Threads + Abort>(
    rt: &R,
    pass: &mut Pass<B, PlainMailbox>,
    wanted: &[u64],
) {
    expect_recipients(rt, pass, wanted);
    for workers in [1, 2, 16] {
        expect_by_workers(rt, pass, workers, wanted);
    }
}

// The second of three connections owns the one name, and the first waits for it.
fn look_up<B: BusBrand, R: Wait + Abort>(
    rt: &R,
    alloc: Global,
    bus: &Bus<B, PlainMailbox, &R>,
    pass: &mut Pass<B, PlainMailbox>,
    name: &WellKnown,
) {
    assert_eq!(rt; pass.owner_of(name.as_str()), Ok(Some(2)));
    let control = bus.control(rt);
    assert_eq!(rt; control.primary_owner(name), Some(2));
    expect_queue(rt, alloc, &control, name, &[2, 1]);
    expect_names(rt, alloc, &control, name, &[1, 2, 3]);
}

// These have a claim on the name, the owner first.
fn expect_queue<B: BusBrand, R: Wait + Abort>(
    rt: &R,
    alloc: Global,
    control: &Control<B, PlainMailbox, &R>,
    name: &WellKnown,
    wanted: &[u64],
) {
    let queue = control.queued_owners(alloc, name).expect(rt, "the queue");
    assert_eq!(rt; queue.as_slice(), wanted);
}

// These are connected, and the name is the only one that is owned.
fn expect_names<B: BusBrand, R: Wait + Abort>(
    rt: &R,
    alloc: Global,
    control: &Control<B, PlainMailbox, &R>,
    name: &WellKnown,
    connected: &[u64],
) {
    assert_eq!(rt; control.numbers().as_slice(), connected);
    assert!(rt; control.is_connected(3));
    assert!(rt; !control.is_connected(4));
    let names = control.names(alloc).expect(rt, "the names");
    assert_eq!(rt; names.len(), 1);
    assert!(rt; names[0] == *name);
}

// The message in the mailbox is S1, and the only one.
fn expect_s1<R: Wait + Abort>(rt: &R, alloc: Global, mailbox: &PlainMailbox) {
    let items = take_all(rt, alloc, mailbox.outbox());
    assert_eq!(rt; items.len(), 1);
    assert_eq!(rt; items[0].bytes().as_slice(), s1_bytes().as_slice());
    forget(items);
}
