// Two passes, in threads of their own, that send to one recipient.

ghost use Rattle.std.specs.Prelude.{◌≡◌};

use crate::fixture::new_bus;
use crate::letters::{attach_to_all, connect, connect_with, new_letterbox, route_s1};
use crate::outboxes::expect_both_in_order;
use published::{BusBrand, Opened};
use router::{Bus, Pass, PlainMailbox};
use routing::Mailbox;
use std::alloc::Global;
use std::marker::Brand;
use std::mem::forget;
use std::process::Abort;
use std::sync::Wait;
use std::thread::{Threads, join};

const BROADCASTS: u64 = 100;

#[test]
fn order_of_two_origins(rt: HostRuntime) {
    send_and_take::<Brand, _>(&rt, rt.alloc(), Opened::<PlainMailbox>::new());
}

fn send_and_take<B: BusBrand + Send + Sync, R: Wait + Threads + Sync + Abort>(
    rt: &R,
    alloc: Global,
    opened: Opened<PlainMailbox>,
)
    requires { opened ≡ B.book }
{
    let bus = new_bus::<B, R>(rt, alloc, opened);
    let (mailbox, turn) = new_letterbox(rt, alloc);
    let mut one = connect(rt, alloc, &bus);
    let mut second_pass = connect(rt, alloc, &bus);
    let mut three = connect_with(rt, &bus, &mailbox, turn);
    attach_to_all(rt, alloc, &bus, &mut three);
    send_at_once(rt, alloc, &bus, &mut one, &mut second_pass);
    expect_both_in_order(rt, alloc, mailbox.outbox(), BROADCASTS);
    forget(one);
    forget(second_pass);
    forget(three);
    forget(mailbox);
    forget(bus);
}

fn send_at_once<B: BusBrand + Send + Sync, R: Wait + Threads + Sync + Abort>(
    rt: &R,
    alloc: Global,
    bus: &Bus<B, PlainMailbox, &R>,
    one: &mut Pass<B, PlainMailbox>,
    second_pass: &mut Pass<B, PlainMailbox>,
) {
    let _ = join(
        rt,
        || send(rt, alloc, bus, one),
        || send(rt, alloc, bus, second_pass),
    );
}

// Routes the broadcasts of a pass, which nobody refuses.
fn send<B: BusBrand, R: Wait + Abort>(
    rt: &R,
    alloc: Global,
    bus: &Bus<B, PlainMailbox, &R>,
    pass: &mut Pass<B, PlainMailbox>,
) {
    for _ in 0..BROADCASTS {
        route_s1(rt, alloc, bus, pass, &[]);
    }
}
