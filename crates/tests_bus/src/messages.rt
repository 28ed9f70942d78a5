// Messages that are put into outboxes.

ghost use Rattle.std.specs.Prelude.{◌≡◌};

use crate::fixture::{name_a, new_bus, own, read_message, s1_bytes};
use crate::letters::{
    attach_to_all, connect, connect_with, expect_letters, new_letterbox, route_s1, send_s1,
};
use outbox::ROOM;
use published::{BusBrand, Opened};
use router::{Bus, Pass, PlainMailbox, Sent};
use std::alloc::Global;
use std::marker::Brand;
use std::mem::forget;
use std::process::Abort;
use std::sync::Wait;

#[test]
fn own_recipient_once(rt: HostRuntime) {
    route_to_itself::<Brand, _>(&rt, rt.alloc(), Opened::<PlainMailbox>::new());
}

fn route_to_itself<B: BusBrand, R: Wait + Abort>(
    rt: &R,
    alloc: Global,
    opened: Opened<PlainMailbox>,
)
    requires { opened ≡ B.book }
{
    let bus = new_bus::<B, R>(rt, alloc, opened);
    let (mailbox, turn) = new_letterbox(rt, alloc);
    let mut pass = connect_with(rt, &bus, &mailbox, turn);
    expect_reach(rt, &mut pass, false);
    route_s1(rt, alloc, &bus, &mut pass, &[]);
    expect_letters(rt, alloc, &mailbox, 0);
    attach_to_all(rt, alloc, &bus, &mut pass);
    expect_reach(rt, &mut pass, true);
    attach_to_all(rt, alloc, &bus, &mut pass);
    route_s1(rt, alloc, &bus, &mut pass, &[]);
    expect_letters(rt, alloc, &mailbox, 1);
    forget(pass);
    forget(mailbox);
    forget(bus);
}

// Whether S1 is for anybody.
fn expect_reach<B: BusBrand, R: Abort>(rt: &R, pass: &mut Pass<B, PlainMailbox>, wanted: bool) {
    let bytes = s1_bytes();
    let view = read_message(rt, bytes.as_slice());
    assert_eq!(rt;
        pass.may_reach(&view, ":1.1").expect(rt, "an answer"),
        wanted
    );
}

#[test]
fn unicast_by_names(rt: HostRuntime) {
    own_and_send::<Brand, _>(&rt, rt.alloc(), Opened::<PlainMailbox>::new());
}

fn own_and_send<B: BusBrand, R: Wait + Abort>(rt: &R, alloc: Global, opened: Opened<PlainMailbox>)
    requires { opened ≡ B.book }
{
    let bus = new_bus::<B, R>(rt, alloc, opened);
    let (mailbox, turn) = new_letterbox(rt, alloc);
    let mut one = connect(rt, alloc, &bus);
    let mut second_pass = connect_with(rt, &bus, &mailbox, turn);
    send_s1(rt, alloc, &bus, &mut one, "com.example.A", Sent::NoOwner);
    let name = name_a(rt);
    own(rt, &bus, &mut second_pass, &name, 0, None, 2);
    send_to_each_name(rt, alloc, &bus, &mut one);
    expect_letters(rt, alloc, &mailbox, 2);
    forget(one);
    forget(second_pass);
    forget(mailbox);
    forget(bus);
}

// Two names are the second connection's, and others nobody's.
fn send_to_each_name<B: BusBrand, R: Wait + Abort>(
    rt: &R,
    alloc: Global,
    bus: &Bus<B, PlainMailbox, &R>,
    pass: &mut Pass<B, PlainMailbox>,
) {
    for (name, wanted) in [
        ("com.example.A", Sent::Put(2)),
        (":1.2", Sent::Put(2)),
        (":1.02", Sent::NoOwner),
        (":1.3", Sent::NoOwner),
        (":1.+2", Sent::NoOwner),
        ("com.example.B", Sent::NoOwner),
    ] {
        send_s1(rt, alloc, bus, pass, name, wanted);
    }
}

#[test]
fn full_outbox(rt: HostRuntime) {
    send_one_too_many::<Brand, _>(&rt, rt.alloc(), Opened::<PlainMailbox>::new());
}

fn send_one_too_many<B: BusBrand, R: Wait + Abort>(
    rt: &R,
    alloc: Global,
    opened: Opened<PlainMailbox>,
)
    requires { opened ≡ B.book }
{
    let bus = new_bus::<B, R>(rt, alloc, opened);
    let (full, full_turn) = new_letterbox(rt, alloc);
    let (other, other_turn) = new_letterbox(rt, alloc);
    let mut one = connect_with(rt, &bus, &full, full_turn);
    let mut second_pass = connect_with(rt, &bus, &other, other_turn);
    attach_to_all(rt, alloc, &bus, &mut one);
    attach_to_all(rt, alloc, &bus, &mut second_pass);
    fill_first(rt, alloc, &bus, &mut second_pass);
    route_s1(rt, alloc, &bus, &mut second_pass, &[1]);
    expect_letters(rt, alloc, &full, ROOM);
    expect_letters(rt, alloc, &other, 1);
    forget(one);
    forget(second_pass);
    forget(full);
    forget(other);
    forget(bus);
}

// Sends the first connection as many messages as its outbox holds, and one more.
fn fill_first<B: BusBrand, R: Wait + Abort>(
    rt: &R,
    alloc: Global,
    bus: &Bus<B, PlainMailbox, &R>,
    pass: &mut Pass<B, PlainMailbox>,
) {
    for _ in 0..ROOM {
        send_s1(rt, alloc, bus, pass, ":1.1", Sent::Put(1));
    }
    send_s1(rt, alloc, bus, pass, ":1.1", Sent::Full(1));
}
