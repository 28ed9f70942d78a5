// Sessions one after the other, and one connection too many.

ghost use Rattle.std.specs.Prelude.{◌≡◌};

use crate::fixture::{KEY, expect_error, expect_reply, new_bus};
use crate::letters::{connect, new_letterbox};
use program_table::Reply;
use published::{BusBrand, Opened};
use router::{Bus, BusError, Capacity, PlainMailbox};
use std::alloc::Global;
use std::marker::Brand;
use std::mem::forget;
use std::process::Abort;
use std::sync::Wait;

#[test]
fn thousand_sessions(rt: HostRuntime) {
    open_and_close::<Brand, _>(&rt, rt.alloc(), Opened::<PlainMailbox>::new());
}

fn open_and_close<B: BusBrand, R: Wait + Abort>(rt: &R, alloc: Global, opened: Opened<PlainMailbox>)
    requires { opened ≡ B.book }
{
    let bus = new_bus::<B, R>(rt, alloc, opened);
    for number in 1..=1000 {
        hold_session(rt, alloc, &bus, number);
    }
    forget(bus);
}

// A session that connects, closes and gives its pass back.
fn hold_session<B: BusBrand, R: Wait + Abort>(
    rt: &R,
    alloc: Global,
    bus: &Bus<B, PlainMailbox, &R>,
    number: u64,
) {
    let mut pass = bus.pass(rt).expect(rt, "a pass");
    let (letterbox, turn) = new_letterbox(rt, alloc);
    let connected = bus.connect(rt, &mut pass, letterbox, turn);
    expect_reply(rt, connected, Reply::Connected(number));
    expect_reply(rt, bus.close(rt, &mut pass), Reply::Done);
    assert!(rt; pass.is_closed());
    bus.take_back(rt, pass);
}

#[test]
fn connection_257(rt: HostRuntime) {
    connect_all::<Brand, _>(&rt, rt.alloc(), Opened::<PlainMailbox>::new());
}

fn connect_all<B: BusBrand, R: Wait + Abort>(rt: &R, alloc: Global, opened: Opened<PlainMailbox>)
    requires { opened ≡ B.book }
{
    let bus = new_bus::<B, R>(rt, alloc, opened);
    for _ in 0..256 {
        forget(connect(rt, alloc, &bus));
    }
    let mut pass = bus.pass(rt).expect(rt, "a pass");
    let (letterbox, turn) = new_letterbox(rt, alloc);
    let last = bus.connect(rt, &mut pass, letterbox, turn);
    expect_error(rt, last, BusError::ConnectionsFull);
    forget(pass);
    forget(bus);
}

// A bus that may have one connection.
#[test]
fn second_of_one_connection(rt: HostRuntime) {
    connect_two::<Brand, _>(&rt, rt.alloc(), Opened::<PlainMailbox>::new());
}

fn connect_two<B: BusBrand, R: Wait + Abort>(rt: &R, alloc: Global, opened: Opened<PlainMailbox>)
    requires { opened ≡ B.book }
{
    let capacity = Capacity {
        connections: 1,
        ..Capacity::standard()
    };
    let bus = Bus::<B, PlainMailbox, &R>::with_capacity(rt, alloc, KEY, opened, 2, capacity).expect(
        rt, "a bus",
    );
    forget(connect(rt, alloc, &bus));
    let mut second = bus.pass(rt).expect(rt, "a pass");
    let (letterbox, turn) = new_letterbox(rt, alloc);
    let last = bus.connect(rt, &mut second, letterbox, turn);
    expect_error(rt, last, BusError::ConnectionsFull);
    forget(second);
    forget(bus);
}
