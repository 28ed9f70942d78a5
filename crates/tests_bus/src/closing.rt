// A recipient that closes while a broadcast to it is on its way.

ghost use Rattle.std.specs.Prelude.{◌≡◌};

use crate::fixture::{new_bus, read_message, s1_bytes};
use crate::letters::{
    attach_to_all, connect, connect_with, expect_letters, new_letterbox, route_s1,
};
use published::{BusBrand, Opened};
use router::{Bus, Pass, PlainMailbox, Source};
use routing::Gate;
use std::alloc::Global;
use std::cell::Cell;
use std::marker::Brand;
use std::mem::forget;
use std::process::Abort;
use std::sync::Wait;

/// A gate that closes a pass before the first put.
#[derive(Drop)]
struct Closing<'a, B: BusBrand, W: Wait, R: Wait + Drop> {
    rt: &'a W,
    bus: &'a Bus<B, PlainMailbox, R>,
    pass: Cell<Option<Pass<B, PlainMailbox>>>,
    closed: Cell<bool>,
}

impl<B: BusBrand, W: Wait, R: Wait + Drop> Gate for Closing<'_, B, W, R> {
    fn before(&self, _piece: u32) {
        if let Some(mut pass) = self.pass.replace(None) {
            self.closed.set(self.bus.close(self.rt, &mut pass).is_ok());
        }
    }

    fn after(&self, _piece: u32) {}
}

#[test]
fn closed_between(rt: HostRuntime) {
    route_and_close::<Brand, _>(&rt, rt.alloc(), Opened::<PlainMailbox>::new());
}

fn route_and_close<B: BusBrand, R: Wait + Abort>(
    rt: &R,
    alloc: Global,
    opened: Opened<PlainMailbox>,
)
    requires { opened ≡ B.book }
{
    let bus = new_bus::<B, R>(rt, alloc, opened);
    let (stays, stays_turn) = new_letterbox(rt, alloc);
    let (goes, goes_turn) = new_letterbox(rt, alloc);
    let mut one = connect(rt, alloc, &bus);
    let mut second_pass = connect_with(rt, &bus, &stays, stays_turn);
    attach_to_all(rt, alloc, &bus, &mut second_pass);
    let mut three = connect_with(rt, &bus, &goes, goes_turn);
    attach_to_all(rt, alloc, &bus, &mut three);
    close_between(rt, alloc, &bus, &mut one, three);
    expect_letters(rt, alloc, &stays, 1);
    expect_letters(rt, alloc, &goes, 1);
    route_s1(rt, alloc, &bus, &mut one, &[]);
    expect_letters(rt, alloc, &stays, 1);
    expect_letters(rt, alloc, &goes, 0);
    forget(one);
    forget(second_pass);
    forget(stays);
    forget(goes);
    forget(bus);
}

// Nobody refuses the broadcast: `close` doesn't touch the outbox.
fn close_between<B: BusBrand, R: Wait + Abort>(
    rt: &R,
    alloc: Global,
    bus: &Bus<B, PlainMailbox, &R>,
    pass: &mut Pass<B, PlainMailbox>,
    other: Pass<B, PlainMailbox>,
) {
    let gate = Closing {
        rt,
        bus,
        pass: Cell::new(Some(other)),
        closed: Cell::new(false),
    };
    let bytes = s1_bytes();
    let view = read_message(rt, bytes.as_slice());
    let refused = bus
        .route_gated(rt, alloc, pass, Source::Own, &view, &bytes, &gate)
        .expect(rt, "a count");
    assert!(rt; refused.is_empty());
    assert!(rt; gate.closed.get());
    forget(gate);
}
