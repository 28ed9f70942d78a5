// Passes that read by one reader, which is lent to each in turn.

ghost use Rattle.std.specs.Prelude.{◌≡◌};

use crate::fixture::{KEY, close};
use crate::letters::new_letterbox;
use published::{BusBrand, Opened};
use router::{Bus, BusError, Capacity, Pass, PlainMailbox};
use std::alloc::Global;
use std::marker::Brand;
use std::mem::forget;
use std::process::Abort;
use std::sync::Wait;

#[test]
fn one_reader_for_two(rt: HostRuntime) {
    lend_in_turn::<Brand, _>(&rt, rt.alloc(), Opened::<PlainMailbox>::new());
}

// A bus with one place for a reader.
fn lend_in_turn<B: BusBrand, R: Wait + Abort>(rt: &R, alloc: Global, opened: Opened<PlainMailbox>)
    requires { opened ≡ B.book }
{
    let bus = Bus::<B, PlainMailbox, &R>::with_capacity(
        rt,
        alloc,
        KEY,
        opened,
        1,
        Capacity::standard(),
    ).expect(rt, "a bus");
    let mut first = connect(rt, alloc, &bus);
    let mut second = connect(rt, alloc, &bus);
    expect_closed(rt, &mut first);
    first.lend(bus.reader(rt).expect(rt, "the reader"));
    expect_busy(rt, &bus);
    expect_both(rt, &mut first);
    second.lend(first.reclaim().expect(rt, "what was lent"));
    expect_closed(rt, &mut first);
    expect_both(rt, &mut second);
    close(rt, &bus, &mut second);
    assert!(rt; second.is_closed());
    // What it was lent goes back to the bus with it.
    bus.take_back(rt, second);
    first.lend(bus.reader(rt).expect(rt, "what was given back"));
    assert_eq!(rt; first.owner_of(":1.2"), Ok(None));
    forget(first);
    forget(bus);
}

// A connected pass without a reader.
fn connect<B: BusBrand, R: Wait + Abort>(
    rt: &R,
    alloc: Global,
    bus: &Bus<B, PlainMailbox, &R>,
) -> Pass<B, PlainMailbox> {
    let mut pass = bus.pass_without_reader(rt);
    let (letterbox, turn) = new_letterbox(rt, alloc);
    let connected = bus.connect(rt, &mut pass, letterbox, turn);
    assert!(rt; connected.is_ok());
    pass
}

fn expect_both<B: BusBrand, R: Abort>(rt: &R, pass: &mut Pass<B, PlainMailbox>) {
    assert_eq!(rt; pass.owner_of(":1.1"), Ok(Some(1)));
    assert_eq!(rt; pass.owner_of(":1.2"), Ok(Some(2)));
}

fn expect_closed<B: BusBrand, R: Abort>(rt: &R, pass: &mut Pass<B, PlainMailbox>) {
    assert!(rt; !pass.has_reader());
    assert_eq!(rt; pass.owner_of(":1.1"), Err(BusError::Closed));
}

// There is no place for a further reader.
fn expect_busy<B: BusBrand, R: Wait + Abort>(rt: &R, bus: &Bus<B, PlainMailbox, &R>) {
    match bus.pass(rt) {
        Ok(pass) => {
            forget(pass);
            panic!(rt; "a pass with a reader of its own");
        }
        Err(error) => assert_eq!(rt; error, BusError::Busy),
    }
}
