// A bus that has ended.

ghost use Rattle.std.specs.Prelude.{◌≡◌};

use crate::fixture::{expect_recipients, new_bus, read_message, s1_bytes};
use crate::letters::connect;
use published::{BusBrand, Opened};
use router::{BusError, Pass, PlainMailbox, RouteLists, Source};
use std::alloc::Global;
use std::marker::Brand;
use std::mem::forget;
use std::process::Abort;
use std::sync::Wait;

#[test]
fn bus_is_gone(rt: HostRuntime) {
    look_after_the_end::<Brand, _>(&rt, rt.alloc(), Opened::<PlainMailbox>::new());
}

fn look_after_the_end<B: BusBrand, R: Wait + Abort>(
    rt: &R,
    alloc: Global,
    opened: Opened<PlainMailbox>,
)
    requires { opened ≡ B.book }
{
    let mut pass = survivor::<B, R>(rt, alloc, opened);
    expect_end(rt, &mut pass);
    forget(pass);
}

// A pass whose bus has ended after it was read.
fn survivor<B: BusBrand, R: Wait + Abort>(
    rt: &R,
    alloc: Global,
    opened: Opened<PlainMailbox>,
) -> Pass<B, PlainMailbox>
    requires { opened ≡ B.book }
{
    let bus = new_bus::<B, R>(rt, alloc, opened);
    let mut pass = connect(rt, alloc, &bus);
    expect_recipients(rt, &mut pass, &[]);
    pass
}

// Each look at the published state is Closed.
fn expect_end<B: BusBrand, R: Abort>(rt: &R, pass: &mut Pass<B, PlainMailbox>) {
    let bytes = s1_bytes();
    let view = read_message(rt, bytes.as_slice());
    let found = pass.recipients(Source::Bus, &view);
    assert_eq!(rt; found.err(), Some(BusError::Closed));
    let mut lists = RouteLists::new();
    let listed = pass.recipients_into(Source::Bus, &view, &mut lists);
    assert_eq!(rt; listed, Err(BusError::Closed));
    assert_eq!(rt; pass.owner_of("com.example.A"), Err(BusError::Closed));
}
