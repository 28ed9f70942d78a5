// Recipients that workers find for a pass.

ghost use Rattle.std.specs.Prelude.{◌≡◌};

use crate::fixture::{new_bus, read_message, s1_bytes};
use crate::gates::{expect_second_first, open_gate, second_first};
use crate::letters::connect;
use fan_out::FanError;
use published::{BusBrand, Opened};
use router::{BusError, Pass, PlainMailbox, Source};
use std::alloc::Global;
use std::marker::Brand;
use std::mem::forget;
use std::process::Abort;
use std::sync::Wait;
use std::thread::Threads;

/// The recipients of S1 as a broadcast of the pass, found by `workers` workers.
pub(crate) fn expect_by_workers<B: BusBrand, R: Wait + Threads + Abort>(
    rt: &R,
    pass: &mut Pass<B, PlainMailbox>,
    workers: u32,
    wanted: &[u64],
) {
    let bytes = s1_bytes();
    let view = read_message(rt, bytes.as_slice());
    let gate = open_gate();
    let found = pass
        .recipients_many(rt, Source::Own, &view, workers, &gate)
        .expect(rt, "the recipients");
    assert_eq!(rt; found.as_slice(), wanted);
}

#[test]
fn workers_at_once(rt: HostRuntime) {
    find_by_workers::<Brand, _>(&rt, rt.alloc(), Opened::<PlainMailbox>::new());
}

fn find_by_workers<B: BusBrand, R: Wait + Threads + Abort>(
    rt: &R,
    alloc: Global,
    opened: Opened<PlainMailbox>,
)
    requires { opened ≡ B.book }
{
    let bus = new_bus::<B, R>(rt, alloc, opened);
    let mut pass = connect(rt, alloc, &bus);
    expect_both_at_once(rt, &mut pass);
    expect_refusal(rt, &mut pass, 0);
    expect_refusal(rt, &mut pass, 17);
    forget(pass);
    forget(bus);
}

// The first of two workers waits until the second is done.
fn expect_both_at_once<B: BusBrand, R: Wait + Threads + Abort>(
    rt: &R,
    pass: &mut Pass<B, PlainMailbox>,
) {
    let bytes = s1_bytes();
    let view = read_message(rt, bytes.as_slice());
    let gate = second_first();
    let found = pass
        .recipients_many(rt, Source::Own, &view, 2, &gate)
        .expect(rt, "the recipients");
    assert!(rt; found.is_empty());
    expect_second_first(rt, &gate);
}

// This number of workers is refused.
fn expect_refusal<B: BusBrand, R: Wait + Threads + Abort>(
    rt: &R,
    pass: &mut Pass<B, PlainMailbox>,
    workers: u32,
) {
    let bytes = s1_bytes();
    let view = read_message(rt, bytes.as_slice());
    let gate = open_gate();
    let found = pass.recipients_many(rt, Source::Own, &view, workers, &gate);
    assert_eq!(rt; found.err(), Some(BusError::Fan(FanError::Workers)));
}
