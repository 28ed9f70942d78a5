// Two passes that meet, in threads of their own.

ghost use Rattle.std.specs.Prelude.{◌≡◌};

use crate::fixture::{MEMBER_C, add_rule, expect_recipients, new_bus};
use crate::letters::connect;
use published::{BusBrand, HistoryPrefix, Opened};
use router::{Pass, PlainMailbox};
use std::alloc::Global;
use std::marker::Brand;
use std::mem::forget;
use std::process::Abort;
use std::sync::Wait;
use std::thread::{Threads, join};

#[test]
fn meeting(rt: HostRuntime) {
    meet::<Brand, _>(&rt, rt.alloc(), Opened::<PlainMailbox>::new());
}

fn meet<B: BusBrand + Send + Sync, R: Wait + Threads + Sync + Abort>(
    rt: &R,
    alloc: Global,
    opened: Opened<PlainMailbox>,
)
    requires { opened ≡ B.book }
{
    let bus = new_bus::<B, R>(rt, alloc, opened);
    let mut one = connect(rt, alloc, &bus);
    let mut second_pass = connect(rt, alloc, &bus);
    add_rule(rt, alloc, &bus, &mut one, MEMBER_C, 1);
    let told_history = bus.tell(rt, &mut one).expect(rt, "the history");
    look_in_a_thread(rt, &mut second_pass, &told_history);
    forget(one);
    forget(second_pass);
    forget(told_history);
    forget(bus);
}

fn look_in_a_thread<B: BusBrand + Send + Sync, R: Threads + Sync + Abort>(
    rt: &R,
    pass: &mut Pass<B, PlainMailbox>,
    told_history: &HistoryPrefix<B, PlainMailbox>,
) {
    let _ = join(rt, || learn_and_look(rt, pass, told_history), || ());
}

// The one recipient of S1 that a pass finds once it was told.
fn learn_and_look<B: BusBrand, R: Abort>(
    rt: &R,
    pass: &mut Pass<B, PlainMailbox>,
    told_history: &HistoryPrefix<B, PlainMailbox>,
) {
    pass.learn(told_history);
    expect_recipients(rt, pass, &[1]);
}
