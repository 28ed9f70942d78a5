// A thousand rules of which few are about a message.

ghost use Rattle.std.specs.Prelude.{◌≡◌};

use crate::fixture::{M7, add_rule, expect_recipients_of, expect_reply, new_bus};
use crate::letters::connect;
use program_table::Reply;
use published::{BusBrand, Opened};
use router::{Bus, Pass, PlainMailbox, Source};
use std::alloc::Global;
use std::marker::Brand;
use std::mem::forget;
use std::process::Abort;
use std::sync::Wait;

#[test]
fn index_runs(rt: HostRuntime) {
    subscribe_all::<Brand, _>(&rt, rt.alloc(), Opened::<PlainMailbox>::new());
}

// 250 connections with four rules each, of the members `m0` to `m999` in order, and an empty rule of the first one.
fn subscribe_all<B: BusBrand, R: Wait + Abort>(rt: &R, alloc: Global, opened: Opened<PlainMailbox>)
    requires { opened ≡ B.book }
{
    let bus = new_bus::<B, R>(rt, alloc, opened);
    let mut one = subscriber(rt, alloc, &bus, 0);
    let mut second_pass = subscriber(rt, alloc, &bus, 1);
    for place in 2..250 {
        forget(subscriber(rt, alloc, &bus, place));
    }
    add_rule(rt, alloc, &bus, &mut one, "", 1001);
    expect_found(rt, &mut one, &[1, 2]);
    let removed = bus.remove_match(rt, alloc, &mut second_pass, "member='m7'");
    expect_reply(rt, removed, Reply::Done);
    expect_found(rt, &mut one, &[1]);
    forget(one);
    forget(second_pass);
    forget(bus);
}

// A pass whose connection has the four rules from four times its place on.
fn subscriber<B: BusBrand, R: Wait + Abort>(
    rt: &R,
    alloc: Global,
    bus: &Bus<B, PlainMailbox, &R>,
    place: u16,
) -> Pass<B, PlainMailbox> {
    let mut pass = connect(rt, alloc, bus);
    for number in 0..4 {
        subscribe(rt, alloc, bus, &mut pass, 4 * u32::from(place) + number);
    }
    pass
}

fn subscribe<B: BusBrand, R: Wait + Abort>(
    rt: &R,
    alloc: Global,
    bus: &Bus<B, PlainMailbox, &R>,
    pass: &mut Pass<B, PlainMailbox>,
    member: u32,
) {
    let rule = rule_of(rt, alloc, member);
    let added = bus.add_match(rt, alloc, pass, rule.as_str());
    assert!(rt; added.is_ok());
}

// The rule of a member.
fn rule_of<R: Abort>(rt: &R, alloc: Global, member: u32) -> String {
    format!(in alloc; "member='m{member}'").expect(rt, "a text")
}

// The recipients of the bus's own broadcast with the member `m7`.
fn expect_found<B: BusBrand, R: Abort>(rt: &R, pass: &mut Pass<B, PlainMailbox>, wanted: &[u64]) {
    expect_recipients_of(rt, pass, Source::Bus, &M7, wanted);
}
