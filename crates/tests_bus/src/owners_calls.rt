// Names, and the slots that they get. What requests and releases are answered is in the files of cases_bus.

use owners::{Claims, MAX_RULES, NameReply, WellKnown};
use std::alloc::Global;
use std::mem::forget;
use std::process::Abort;

fn new_claims<R: Abort>(rt: &R, alloc: Global) -> Claims {
    Claims::new(alloc).expect(rt, "claims")
}

fn name<R: Abort>(rt: &R, text: &str) -> WellKnown {
    WellKnown::read(text).expect(rt, "a name")
}

// The name is the connection's from now on.
fn own<R: Abort>(rt: &R, claims: &mut Claims, text: &str, connection: u64) {
    let name = name(rt, text);
    let named = claims.request(&name, connection, 0).expect(rt, "a reply");
    assert_eq!(rt; named.answer, NameReply::PrimaryOwner);
}

// The name would be the connection's if it asked for it.
fn ask<R: Abort>(rt: &R, claims: &Claims, text: &str, connection: u64) {
    let name = name(rt, text);
    let named = claims
        .request_reply(&name, connection, 0)
        .expect(rt, "a reply");
    assert_eq!(rt; named.answer, NameReply::PrimaryOwner);
}

// The name would be released if its owner did so.
fn ask_to_release<R: Abort>(rt: &R, claims: &Claims, text: &str, connection: u64) {
    let name = name(rt, text);
    let named = claims.release_reply(&name, connection);
    assert_eq!(rt; named.answer, NameReply::Released);
}

fn release<R: Abort>(rt: &R, claims: &mut Claims, text: &str, connection: u64) {
    let name = name(rt, text);
    let named = claims.release(&name, connection);
    assert_eq!(rt; named.answer, NameReply::Released);
}

fn expect_owner<R: Abort>(rt: &R, claims: &Claims, text: &str, wanted: Option<u64>) {
    assert_eq!(rt; claims.owner_of(text), wanted);
}

fn expect_slot<R: Abort>(rt: &R, claims: &Claims, text: &str, wanted: Option<u16>) {
    assert_eq!(rt; claims.slot_of(text), wanted);
}

fn expect_next_slot<R: Abort>(rt: &R, claims: &Claims, text: &str, wanted: u16) {
    assert_eq!(rt; claims.slot_next(text), Some(wanted));
}

#[test]
fn questions_change_nothing(rt: HostRuntime) {
    let mut claims = new_claims(&rt, rt.alloc());
    ask(&rt, &claims, "com.example.A", 1);
    expect_owner(&rt, &claims, "com.example.A", None);
    own(&rt, &mut claims, "com.example.A", 1);
    ask_to_release(&rt, &claims, "com.example.A", 1);
    expect_owner(&rt, &claims, "com.example.A", Some(1));
    forget(claims);
}

fn expect_owned<R: Abort>(rt: &R, claims: &Claims, connection: u64, slot: u16, other: u16) {
    let owned = claims.slots_of(connection);
    assert!(rt; owned.contains(slot));
    assert!(rt; !owned.contains(other));
}

#[test]
fn slots_of_owned_names(rt: HostRuntime) {
    let mut claims = new_claims(&rt, rt.alloc());
    own(&rt, &mut claims, "com.example.A", 1);
    own(&rt, &mut claims, "com.example.B", 2);
    expect_owned(&rt, &claims, 2, 1, 0);
    expect_slot(&rt, &claims, "com.example.B", Some(1));
    expect_next_slot(&rt, &claims, "com.example.C", 2);
    forget(claims);
}

// A rule with the name as its sender is the first one that is added.
fn add_rule<R: Abort>(rt: &R, claims: &mut Claims, text: &str, slot: u16) {
    let name = name(rt, text);
    assert!(rt; claims.rules_of(name.as_str()) < MAX_RULES);
    assert_eq!(rt; claims.slot_for(&name).expect(rt, "a slot"), slot);
}

fn remove_rule<R: Abort>(rt: &R, claims: &mut Claims, text: &str) {
    let name = name(rt, text);
    assert_eq!(rt; claims.rules_of(name.as_str()), 1);
    claims.slot_free(&name);
}

/// A rule keeps the slot of a name that nobody claims any more.
#[test]
fn slots_of_rules(rt: HostRuntime) {
    let mut claims = new_claims(&rt, rt.alloc());
    add_rule(&rt, &mut claims, "com.example.A", 0);
    own(&rt, &mut claims, "com.example.A", 1);
    release(&rt, &mut claims, "com.example.A", 1);
    expect_next_slot(&rt, &claims, "com.example.B", 1);
    remove_rule(&rt, &mut claims, "com.example.A");
    expect_slot(&rt, &claims, "com.example.A", None);
    own(&rt, &mut claims, "com.example.B", 1);
    expect_slot(&rt, &claims, "com.example.B", Some(0));
    forget(claims);
}

fn expect_order<R: Abort>(rt: &R, claims: &Claims) {
    let a = name(rt, "com.example.A");
    let b = name(rt, "com.example.B");
    assert_eq!(rt; claims.next_name(None), Some(a.copy()));
    assert_eq!(rt; claims.next_name(Some(&a)), Some(b.copy()));
    assert_eq!(rt; claims.next_name(Some(&b)), None);
}

#[test]
fn names_in_order(rt: HostRuntime) {
    let mut claims = new_claims(&rt, rt.alloc());
    own(&rt, &mut claims, "com.example.B", 1);
    own(&rt, &mut claims, "com.example.A", 2);
    expect_order(&rt, &claims);
    forget(claims);
}
