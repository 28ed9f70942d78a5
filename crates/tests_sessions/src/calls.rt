// Calls of the methods of the bus.

use bus_messages::{Call, CallError};
use message_build::Builder;
use message_view::{Kind, View};
use std::alloc::Global;
use std::mem::forget;
use std::process::Abort;

const BUS: &str = "org.freedesktop.DBus";

const PEER: &str = "org.freedesktop.DBus.Peer";

const PROGRAMS: &str = "org.example.ProgramBus1";

const STATS: &str = "org.freedesktop.DBus.Debug.Stats";

const PROPERTIES: &str = "org.freedesktop.DBus.Properties";

// The argument `x`, and what comes after it.
const TEXT: &[u8] = b"\x01\0\0\0x\0";

const TEXT_AND_FIVE: &[u8] = b"\x01\0\0\0x\0\0\0\x05\0\0\0";

// An array of `x` and `yz`, and what comes after it.
const TWO_TEXTS_AND_FIVE: &[u8] = b"\x0f\0\0\0\x01\0\0\0x\0\0\0\x02\0\0\0yz\0\0\x05\0\0\0";

const FIVE: &[u8] = b"\x05\0\0\0";

/// A call of a method, by no interface where none is given.
pub(crate) fn message<R: Abort>(
    rt: &R,
    alloc: Global,
    interface: &str,
    member: &str,
    signature: &[u8],
    body: &[u8],
) -> Vec<u8> {
    let mut builder = Builder::new(alloc, Kind::MethodCall, 0, 1);
    builder.path("/org/freedesktop/DBus");
    if !interface.is_empty() {
        builder.interface(interface);
    }
    builder.member(member);
    builder.raw_body(signature, body).expect(rt, "a body");
    builder.finish(alloc).expect(rt, "a message")
}

// A call's name, its text and its number.
fn parts_of<'a>(call: &Call<'a>) -> (&'static str, &'a str, u32) {
    match call {
        Call::Hello => ("Hello", "", 0),
        Call::AddMatch(rule) => ("AddMatch", *rule, 0),
        Call::RemoveMatch(rule) => ("RemoveMatch", *rule, 0),
        Call::RequestName(name, flags) => ("RequestName", *name, *flags),
        Call::ReleaseName(name) => ("ReleaseName", *name, 0),
        Call::GetNameOwner(name) => ("GetNameOwner", *name, 0),
        Call::NameHasOwner(name) => ("NameHasOwner", *name, 0),
        Call::ListNames => ("ListNames", "", 0),
        Call::Ping => ("Ping", "", 0),
        Call::Attach(_, _) => ("Attach", "", 0),
        Call::Detach(id) => ("Detach", "", *id),
        Call::StartServiceByName(name) => ("StartServiceByName", *name, 0),
        _ => rest_of(call),
    }
}

fn rest_of<'a>(call: &Call<'a>) -> (&'static str, &'a str, u32) {
    match call {
        Call::AttachFilter(text) => ("AttachFilter", *text, 0),
        Call::ListActivatableNames => ("ListActivatableNames", "", 0),
        Call::ListQueuedOwners(name) => ("ListQueuedOwners", *name, 0),
        Call::GetId => ("GetId", "", 0),
        Call::GetConnectionUnixUser(name) => ("GetConnectionUnixUser", *name, 0),
        Call::GetConnectionUnixProcessId(name) => ("GetConnectionUnixProcessID", *name, 0),
        Call::GetConnectionCredentials(name) => ("GetConnectionCredentials", *name, 0),
        Call::GetAdtAuditSessionData(name) => ("GetAdtAuditSessionData", *name, 0),
        Call::GetConnectionSelinuxSecurityContext(name) => {
            ("GetConnectionSELinuxSecurityContext", *name, 0)
        }
        Call::GetMachineId => ("GetMachineId", "", 0),
        Call::Introspect => ("Introspect", "", 0),
        Call::Get(_) => ("Get", "", 0),
        Call::GetAll => ("GetAll", "", 0),
        Call::GetAllOfNone => ("GetAll", "none", 0),
        Call::UpdateActivationEnvironment => ("UpdateActivationEnvironment", "", 0),
        Call::ReloadConfig => ("ReloadConfig", "", 0),
        Call::GetStats => ("GetStats", "", 0),
        Call::GetConnectionStats(name) => ("GetConnectionStats", *name, 0),
        Call::GetAllMatchRules => ("GetAllMatchRules", "", 0),
        Call::BecomeMonitor(rules, flags) => {
            (
                "BecomeMonitor",
                rules.as_slice().last().copied().unwrap_or(""),
                *flags,
            )
        }
        _ => ("another", "", 0),
    }
}

// Interface, member, signature and body of a call, and its text and its number.
const CALLS: [(&str, &str, &[u8], &[u8], &str, u32); 28] = [
    (BUS, "Hello", b"", b"", "", 0),
    (BUS, "AddMatch", b"s", TEXT, "x", 0),
    (BUS, "RemoveMatch", b"s", TEXT, "x", 0),
    (BUS, "RequestName", b"su", TEXT_AND_FIVE, "x", 5),
    (BUS, "ReleaseName", b"s", TEXT, "x", 0),
    (BUS, "GetNameOwner", b"s", TEXT, "x", 0),
    (BUS, "NameHasOwner", b"s", TEXT, "x", 0),
    (BUS, "ListNames", b"", b"", "", 0),
    (PEER, "Ping", b"", b"", "", 0),
    (PROGRAMS, "AttachFilter", b"s", TEXT, "x", 0),
    (PROGRAMS, "Detach", b"u", FIVE, "", 5),
    (BUS, "StartServiceByName", b"su", TEXT_AND_FIVE, "x", 0),
    (BUS, "ListActivatableNames", b"", b"", "", 0),
    (BUS, "ListQueuedOwners", b"s", TEXT, "x", 0),
    (BUS, "GetId", b"", b"", "", 0),
    (BUS, "GetConnectionUnixUser", b"s", TEXT, "x", 0),
    (BUS, "GetConnectionUnixProcessID", b"s", TEXT, "x", 0),
    (BUS, "GetConnectionCredentials", b"s", TEXT, "x", 0),
    (BUS, "GetAdtAuditSessionData", b"s", TEXT, "x", 0),
    (
        BUS,
        "GetConnectionSELinuxSecurityContext",
        b"s",
        TEXT,
        "x",
        0,
    ),
    (PEER, "GetMachineId", b"", b"", "", 0),
    (
        BUS,
        "UpdateActivationEnvironment",
        b"a{ss}",
        b"\0\0\0\0\0\0\0\0",
        "",
        0,
    ),
    (BUS, "ReloadConfig", b"", b"", "", 0),
    (
        "org.freedesktop.DBus.Introspectable",
        "Introspect",
        b"",
        b"",
        "",
        0,
    ),
    (STATS, "GetStats", b"", b"", "", 0),
    (STATS, "GetConnectionStats", b"s", TEXT, "x", 0),
    (STATS, "GetAllMatchRules", b"", b"", "", 0),
    (
        "org.freedesktop.DBus.Monitoring",
        "BecomeMonitor",
        b"asu",
        TWO_TEXTS_AND_FIVE,
        "yz",
        5,
    ),
];

/// Reads a call. Nothing is promised of it, so that a test's body carries none of the reading's clauses.
pub(crate) fn read_call<'a, R: Abort>(
    rt: &R,
    alloc: Global,
    bytes: &'a [u8],
) -> Result<Call<'a>, CallError> {
    let view = View::read(bytes).expect(rt, "a message");
    Call::read(alloc, &view)
}

// The message is a call of this name, with this text and this number.
fn expect_call<R: Abort>(
    rt: &R,
    alloc: Global,
    bytes: &[u8],
    member: &str,
    text: &str,
    number: u32,
) {
    let call = read_call(rt, alloc, bytes).expect(rt, "a call");
    let (name, argument, count) = parts_of(&call);
    assert_eq!(rt; name, member);
    assert_eq!(rt; argument, text);
    assert_eq!(rt; count, number);
    forget(call);
}

/// The message is no call that is known, for this reason.
pub(crate) fn expect_refusal<R: Abort>(rt: &R, alloc: Global, bytes: &[u8], wanted: CallError) {
    match read_call(rt, alloc, bytes) {
        Ok(_) => panic!(rt; "a call was read"),
        Err(error) => assert_eq!(rt; error, wanted),
    }
}

// Each call is read, with its interface or without one.
fn expect_each<R: Abort>(rt: &R, alloc: Global, has_interface: bool) {
    for (interface, member, signature, body, text, number) in &CALLS {
        let named = if has_interface { *interface } else { "" };
        let bytes = message(rt, alloc, named, *member, *signature, *body);
        expect_call(rt, alloc, &bytes, *member, *text, *number);
    }
}

#[test]
fn each_call(rt: HostRuntime) {
    expect_each(&rt, rt.alloc(), true);
}

#[test]
fn each_call_without_interface(rt: HostRuntime) {
    expect_each(&rt, rt.alloc(), false);
}

// A wrong interface, a wrong member, wrong signatures.
const REFUSED: [(&str, &str, &[u8], &[u8], CallError); 8] = [
    (PEER, "Hello", b"", b"", CallError::UnknownMethod),
    ("a.b", "Ping", b"", b"", CallError::UnknownInterface),
    ("", "Unhello", b"", b"", CallError::UnknownMethod),
    (BUS, "hello", b"", b"", CallError::UnknownMethod),
    (BUS, "Hello", b"u", FIVE, CallError::InvalidArgs),
    (BUS, "AddMatch", b"", b"", CallError::InvalidArgs),
    (BUS, "RequestName", b"s", TEXT, CallError::InvalidArgs),
    (
        PROGRAMS,
        "Attach",
        b"as",
        b"\0\0\0\0",
        CallError::InvalidArgs,
    ),
];

#[test]
fn refused(rt: HostRuntime) {
    let alloc = rt.alloc();
    for (interface, member, signature, body, error) in &REFUSED {
        let bytes = message(&rt, alloc, interface, member, signature, body);
        expect_refusal(&rt, alloc, &bytes, *error);
    }
}

// Get's two arguments, an interface and a property, and what is wrong with them.
const PROPERTY_NAMES: [(&[u8], Option<CallError>); 5] = [
    (
        b"\x14\0\0\0org.freedesktop.DBus\0\0\0\0\x08\0\0\0Features\0",
        None,
    ),
    (
        b"\x14\0\0\0org.freedesktop.DBus\0\0\0\0\x0a\0\0\0Interfaces\0",
        None,
    ),
    (
        b"\x14\0\0\0org.freedesktop.DBus\0\0\0\0\x07\0\0\0Feature\0",
        Some(CallError::UnknownProperty),
    ),
    (
        b"\x19\0\0\0org.freedesktop.DBus.Peer\0\0\0\x08\0\0\0Features\0",
        Some(CallError::UnknownProperty),
    ),
    (
        b"\x03\0\0\0a.b\0\x08\0\0\0Features\0",
        Some(CallError::UnknownInterface),
    ),
];

#[test]
fn properties(rt: HostRuntime) {
    let alloc = rt.alloc();
    for (body, wrong) in &PROPERTY_NAMES {
        let bytes = message(&rt, alloc, PROPERTIES, "Get", b"ss", *body);
        match wrong {
            None => expect_call(&rt, alloc, &bytes, "Get", "", 0),
            Some(error) => expect_refusal(&rt, alloc, &bytes, *error),
        }
    }
}

const BUS_TEXT: &[u8] = b"\x14\0\0\0org.freedesktop.DBus\0";

const PEER_TEXT: &[u8] = b"\x19\0\0\0org.freedesktop.DBus.Peer\0";

#[test]
fn all_of_an_interface(rt: HostRuntime) {
    let alloc = rt.alloc();
    let bytes = message(&rt, alloc, PROPERTIES, "GetAll", b"s", BUS_TEXT);
    expect_call(&rt, alloc, &bytes, "GetAll", "", 0);
    let bytes = message(&rt, alloc, PROPERTIES, "GetAll", b"s", PEER_TEXT);
    expect_call(&rt, alloc, &bytes, "GetAll", "none", 0);
    let bytes = message(&rt, alloc, PROPERTIES, "GetAll", b"s", TEXT);
    expect_refusal(&rt, alloc, &bytes, CallError::UnknownInterface);
}
