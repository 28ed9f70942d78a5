// Messages of the bus, byte for byte. The answers to Hello and to AddMatch, and NameAcquired, are in the files of
// cases_bus (`hello_reply`, `hello_and_match`).

use bus_messages::{
    Body, BuildError, Bytes, ErrorName, Fact, FilterFault, NamedFact, Property, bad_filter, error,
    name_lost, name_owner_changed, reply,
};
use message_view::View;
use std::alloc::Global;
use std::mem::forget;
use std::process::Abort;

// The message has these bytes, in hexadecimal digits.
fn expect_bytes<R: Abort>(rt: &R, alloc: Global, sent: Result<Bytes, BuildError>, digits: &str) {
    let wanted = hex::decode(alloc, digits).expect(rt, "digits");
    let sent = sent.expect(rt, "a message");
    assert_eq!(rt; sent.as_slice(), wanted.as_slice());
    forget(sent);
}

// By the rules of the D-Bus Specification: an error without DESTINATION, as a refused first Hello gets.
const EDITION: &str =
    "6c03010136000000070000006700000004017300280000006f72672e6578616d706c652e50726f6772616d427573312e4572726f722e42616445646974696f6e0000000000000000050175000600000007017300140000006f72672e667265656465736b746f702e444275730000000008016700017300003100000042616445646974696f6e3a207468657265206973206e6f20737563682065646974696f6e206f6620612073756d6d61727900";

#[test]
fn error_without_destination(rt: HostRuntime) {
    let sent = error(rt.alloc(), 7, None, 6, ErrorName::BadEdition);
    expect_bytes(&rt, rt.alloc(), sent, EDITION);
}

// By the same rules: a filter asks who owns a name.
const ASKS_OWNER: &str =
    "6c03010128000000090000006f00000004017300270000006f72672e6578616d706c652e50726f6772616d427573312e4572726f722e42616446696c74657200050175000400000006017300040000003a312e320000000007017300140000006f72672e667265656465736b746f702e444275730000000008016700017300002300000042616446696c7465723a2053656e6465724e616d6520636f6d2e6578616d706c652e4100";

#[test]
fn filter_that_asks_who_owns(rt: HostRuntime) {
    let fault = FilterFault::SenderName("com.example.A");
    let sent = bad_filter(rt.alloc(), 9, Some(":1.2"), 4, fault);
    expect_bytes(&rt, rt.alloc(), sent, ASKS_OWNER);
}

const CHANGED: &str =
    "6c0401011d000000020000008900000001016f00150000002f6f72672f667265656465736b746f702f4442757300000002017300140000006f72672e667265656465736b746f702e444275730000000003017300100000004e616d654f776e65724368616e676564000000000000000007017300140000006f72672e667265656465736b746f702e444275730000000008016700037373730000000000000000040000003a312e31000000000000000000000000040000003a312e3100";

// A connection's own name, which had no owner before.
#[test]
fn owner_changed(rt: HostRuntime) {
    let sent = name_owner_changed(rt.alloc(), 2, ":1.1", "", ":1.1");
    expect_bytes(&rt, rt.alloc(), sent, CHANGED);
}

const LOST: &str =
    "6c04010112000000090000008f00000001016f00150000002f6f72672f667265656465736b746f702f4442757300000002017300140000006f72672e667265656465736b746f702e444275730000000003017300080000004e616d654c6f7374000000000000000006017300040000003a312e320000000007017300140000006f72672e667265656465736b746f702e444275730000000008016700017300000d000000636f6d2e6578616d706c652e4100";

#[test]
fn lost(rt: HostRuntime) {
    let sent = name_lost(rt.alloc(), 9, ":1.2", "com.example.A");
    expect_bytes(&rt, rt.alloc(), sent, LOST);
}

// The bytes of each body, as the D-Bus Specification marshals the values.
const BODIES: [(Body<'static>, &[u8], &[u8]); 7] = [
    (Body::Number(2), b"u", b"\x02\0\0\0"),
    (Body::Truth(true), b"b", b"\x01\0\0\0"),
    (
        Body::Texts(&["a", "bc"]),
        b"as",
        b"\x0f\0\0\0\x01\0\0\0a\0\0\0\x02\0\0\0bc\0",
    ),
    (Body::EmptyDict, b"a{sv}", b"\0\0\0\0\0\0\0\0"),
    (
        Body::Facts(&[
            NamedFact {
                name: "A",
                fact: Fact::Number(7),
            },
            NamedFact {
                name: "Bc",
                fact: Fact::Text("de"),
            },
        ]),
        b"a{sv}",
        b"#\0\0\0\0\0\0\0\x01\0\0\0A\0\x01u\0\0\0\0\x07\0\0\0\x02\0\0\0Bc\0\x01s\0\0\0\x02\0\0\0de\0",
    ),
    (
        Body::Property(Property::Features),
        b"v",
        b"\x02as\0\x14\0\0\0\x0f\0\0\0HeaderFiltering\0",
    ),
    (
        Body::Property(Property::Interfaces),
        b"v",
        b"\x02as\0h\0\0\0\x1f\0\0\0org.freedesktop.DBus.Monitoring\0 \0\0\0org.freedesktop.DBus.Debug.Stats\0\0\0\0\x17\0\0\0org.example.ProgramBus1\0",
    ),
];

fn reply_with<R: Abort>(rt: &R, alloc: Global, body: Body<'_>) -> Bytes {
    reply(alloc, 1, Some(":1.1"), 1, body).expect(rt, "a message")
}

fn expect_body<R: Abort>(rt: &R, sent: Bytes, signature: &[u8], bytes: &[u8]) {
    let view = View::read(sent.as_slice()).expect(rt, "a message");
    assert_eq!(rt; view.signature(), signature);
    assert_eq!(rt; view.body(), bytes);
    forget(sent);
}

#[test]
fn bodies(rt: HostRuntime) {
    for (body, signature, bytes) in &BODIES {
        let sent = reply_with(&rt, rt.alloc(), *body);
        expect_body(&rt, sent, *signature, *bytes);
    }
}

fn expect_properties<R: Abort>(rt: &R, sent: Bytes) {
    let view = View::read(sent.as_slice()).expect(rt, "a message");
    assert_eq!(rt; view.signature(), b"a{sv}".as_slice());
    assert_eq!(rt; view.body().len(), 184);
    assert_eq!(rt; view.body().get(12..20), Some(b"Features".as_slice()));
    assert_eq!(rt; view.body().get(60..70), Some(b"Interfaces".as_slice()));
    forget(sent);
}

// Both properties are there, and the message is valid.
#[test]
fn all_properties(rt: HostRuntime) {
    expect_properties(&rt, reply_with(&rt, rt.alloc(), Body::Properties));
}
