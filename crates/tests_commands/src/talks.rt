// Talks of clients with servers.

use crate::scripts::{Script, put_answer, put_signal};
use bus_client::{Client, ClientError, Transport};
use message_view::{MsgError, View};
use std::alloc::Global;
use std::process::Abort;

/// What a bus says up to its answer to Hello, after these lines.
fn bus_bytes<R: Abort>(rt: &R, alloc: Global, lines: &[u8]) -> Vec<u8> {
    let mut says = Vec::new(alloc);
    says.extend_from_slice(lines).expect(rt, "memory");
    put_answer(rt, alloc, &mut says, 1, None);
    says
}

/// A client of a bus that says this, which has to let it in.
fn open_client<'a, R: Abort>(
    rt: &R,
    alloc: Global,
    says: &'a [u8],
    at_once: usize,
) -> Client<Script<'a>> {
    match Client::open(alloc, Script::new(alloc, says, at_once), Transport::Unix) {
        Ok(client) => client,
        Err(_) => panic!(rt; "it wasn't let in"),
    }
}

// A client comes in, and begins by these words, whether the bus knows descriptors or not.
#[test]
fn external_and_anonymous(rt: HostRuntime) {
    let external =
        b"\0AUTH EXTERNAL\r\nDATA\r\nNEGOTIATE_UNIX_FD\r\nBEGIN\r\nl\x01\0\x01".as_slice();
    let anonymous =
        b"\0AUTH EXTERNAL\r\nAUTH ANONYMOUS\r\nNEGOTIATE_UNIX_FD\r\nBEGIN\r\nl\x01\0\x01".as_slice();
    let agreement = b"DATA\r\nOK 0123\r\nAGREE_UNIX_FD\r\n".as_slice();
    let refusal = b"DATA\r\nOK 0123\r\nERROR \"Unknown command\"\r\n".as_slice();
    let rejection = b"REJECTED DBUS_COOKIE_SHA1 ANONYMOUS\r\nOK 0123\r\nERROR\r\n".as_slice();
    for (lines, at_once, words) in [
        (agreement, 1, external),
        (agreement, 4096, external),
        (refusal, 4096, external),
        (rejection, 7, anonymous),
    ] {
        let says = bus_bytes(&rt, rt.alloc(), lines);
        let mut client = open_client(&rt, rt.alloc(), &says, at_once);
        assert!(rt; client.stream_mut().written.starts_with(words));
    }
}

// Over TCP no client asks for descriptors.
#[test]
fn over_tcp(rt: HostRuntime) {
    let says = bus_bytes(&rt, rt.alloc(), b"OK 0123\r\n");
    let script = Script::new(rt.alloc(), &says, 4096);
    match Client::open(rt.alloc(), script, Transport::Tcp) {
        Ok(mut client) => {
            let words = b"\0AUTH EXTERNAL\r\nBEGIN\r\nl\x01\0\x01".as_slice();
            assert!(rt; client.stream_mut().written.starts_with(words));
        }
        Err(_) => panic!(rt; "it wasn't let in"),
    }
}

// Of a client that doesn't come in: whether the bus refused it, or was gone.
#[test]
fn refused_and_gone(rt: HostRuntime) {
    for (lines, is_refused) in [
        (b"DATA\r\nREJECTED X\r\nREJECTED X\r\n".as_slice(), true),
        (b"OK 0123\r\nOK 0123\r\n".as_slice(), true),
        (b"OK 0123\r\nREJECTED X\r\n".as_slice(), true),
        (b"DATA\r\nOK 01".as_slice(), false),
        (b"OK 0123\r\n".as_slice(), false),
    ] {
        let script = Script::new(rt.alloc(), lines, 3);
        match Client::open(rt.alloc(), script, Transport::Unix) {
            Err(ClientError::Auth) => assert!(rt; is_refused),
            Err(ClientError::Socket) => assert!(rt; !is_refused),
            _ => panic!(rt; "it came in, or another fault"),
        }
    }
}

// What a bus says to a client that adds a rule: a signal comes before the answer and one after it.
fn bus_with_signals<R: Abort>(rt: &R, alloc: Global, error: Option<&str>) -> Vec<u8> {
    let mut says = bus_bytes(rt, alloc, b"OK 0123\r\nERROR\r\n");
    put_signal(rt, alloc, &mut says, "First");
    put_answer(rt, alloc, &mut says, 2, error);
    put_signal(rt, alloc, &mut says, "Second");
    says
}

// The next message's member is this one.
fn expect_next<R: Abort>(rt: &R, client: &mut Client<Script<'_>>, member: &str) {
    match client.next() {
        Ok(message) => {
            let view = View::read(message.as_slice()).expect(rt, "a message");
            assert_eq!(rt; view.member(), Some(member));
        }
        Err(_) => panic!(rt; "no message"),
    }
}

#[test]
fn rule(rt: HostRuntime) {
    let says = bus_with_signals(&rt, rt.alloc(), None);
    let mut client = open_client(&rt, rt.alloc(), &says, 50);
    assert!(rt; client.add_match("type='signal'").is_ok());
    expect_next(&rt, &mut client, "First");
    expect_next(&rt, &mut client, "Second");
    assert!(rt; matches!(client.next(), Err(ClientError::Socket)));
}

#[test]
fn refused_rule(rt: HostRuntime) {
    let name = "org.freedesktop.DBus.Error.MatchRuleInvalid";
    let says = bus_with_signals(&rt, rt.alloc(), Some(name));
    let mut client = open_client(&rt, rt.alloc(), &says, 50);
    match client.add_match("x") {
        Err(ClientError::Answered(error)) => {
            assert_eq!(rt; error.name.as_str(), name);
            assert!(rt;
                error
                    .text
                    .is_some_and(|text| text.as_str() == "what was wrong")
            );
        }
        _ => panic!(rt; "no answer, or no error"),
    }
}

#[test]
fn garbage(rt: HostRuntime) {
    let mut says = bus_bytes(&rt, rt.alloc(), b"OK 0123\r\nERROR\r\n");
    says.extend_from_slice(b"hello, this is no message")
        .expect(&rt, "memory");
    let mut client = open_client(&rt, rt.alloc(), &says, 4096);
    assert!(rt; matches!(client.next(), Err(ClientError::Message(_))));
}

/// A signal `a.b.C` with two descriptors, up to their number. Its only argument is the index of the second.
const BEFORE_NUMBER: &[u8] =
    b"l\x04\0\x01\x04\0\0\0\x05\0\0\0P\0\0\0\x01\x01o\0\x02\0\0\0/a\0\0\0\0\0\0\
\x02\x01s\0\x03\0\0\0a.b\0\0\0\0\0\x03\x01s\0\x01\0\0\0C\0\0\0\0\0\0\0\
\x07\x01s\0\x04\0\0\0:1.4\0\0\0\0\x08\x01g\0\x01h\0\0\x09\x01u\0";

/// The number, and the argument.
const TWO_AND_INDEX: &[u8] = b"\x02\0\0\0\x01\0\0\0";

/// The same, where there are no descriptors.
const NONE_AND_INDEX: &[u8] = b"\0\0\0\0\x01\0\0\0";

/// What a bus says that agrees to descriptors: a signal, two with descriptors, and another one.
fn bus_with_descriptors<R: Abort>(rt: &R, alloc: Global) -> Vec<u8> {
    let mut says = bus_bytes(rt, alloc, b"OK 0123\r\nAGREE_UNIX_FD\r\n");
    put_signal(rt, alloc, &mut says, "First");
    for part in [BEFORE_NUMBER, TWO_AND_INDEX, BEFORE_NUMBER, TWO_AND_INDEX] {
        says.extend_from_slice(part).expect(rt, "memory");
    }
    put_signal(rt, alloc, &mut says, "Second");
    says
}

// The next message is the one with descriptors, but for their number.
fn expect_no_descriptors<R: Abort>(rt: &R, client: &mut Client<Script<'_>>) {
    match client.next() {
        Ok(message) => {
            let rest = message.as_slice().strip_prefix(BEFORE_NUMBER);
            assert!(rt; rest == Some(NONE_AND_INDEX));
        }
        Err(_) => panic!(rt; "no message"),
    }
}

// However the bytes are cut.
#[test]
fn descriptors(rt: HostRuntime) {
    let says = bus_with_descriptors(&rt, rt.alloc());
    for at_once in [1, 100, 4096] {
        let mut client = open_client(&rt, rt.alloc(), &says, at_once);
        expect_next(&rt, &mut client, "First");
        expect_no_descriptors(&rt, &mut client);
        expect_no_descriptors(&rt, &mut client);
        expect_next(&rt, &mut client, "Second");
    }
}

// A number of descriptors twice is no message, also where the first is set to 0.
#[test]
fn descriptors_twice(rt: HostRuntime) {
    let mut says = bus_bytes(&rt, rt.alloc(), b"OK 0123\r\nAGREE_UNIX_FD\r\n");
    let message =
        b"l\x04\0\x01\0\0\0\0\x05\0\0\0\x10\0\0\0\x09\x01u\0\x02\0\0\0\x09\x01u\0\x02\0\0\0".as_slice();
    says.extend_from_slice(message).expect(&rt, "memory");
    let mut client = open_client(&rt, rt.alloc(), &says, 4096);
    assert!(rt;
        matches!(
            client.next(),
            Err(ClientError::Message(MsgError::FieldTwice))
        )
    );
}
