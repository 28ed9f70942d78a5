// Talks that don't admit everybody. What clients say after a cookie's question is what libdbus and GLib said.

use auth::{Admission, Auth, CookieChallenge, External};
use std::process::Abort;

const GUID: [u8; 32] = *b"0123456789abcdef0123456789abcdef";

const OK: &[u8] = b"OK 0123456789abcdef0123456789abcdef\r\n";

/// What the server says after `DATA `: `dbusfan 12 00112233445566778899aabbccddeeff`.
const QUESTION: &[u8] =
    b"DATA 6462757366616e203132203030313132323333343435353636373738383939616162626363646465656666\r\n";

const LIBDBUS: &[u8] =
    b"DATA 61386132636465366430366430623636383933636364356630666563313465612030633936363934626435326337353766323634373833353130643634636130623562393365643265\r\n";

const GLIB: &[u8] =
    b"DATA 424c33666a543451717676336a7046542031633630656466626166326536643036363866636662663031383535326634353839363235383232\r\n";

/// GLib's with another last digit.
const WRONG: &[u8] =
    b"DATA 424c33666a543451717676336a7046542031633630656466626166326536643036363866636662663031383535326634353839363235383233\r\n";

fn user_alone(user: u32) -> Admission {
    Admission {
        external: External::User(user),
        cookie: None,
        anonymous: false,
    }
}

fn cookie_alone() -> Admission {
    Admission {
        external: External::Nobody,
        cookie: Some(CookieChallenge {
            user: 0,
            id: 12,
            cookie: *b"abababababababababababababababababababababababab",
            nonce: *b"00112233445566778899aabbccddeeff",
        }),
        anonymous: false,
    }
}

/// Each line is answered by the one beside it.
fn expect_talk<R: Abort>(rt: &R, admission: Admission, lines: &[(&[u8], &[u8])]) {
    let mut auth = Auth::admitting(GUID, admission);
    assert!(rt; auth.feed(b"\0").is_ok());
    for (line, answer) in lines {
        let fed = auth.feed(line).expect(rt, "an answer");
        assert_eq!(rt; fed.taken, line.len());
        assert_eq!(rt; fed.answer.as_slice(), *answer);
    }
}

#[test]
fn one_user_alone(rt: HostRuntime) {
    let rejected = b"REJECTED EXTERNAL\r\n".as_slice();
    let lines = [
        (b"AUTH EXTERNAL 30\r\n".as_slice(), rejected),
        (b"AUTH ANONYMOUS\r\n", rejected),
        (b"AUTH DBUS_COOKIE_SHA1 31303030\r\n", rejected),
        (b"AUTH EXTERNAL\r\n", b"DATA\r\n"),
        (b"DATA 313030\r\n", rejected),
        (b"AUTH EXTERNAL 31303030\r\n", OK),
    ];
    expect_talk(&rt, user_alone(1000), lines.as_slice());
    let lines = [
        (b"AUTH EXTERNAL\r\n".as_slice(), b"DATA\r\n".as_slice()),
        (b"DATA\r\n", OK),
    ];
    expect_talk(&rt, user_alone(1000), lines.as_slice());
}

#[test]
fn a_cookie_alone(rt: HostRuntime) {
    let rejected = b"REJECTED DBUS_COOKIE_SHA1\r\n".as_slice();
    let asks = b"AUTH DBUS_COOKIE_SHA1 30\r\n".as_slice();
    let lines = [
        (b"AUTH\r\n".as_slice(), rejected),
        (b"AUTH EXTERNAL 30\r\n", rejected),
        (b"AUTH DBUS_COOKIE_SHA1\r\n", rejected),
        (b"AUTH DBUS_COOKIE_SHA1 31\r\n", rejected),
        (asks, QUESTION),
        (WRONG, rejected),
        (asks, QUESTION),
        (b"WHAT\r\n", b"ERROR\r\n"),
        (LIBDBUS, OK),
    ];
    expect_talk(&rt, cookie_alone(), lines.as_slice());
    let lines = [(asks, QUESTION), (GLIB, OK)];
    expect_talk(&rt, cookie_alone(), lines.as_slice());
}
