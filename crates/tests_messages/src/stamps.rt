// Stamps, and want of memory for them.

use crate::builders::{finish, signal};
use crate::s1::{read_message, s1_view};
use message_build::{StampError, stamp};
use message_view::View;
use std::alloc::Global;
use std::process::Abort;
use std::test::Fail;

/// The signal with SENDER `:1.1`.
const STAMPED: [u8; 80] = [
    0x6c, 4, 0, 1, 0, 0, 0, 0, 1, 0, 0, 0, 0x3d, 0, 0, 0, 1, 1, 0x6f, 0, 2, 0, 0, 0, 0x2f, 0x61, 0,
    0, 0, 0, 0, 0, 2, 1, 0x73, 0, 3, 0, 0, 0, 0x61, 0x2e, 0x62, 0, 0, 0, 0, 0, 3, 1, 0x73, 0, 1, 0,
    0, 0, 0x63, 0, 0, 0, 0, 0, 0, 0, 7, 1, 0x73, 0, 4, 0, 0, 0, 0x3a, 0x31, 0x2e, 0x31, 0, 0, 0, 0,
];

// Want of memory is NoMemory, and never a part of the answer. To be run with one allocation after another
// refused.
#[test]
fn stamp_with_refusals(rt: HostRuntime) {
    let view = s1_view(&rt);
    match stamp(rt.alloc(), &view, ":1.1") {
        Ok(stamped) => assert_eq!(rt; stamped.as_slice(), STAMPED.as_slice()),
        Err(e) => assert_eq!(rt; e, StampError::NoMemory),
    }
}

/// The signal with the argument `hi`.
fn with_argument<R: Abort>(rt: &R, alloc: Global) -> Vec<u8> {
    let mut builder = signal(alloc);
    builder.arg_str("hi").expect(rt, "memory");
    finish(rt, alloc, &builder)
}

// The bytes of a stamp are known to be a message: their view is had without a check of the body.
#[test]
fn known_message(rt: HostRuntime) -> Result<(), Fail> {
    let built = with_argument(&rt, rt.alloc());
    let view = read_message(&rt, built.as_slice());
    let stamped = stamp(rt.alloc(), &view, ":1.1")?;
    let known = View::of_message(stamped.as_slice());
    expect_stamped(&rt, &known, stamped.as_slice());
    Ok(())
}

/// The view is of these bytes, and of the signal with its argument and SENDER `:1.1`.
fn expect_stamped<R: Abort>(rt: &R, known: &View<'_>, bytes: &[u8]) {
    assert_eq!(rt; known.raw(), bytes);
    assert_eq!(rt; known.member(), Some("c"));
    assert_eq!(rt; known.sender(), Some(":1.1"));
    assert_eq!(rt; known.signature(), b"s".as_slice());
    assert_eq!(rt; known.body(), b"\x02\0\0\0hi\0".as_slice());
    assert_eq!(rt; read_message(rt, bytes).body(), known.body());
}
