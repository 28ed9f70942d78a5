// A message of the public examples.

use message_view::View;
use std::process::Abort;

/// A signal with serial 1, PATH `/a`, INTERFACE `a.b` and MEMBER `c`.
pub(crate) const S1: &[u8; 64] = b"l\x04\0\x01\0\0\0\0\x01\0\0\0\x2a\0\0\0\
    \x01\x01o\0\x02\0\0\0/a\0\0\0\0\0\0\
    \x02\x01s\0\x03\0\0\0a.b\0\0\0\0\0\
    \x03\x01s\0\x01\0\0\0c\0\0\0\0\0\0\0";

/// The view of S1.
pub(crate) fn s1_view<R: Abort>(rt: &R) -> View<'static> {
    read_message(rt, S1)
}

/// A message. Nothing is promised of it, so that a test's body carries none of the reading's clauses.
pub(crate) fn read_message<'a, R: Abort>(rt: &R, bytes: &'a [u8]) -> View<'a> {
    View::read(bytes).expect(rt, "a message")
}
