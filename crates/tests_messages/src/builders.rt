// The fields of messages that are built.

use crate::s1::read_message;
use message_build::Builder;
use message_view::Kind;
use std::alloc::Global;
use std::process::Abort;

/// A signal with serial 1, PATH `/a`, INTERFACE `a.b` and MEMBER `c`.
pub(crate) fn signal(alloc: Global) -> Builder<'static> {
    let mut builder = Builder::new(alloc, Kind::Signal, 0, 1);
    builder.path("/a");
    builder.interface("a.b");
    builder.member("c");
    builder
}

/// The bytes of the builder's message.
pub(crate) fn finish<R: Abort>(rt: &R, alloc: Global, builder: &Builder<'_>) -> Vec<u8> {
    builder.finish(alloc).expect(rt, "a message")
}

#[test]
fn builder_setters(rt: HostRuntime) {
    let mut builder = signal(rt.alloc());
    builder.path("/b");
    builder.sender(":1.1");
    builder.destination(":1.2");
    builder.sender(":1.3");
    let bytes = finish(&rt, rt.alloc(), &builder);
    let view = read_message(&rt, bytes.as_slice());
    assert_eq!(rt; view.path(), Some("/b"));
    assert_eq!(rt; view.sender(), Some(":1.3"));
    assert_eq!(rt; view.destination(), Some(":1.2"));
}

#[test]
fn answers(rt: HostRuntime) {
    let mut builder = Builder::new(rt.alloc(), Kind::Error, 1, 9);
    builder.error_name("a.b");
    builder.reply_serial(7);
    let bytes = finish(&rt, rt.alloc(), &builder);
    let view = read_message(&rt, bytes.as_slice());
    assert_eq!(rt; view.error_name(), Some("a.b"));
    assert_eq!(rt; view.reply_serial(), Some(7));
}
