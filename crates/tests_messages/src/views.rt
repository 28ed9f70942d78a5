// Each call of a view.

use crate::s1::{S1, s1_view};
use message_view::{Extent, Kind, Order, TextField, View, frame_len};
use std::process::Abort;

#[test]
fn s1(rt: HostRuntime) {
    let view = s1_view(&rt);
    expect_parts(&rt, &view);
    expect_places(&rt, &view);
    assert!(rt; view.body().is_empty());
    assert!(rt; view.args().next().is_none());
    assert_eq!(rt; view.raw(), S1.as_slice());
    assert_eq!(rt; len_of(&rt, S1), Some(64));
}

/// What the header says of the message's length, of which nothing is promised.
fn len_of<R: Abort>(rt: &R, bytes: &[u8]) -> Option<u32> {
    frame_len(bytes).expect(rt, "no fault")
}

fn expect_parts<R: Abort>(rt: &R, view: &View<'_>) {
    assert_eq!(rt; view.order(), Order::Little);
    assert_eq!(rt; view.kind(), Kind::Signal);
    assert_eq!(rt; view.flags(), 0);
    assert_eq!(rt; view.serial(), 1);
    expect_fields(rt, view);
}

fn expect_fields<R: Abort>(rt: &R, view: &View<'_>) {
    assert_eq!(rt; view.path(), Some("/a"));
    assert_eq!(rt; view.interface(), Some("a.b"));
    assert_eq!(rt; view.member(), Some("c"));
    for absent in [view.error_name(), view.destination(), view.sender()] {
        assert_eq!(rt; absent, None);
    }
    assert_eq!(rt; view.reply_serial(), None);
}

fn expect_places<R: Abort>(rt: &R, view: &View<'_>) {
    assert_eq!(rt;
        view.extent(TextField::Path),
        Some(Extent { place: 24, len: 2 })
    );
    assert_eq!(rt; view.extent(TextField::Sender), None);
}
