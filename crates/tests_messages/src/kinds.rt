// Kinds and the bytes that stand for them.

use message_view::Kind;

#[test]
fn kinds(rt: HostRuntime) {
    for byte in [5, 255] {
        assert_eq!(rt; Kind::Other(byte).byte(), byte);
        assert_eq!(rt; Kind::of(byte), Some(Kind::Other(byte)));
    }
    assert_eq!(rt; Kind::of(0), None);
}
