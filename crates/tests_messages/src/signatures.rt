// The types of a signature.

use signature::Signature;
use std::process::Abort;

#[test]
fn types_of_signatures(rt: HostRuntime) {
    expect_types(&rt, b"", &[]);
    let types = [b"a{sv}".as_slice(), b"(i(u)ab)", b"y", b"v"];
    expect_types(&rt, b"a{sv}(i(u)ab)yv", &types);
}

/// The signature has these types.
fn expect_types<R: Abort>(rt: &R, text: &[u8], wanted: &[&[u8]]) {
    let signature = Signature::read(text).expect(rt, "a signature");
    assert_eq!(rt; signature.as_bytes(), text);
    let mut types = signature.types();
    for text in wanted {
        let found = types.next().expect(rt, "a type");
        assert_eq!(rt; found.as_bytes(), *text);
    }
    assert!(rt; types.next().is_none());
}
