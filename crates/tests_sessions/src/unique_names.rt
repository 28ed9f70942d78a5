use bus_messages::UniqueName;

#[test]
fn named(rt: HostRuntime) {
    for (number, text) in [
        (1, ":1.1"),
        (1000, ":1.1000"),
        (u64::MAX, ":1.18446744073709551615"),
    ] {
        assert_eq!(rt; UniqueName::new(number).as_str(), text);
        assert_eq!(rt; UniqueName::number_of(text), Some(number));
    }
}

#[test]
fn not_named(rt: HostRuntime) {
    for text in [
        "",
        ":1.",
        ":1.01",
        ":1.+1",
        ":2.1",
        ":1.1.1",
        "1.1",
        ":1.18446744073709551616",
    ] {
        assert_eq!(rt; UniqueName::number_of(text), None);
    }
}
