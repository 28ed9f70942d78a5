use bus_messages::introspection;
use std::process::Abort;

// Lines that the D-Bus Specification's format asks for.
const LINES: [&str; 10] = [
    "<interface name=\"org.freedesktop.DBus\">",
    "<interface name=\"org.freedesktop.DBus.Peer\">",
    "<interface name=\"org.example.ProgramBus1\">",
    "<interface name=\"org.freedesktop.DBus.Introspectable\">",
    "<interface name=\"org.freedesktop.DBus.Properties\">",
    "<interface name=\"org.freedesktop.DBus.Monitoring\">",
    "<interface name=\"org.freedesktop.DBus.Debug.Stats\">",
    "    <method name=\"AttachEdition\">\n      <arg direction=\"in\" type=\"u\"/>\n      <arg direction=\"in\" type=\"a(qyyu)\"/>\n      <arg direction=\"out\" type=\"u\"/>\n    </method>\n",
    "    <method name=\"Ping\">\n    </method>\n",
    "<signal name=\"NameOwnerChanged\">",
];

fn expect_count<R: Abort>(rt: &R, text: &str, line: &str, count: usize) {
    assert_eq!(rt; text.matches(line).count(), count, "{line}");
}

#[test]
fn described(rt: HostRuntime) {
    let text = introspection(rt.alloc()).expect(&rt, "a text");
    for line in &LINES {
        expect_count(&rt, text.as_str(), *line, 1);
    }
    expect_count(&rt, text.as_str(), "<method ", 33);
    expect_count(&rt, text.as_str(), "</method>", 33);
    assert!(rt; text.as_str().ends_with("</interface>\n</node>\n"));
}
