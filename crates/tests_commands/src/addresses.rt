// What addresses mean.

use bus_client::{Address, AddressError, read_addresses};
use std::alloc::Global;
use std::process::Abort;

/// The one address that a text has, or none.
#[derive(Clone, Copy)]
enum Wanted {
    Path(&'static str),
    Abstract(&'static [u8]),
    Tcp(&'static str, u16),
    Other,
    Nothing,
}

fn is_wanted(address: &Address, wanted: Wanted) -> bool {
    match (address, wanted) {
        (Address::Path(path), Wanted::Path(text)) => path.as_str() == text,
        (Address::Abstract(name), Wanted::Abstract(bytes)) => name.as_slice() == bytes,
        (Address::Tcp { host, port }, Wanted::Tcp(text, number)) => {
            host.as_str() == text && *port == number
        }
        (Address::Other, Wanted::Other) => true,
        _ => false,
    }
}

fn expect_address<R: Abort>(rt: &R, alloc: Global, text: &str, wanted: Wanted) {
    match read_addresses(alloc, text) {
        Ok(addresses) => {
            assert_eq!(rt; addresses.len(), 1, "of {text}");
            assert!(rt; is_wanted(&addresses[0], wanted), "of {text}");
        }
        Err(error) => {
            assert_eq!(rt; error, AddressError::Form, "of {text}");
            assert!(rt; matches!(wanted, Wanted::Nothing), "of {text}");
        }
    }
}

/// The bus of a session.
const BUS: &str = "/run/user/1000/bus";

#[test]
fn unix_addresses(rt: HostRuntime) {
    for (text, wanted) in [
        ("unix:path=/run/user/1000/bus", Wanted::Path(BUS)),
        (
            "unix:path=/run/user/1000/bus,guid=d773f0b1",
            Wanted::Path(BUS),
        ),
        (
            "unix:guid=d773f0b1,path=/run%2fuser%2F1000/bus;",
            Wanted::Path(BUS),
        ),
        (
            "unix:abstract=/tmp/dbus-x,guid=1",
            Wanted::Abstract(b"/tmp/dbus-x"),
        ),
        ("unix:runtime=yes", Wanted::Other),
    ] {
        expect_address(&rt, rt.alloc(), text, wanted);
    }
}

#[test]
fn tcp_addresses(rt: HostRuntime) {
    for (text, wanted) in [
        (
            "tcp:host=localhost,port=4711",
            Wanted::Tcp("localhost", 4711),
        ),
        (
            "tcp:port=4711,family=ipv4,host=local%68ost",
            Wanted::Tcp("localhost", 4711),
        ),
        ("launchd:env=X", Wanted::Other),
    ] {
        expect_address(&rt, rt.alloc(), text, wanted);
    }
}

#[test]
fn no_addresses(rt: HostRuntime) {
    for text in [
        "",
        ";",
        "/run/bus",
        ":path=/run/bus",
        "unix:path",
        "unix:path=",
        "unix:path=%2",
        "unix:path=%g0",
        "unix:path=/a,path=/b",
        "tcp:host=localhost",
        "tcp:host=localhost,port=65536",
        "unix:path=/a;tcp:",
    ] {
        expect_address(&rt, rt.alloc(), text, Wanted::Nothing);
    }
}
