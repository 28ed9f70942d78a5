// Colours of the lines of `watch`.

use message_view::Kind;
use watch_command::{Device, Style};

// The codes are those of SGR in ECMA-48.
#[test]
fn a_colour_for_each_kind(rt: HostRuntime) {
    for (kind, line, shown) in [
        (
            Kind::MethodCall,
            b"method_call :1.7 -> org.x.Y serial=9 /a org.x.Y.Ask (u) 1\n".as_slice(),
            b"\x1b[34mmethod_call\x1b[0m :1.7 -> org.x.Y serial=9 /a org.x.Y.Ask (u) 1\n".as_slice(),
        ),
        (
            Kind::MethodReturn,
            b"method_return :1.8 -> :1.7 reply_serial=9 ()\n".as_slice(),
            b"\x1b[32mmethod_return\x1b[0m :1.8 -> :1.7 reply_serial=9 ()\n".as_slice(),
        ),
        (
            Kind::Error,
            b"error - -> :1.7 reply_serial=9 a.b.C ()\n".as_slice(),
            b"\x1b[31merror\x1b[0m - -> :1.7 reply_serial=9 a.b.C ()\n".as_slice(),
        ),
        (
            Kind::Signal,
            b"signal :1.7 /a a.b.C ()\n".as_slice(),
            b"\x1b[36msignal\x1b[0m :1.7 /a a.b.C ()\n".as_slice(),
        ),
        (
            Kind::Other(5),
            b"kind=5 :1.7 ()\n".as_slice(),
            b"kind=5 :1.7 ()\n".as_slice(),
        ),
    ] {
        let mut text = Vec::new(rt.alloc());
        assert!(rt; Style::Coloured.put_line(&mut text, kind, line).is_ok());
        assert_eq!(rt; text.as_slice(), shown);
    }
}

#[test]
fn a_plain_line(rt: HostRuntime) {
    let mut text = Vec::new(rt.alloc());
    assert!(rt; Style::Plain.put_time(&mut text, b"1.000000 ").is_ok());
    assert!(rt;
        Style::Plain
            .put_line(&mut text, Kind::Error, b"error -\n")
            .is_ok()
    );
    assert_eq!(rt; text.as_slice(), b"1.000000 error -\n".as_slice());
}

#[test]
fn a_faint_time(rt: HostRuntime) {
    let mut text = Vec::new(rt.alloc());
    assert!(rt; Style::Coloured.put_time(&mut text, b"1.000000 ").is_ok());
    assert_eq!(rt; text.as_slice(), b"\x1b[2m1.000000 \x1b[0m".as_slice());
}

#[test]
fn where_colours_are(rt: HostRuntime) {
    for (device, no_color, term, style) in [
        (Device::Terminal, None, None, Style::Coloured),
        (Device::Terminal, Some(""), Some("xterm"), Style::Coloured),
        (Device::Terminal, Some("1"), Some("xterm"), Style::Plain),
        (Device::Terminal, None, Some("dumb"), Style::Plain),
        (Device::Other, None, Some("xterm"), Style::Plain),
    ] {
        assert_eq!(rt; Style::by(device, no_color, term), style);
    }
}
