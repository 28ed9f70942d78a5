// Rules and filters as programs.

use crate::two_files::TwoFiles;
use dbusfan_tool::{Output, tool};

/// Each rule and each filter has a program, which is accepted.
#[test]
fn accepted(rt: HostRuntime) {
    for (option, text) in [
        ("--", ""),
        ("--", "member='c'"),
        ("--", "type='signal',interface='a.b',path_namespace='/a'"),
        ("--", "sender='org.freedesktop.DBus'"),
        ("--", "sender='a.b',arg0='x',arg1path='/a/'"),
        ("--filter", "signal"),
        (
            "--filter",
            "sender = a.b and not (arg0 < 10 or sender != c.d)",
        ),
    ] {
        let mut nothing = TwoFiles::new(b"", b"");
        let mut out = Output::new(Vec::new(rt.alloc()));
        let mut err = Output::new(Vec::new(rt.alloc()));
        let words = ["compile", option, text];
        let answered = tool(
            rt.alloc(),
            words.as_slice(),
            &mut nothing,
            &mut out,
            &mut err,
        );
        assert_eq!(rt; answered, 0, "at {text}");
        let mut compiled = TwoFiles::new(out.writer.as_slice(), b"");
        let mut count = Output::new(Vec::new(rt.alloc()));
        let words = ["check", "P"];
        let answered = tool(
            rt.alloc(),
            words.as_slice(),
            &mut compiled,
            &mut count,
            &mut err,
        );
        assert_eq!(rt; answered, 0, "at {text}");
        assert!(rt; count.writer.as_slice().starts_with(b"ok "), "at {text}");
        assert!(rt; err.writer.is_empty(), "at {text}");
    }
}
