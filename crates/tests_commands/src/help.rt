// The help of the command line, of which only a part is fixed.

use crate::two_files::{S1, TwoFiles};
use dbusfan_tool::{Output, tool};
use std::alloc::Global;
use std::process::Abort;

/// That words, divided by bars, are answered with help.
fn expect_help<R: Abort>(rt: &R, alloc: Global, line: &str) {
    let words: Vec<&str> = line.split('|').collect(alloc).expect(rt, "memory");
    let mut files = TwoFiles::new(b"", S1.as_bytes());
    let mut out = Output::new(Vec::new(alloc));
    let mut err = Output::new(Vec::new(alloc));
    let answered = tool(alloc, words.as_slice(), &mut files, &mut out, &mut err);
    let text = std::str::from_utf8(out.writer.as_slice()).expect(rt, "a text");
    assert!(rt; text.contains("Usage: dbusfan"), "at {line}");
    assert!(rt; err.writer.is_empty(), "at {line}");
    assert_eq!(rt; answered, 0, "at {line}");
}

#[test]
fn help(rt: HostRuntime) {
    for line in [
        "--help",
        "-h",
        "help",
        "help|match",
        "match|--help",
        "match|-h",
        "match||F|--help",
        "match|--filter|signal|F|--help",
        "asm|--help",
        "help|check",
        "compile|--help",
        "run|--help",
    ] {
        expect_help(&rt, rt.alloc(), line);
    }
}
