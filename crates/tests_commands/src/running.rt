// A run of the longest program of jumps.

use crate::two_files::{S1, TwoFiles};
use dbusfan_tool::{Output, tool};
use std::alloc::Global;
use std::fmt::Write;
use std::process::Abort;

/// Both sides of each jump lead to the next instruction, by a label of its own.
fn jumps<R: Abort>(rt: &R, alloc: Global) -> String {
    let mut program = String::new(alloc);
    for place in 0..4095u32 {
        let next = place + 1;
        writeln!(program, "L{place}: jeq #0, L{next}, L{next}").expect(rt, "memory");
    }
    program.push_str("L4095: ret #1\n").expect(rt, "memory");
    program
}

#[test]
fn longest_jumps(rt: HostRuntime) {
    let program = jumps(&rt, rt.alloc());
    let mut files = TwoFiles::new(program.as_bytes(), S1.as_bytes());
    let mut out = Output::new(Vec::new(rt.alloc()));
    let mut err = Output::new(Vec::new(rt.alloc()));
    let words = ["run", "P", "F"];
    let answered = tool(rt.alloc(), words.as_slice(), &mut files, &mut out, &mut err);
    assert_eq!(rt; out.writer.as_slice(), b"verdict 1 steps 4096\n".as_slice());
    assert!(rt; err.writer.is_empty());
    assert_eq!(rt; answered, 0);
}
