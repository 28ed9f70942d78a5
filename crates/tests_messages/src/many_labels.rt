// A text with thousands of labels.

use bpf_code::{CodeError, Ins};
use bpf_text::assemble;
use std::alloc::Global;
use std::fmt::Write;
use std::process::Abort;

/// How many lines have a label, each of which the line before jumps to.
const LABELS: usize = 4000;

/// `jeq #7` to the next instruction, whatever is found.
const JEQ: Ins = Ins {
    code: 0x15,
    jt: 0,
    jf: 0,
    k: 7,
};

/// `ret #1`.
const RET: Ins = Ins {
    code: 0x06,
    jt: 0,
    jf: 0,
    k: 1,
};

/// Tests that each lead to the next line, or to where `otherwise` says.
fn tests_and_return<R: Abort>(rt: &R, alloc: Global, otherwise: &str) -> String {
    let mut text = String::new(alloc);
    for label in 0..LABELS {
        let next = label + 1;
        writeln!(text, "at{label}: jeq #7, at{next}{otherwise}").expect(rt, "memory");
    }
    writeln!(text, "at{LABELS}: ret #1").expect(rt, "memory");
    text
}

#[test]
fn many_labels(rt: HostRuntime) {
    let text = tests_and_return(&rt, rt.alloc(), "");
    let program = assemble(rt.alloc(), text.as_str()).expect(&rt, "a program");
    assert_eq!(rt; program.len(), LABELS + 1);
    for ins in program.iter().take(LABELS) {
        assert_eq!(rt; *ins, JEQ);
    }
    assert_eq!(rt; program.last().copied(), Some(RET));
}

// The label of the last line is more than 255 instructions away, so the first line has the first fault.
#[test]
fn many_far_jumps(rt: HostRuntime) {
    let mut text = tests_and_return(&rt, rt.alloc(), ", last");
    text.push_str("last: ret #0\n").expect(&rt, "memory");
    let program = assemble(rt.alloc(), text.as_str());
    assert_eq!(rt; program.err(), Some(CodeError::FarJump(1)));
}
