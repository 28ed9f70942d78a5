// Each call with little memory: want of it is NoMemory, and never a part of the answer. To be run with one
// allocation after another refused.
use bpf_code::{CodeError, Ins, decode, encode};
use bpf_text::{assemble, print};
use std::alloc::Global;
use std::process::Abort;

const TEXT: &str =
    "ld #0\njeq #0, L2, L3\nL2: st M[3]\nL3: ld M[3]\njeq #1, L5, L6\nL5: add x\nL6: jgt #7, L7, L8\nL7: neg\nL8: ja L10\ntax\nL10: ret a\n";

fn ins(code: u16, jt: u8, jf: u8, k: u32) -> Ins {
    Ins { code, jt, jf, k }
}

fn program() -> [Ins; 11] {
    [
        ins(0x00, 0, 0, 0),
        ins(0x15, 0, 1, 0),
        ins(0x02, 0, 0, 3),
        ins(0x60, 0, 0, 3),
        ins(0x15, 0, 1, 1),
        ins(0x0c, 0, 0, 0),
        ins(0x25, 0, 1, 7),
        ins(0x84, 0, 0, 0),
        ins(0x05, 0, 0, 1),
        ins(0x07, 0, 0, 0),
        ins(0x16, 0, 0, 0),
    ]
}

fn bytes() -> [u8; 88] {
    [
        0, 0, 0, 0, 0, 0, 0, 0, 21, 0, 0, 1, 0, 0, 0, 0, 2, 0, 0, 0, 3, 0, 0, 0, 96, 0, 0, 0, 3, 0,
        0, 0, 21, 0, 0, 1, 1, 0, 0, 0, 12, 0, 0, 0, 0, 0, 0, 0, 37, 0, 0, 1, 7, 0, 0, 0, 132, 0, 0,
        0, 0, 0, 0, 0, 5, 0, 0, 0, 1, 0, 0, 0, 7, 0, 0, 0, 0, 0, 0, 0, 22, 0, 0, 0, 0, 0, 0, 0,
    ]
}

#[test]
fn decode_with_refusals(rt: HostRuntime) {
    match decode(rt.alloc(), &bytes()) {
        Ok(read) => assert_eq!(rt; read.as_slice(), program().as_slice()),
        Err(e) => assert_eq!(rt; e, CodeError::NoMemory),
    }
}

#[test]
fn encode_with_refusals(rt: HostRuntime) {
    match encode(rt.alloc(), &program()) {
        Ok(written) => assert_eq!(rt; written.as_slice(), bytes().as_slice()),
        Err(e) => assert_eq!(rt; e, CodeError::NoMemory),
    }
}

#[test]
fn assemble_with_refusals(rt: HostRuntime) {
    expect_assembled(&rt, rt.alloc(), TEXT);
}

/// That the text is the program's, or memory ran out.
fn expect_assembled<R: Abort>(rt: &R, alloc: Global, text: &str) {
    match assemble(alloc, text) {
        Ok(read) => assert_eq!(rt; read.as_slice(), program().as_slice()),
        Err(e) => assert_eq!(rt; e, CodeError::NoMemory),
    }
}

#[test]
fn print_with_refusals(rt: HostRuntime) {
    match print(rt.alloc(), &program()) {
        Ok(text) => assert_eq!(rt; text.as_str(), TEXT),
        Err(e) => assert_eq!(rt; e, CodeError::NoMemory),
    }
}
