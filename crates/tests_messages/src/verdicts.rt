// Verdicts on programs.

use bpf_code::{Ins, Op};
use bpf_verify::{VerifyError, verify};
use std::alloc::Global;
use std::process::Abort;

fn ins(code: u16, jt: u8, jf: u8, k: u32) -> Ins {
    Ins { code, jt, jf, k }
}

fn list_of<R: Abort>(rt: &R, alloc: Global, program: &[Ins]) -> Vec<Ins> {
    program.to_vec(alloc).expect(rt, "memory")
}

/// A program that is refused comes back; one that is accepted is lent.
#[test]
fn unset_word(rt: HostRuntime) {
    let program = [
        ins(0x00, 0, 0, 0),
        ins(0x15, 0, 1, 0),
        ins(0x02, 0, 0, 3),
        ins(0x60, 0, 0, 3),
        ins(0x16, 0, 0, 0),
    ];
    match verify(list_of(&rt, rt.alloc(), &program)) {
        Ok(_) => panic!(rt; "accepted"),
        Err((fault, back)) => {
            assert_eq!(rt; fault, VerifyError::Unset(3));
            assert_eq!(rt; back.as_slice(), program.as_slice());
        }
    }
    let dead = [ins(0x05, 0, 0, 1), ins(0x60, 0, 0, 3), ins(0x06, 0, 0, 1)];
    match verify(list_of(&rt, rt.alloc(), &dead)) {
        Ok(accepted) => assert_eq!(rt; accepted.code(), dead.as_slice()),
        Err(_) => panic!(rt; "refused"),
    }
}

#[test]
fn exclusive_or(rt: HostRuntime) {
    assert!(rt; Op::of(0xa4).is_some());
    assert!(rt; Op::of(0xac).is_some());
    assert_eq!(rt; Op::of(0xb4), None);
}
