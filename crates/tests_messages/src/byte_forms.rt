// Programs as bytes.

use bpf_code::{Ins, decode, encode};
use std::alloc::Global;
use std::process::Abort;

#[test]
fn each_field_lowest_byte_first(rt: HostRuntime) {
    let program = [Ins {
        code: 0x0201,
        jt: 3,
        jf: 4,
        k: 0x08070605,
    }];
    let bytes = [1, 2, 3, 4, 5, 6, 7, 8];
    expect_written(&rt, rt.alloc(), &program, &bytes);
    expect_read(&rt, rt.alloc(), &bytes, &program);
}

fn expect_written<R: Abort>(rt: &R, alloc: Global, program: &[Ins], bytes: &[u8]) {
    let written = encode(alloc, program).expect(rt, "memory");
    assert_eq!(rt; written.as_slice(), bytes);
}

fn expect_read<R: Abort>(rt: &R, alloc: Global, bytes: &[u8], program: &[Ins]) {
    let read = decode(alloc, bytes).expect(rt, "a program");
    assert_eq!(rt; read.as_slice(), program);
}
