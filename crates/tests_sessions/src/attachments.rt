// Attachments: a program and an edition as arguments.

use crate::calls::{expect_refusal, message, read_call};
use bpf_code::Ins;
use bus_messages::{Call, CallError};
use std::alloc::Global;
use std::process::Abort;
use summary::Edition;

// Two instructions, `(qyyu)` each, in little-endian order.
const PROGRAM: &[u8] = b"\x10\0\0\0\0\0\0\0\x15\0\x01\x02\x03\0\0\0\x06\0\0\0\x01\0\0\0";

const INSTRUCTIONS: [Ins; 2] = [
    Ins {
        code: 0x15,
        jt: 1,
        jf: 2,
        k: 3,
    },
    Ins {
        code: 6,
        jt: 0,
        jf: 0,
        k: 1,
    },
];

// The message is an attachment of this edition and program.
fn expect_attachment<R: Abort>(
    rt: &R,
    alloc: Global,
    bytes: &[u8],
    wanted: Edition,
    instructions: &[Ins],
) {
    match read_call(rt, alloc, bytes).expect(rt, "a call") {
        Call::Attach(edition, program) => {
            assert_eq!(rt; edition, wanted);
            assert_eq!(rt; program.as_slice(), instructions);
        }
        _ => panic!(rt; "no attachment"),
    }
}

#[test]
fn edition_one(rt: HostRuntime) {
    let alloc = rt.alloc();
    let bytes = message(&rt, alloc, "", "Attach", b"a(qyyu)", PROGRAM);
    expect_attachment(&rt, alloc, &bytes, Edition::One, &INSTRUCTIONS);
}

// Attach in big-endian order, by the rules of the D-Bus Specification.
const BIG: &str =
    "4201000100000018000000020000005d01016f00000000152f6f72672f667265656465736b746f702f4442757300000002017300000000176f72672e6578616d706c652e50726f6772616d42757331000301730000000006417474616368000008016700076128717979752900000000000000100000000000150102000000030006000000000001";

// AttachEdition of edition 2 in that order, without an interface.
const BIG_EDITION: &str =
    "4201000100000018000000020000004601016f00000000152f6f72672f667265656465736b746f702f44427573000000030173000000000d41747461636845646974696f6e00000008016700087561287179797529000000000000020000001000150102000000030006000000000001";

fn expect_decoded<R: Abort>(rt: &R, alloc: Global, digits: &str, edition: Edition) {
    let bytes = hex::decode(alloc, digits).expect(rt, "digits");
    expect_attachment(rt, alloc, &bytes, edition, &INSTRUCTIONS);
}

#[test]
fn big_endian(rt: HostRuntime) {
    expect_decoded(&rt, rt.alloc(), BIG, Edition::One);
    expect_decoded(&rt, rt.alloc(), BIG_EDITION, Edition::Two);
}

fn expect_no_edition<R: Abort>(rt: &R, alloc: Global, body: &[u8]) {
    let bytes = message(rt, alloc, "", "AttachEdition", b"ua(qyyu)", body);
    expect_refusal(rt, alloc, &bytes, CallError::BadEdition);
}

#[test]
fn no_edition(rt: HostRuntime) {
    expect_no_edition(&rt, rt.alloc(), b"\0\0\0\0\0\0\0\0");
    expect_no_edition(&rt, rt.alloc(), b"\x03\0\0\0\0\0\0\0");
}

// An empty program is a call: whether it is well formed is asked later.
#[test]
fn empty_program(rt: HostRuntime) {
    let alloc = rt.alloc();
    let bytes = message(&rt, alloc, "", "Attach", b"a(qyyu)", b"\0\0\0\0\0\0\0\0");
    expect_attachment(&rt, alloc, &bytes, Edition::One, &[]);
}
