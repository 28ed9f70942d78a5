// Building with little memory: want of it is NoMemory, and never a part of the answer. To be run with one allocation
// after another refused.

use crate::builders::signal;
use message_build::{BuildError, Builder};
use std::alloc::Global;

/// A signal with the arguments `a`, 7, true and the list of `b`.
const WITH_ARGUMENTS: [u8; 106] = [
    108, 4, 0, 1, 26, 0, 0, 0, 1, 0, 0, 0, 59, 0, 0, 0, 1, 1, 111, 0, 2, 0, 0, 0, 47, 97, 0, 0, 0,
    0, 0, 0, 2, 1, 115, 0, 3, 0, 0, 0, 97, 46, 98, 0, 0, 0, 0, 0, 3, 1, 115, 0, 1, 0, 0, 0, 99, 0,
    0, 0, 0, 0, 0, 0, 8, 1, 103, 0, 5, 115, 117, 98, 97, 115, 0, 0, 0, 0, 0, 0, 1, 0, 0, 0, 97, 0,
    0, 0, 7, 0, 0, 0, 1, 0, 0, 0, 6, 0, 0, 0, 1, 0, 0, 0, 98, 0,
];

/// A signal with the argument `hi`.
const WITH_BODY: [u8; 79] = [
    108, 4, 0, 1, 7, 0, 0, 0, 1, 0, 0, 0, 55, 0, 0, 0, 1, 1, 111, 0, 2, 0, 0, 0, 47, 97, 0, 0, 0,
    0, 0, 0, 2, 1, 115, 0, 3, 0, 0, 0, 97, 46, 98, 0, 0, 0, 0, 0, 3, 1, 115, 0, 1, 0, 0, 0, 99, 0,
    0, 0, 0, 0, 0, 0, 8, 1, 103, 0, 1, 115, 0, 0, 2, 0, 0, 0, 104, 105, 0,
];

/// Adds an argument of each kind.
fn add_arguments(builder: &mut Builder<'_>) -> Result<(), BuildError> {
    builder.arg_str("a")?;
    builder.arg_u32(7)?;
    builder.arg_bool(true)?;
    builder.arg_strs(&["b"])
}

/// A signal with an argument of each kind.
fn with_arguments(alloc: Global) -> Result<Vec<u8>, BuildError> {
    let mut builder = signal(alloc);
    match add_arguments(&mut builder) {
        Ok(()) => builder.finish(alloc),
        Err(fault) => Err(fault),
    }
}

/// A signal with a body given as a whole.
fn with_body(alloc: Global) -> Result<Vec<u8>, BuildError> {
    let mut builder = signal(alloc);
    match add_body(&mut builder, b"s", b"\x02\0\0\0hi\0") {
        Ok(()) => builder.finish(alloc),
        Err(fault) => Err(fault),
    }
}

/// Gives the body as a whole.
fn add_body(builder: &mut Builder<'_>, signature: &[u8], body: &[u8]) -> Result<(), BuildError> {
    builder.raw_body(signature, body)
}

/// The whole answer, or want of memory.
fn is_whole(built: Result<Vec<u8>, BuildError>, want: &[u8]) -> bool {
    match built {
        Ok(bytes) => bytes.as_slice() == want,
        Err(fault) => fault == BuildError::NoMemory,
    }
}

#[test]
fn arguments_with_refusals(rt: HostRuntime) {
    assert!(rt; is_whole(with_arguments(rt.alloc()), &WITH_ARGUMENTS));
}

#[test]
fn body_with_refusals(rt: HostRuntime) {
    assert!(rt; is_whole(with_body(rt.alloc()), &WITH_BODY));
}
