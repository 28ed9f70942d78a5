// Messages as long as they may be, and longer ones.

use crate::builders::{finish, signal};
use crate::s1::read_message;
use message_build::{BuildError, Builder};
use message_view::Kind;
use std::alloc::Global;
use std::process::Abort;

/// The longest message, in bytes.
const MAX_MESSAGE_LEN: u32 = 134_217_728;

/// The longest array, in bytes.
const MAX_ARRAY_LEN: u32 = 67_108_864;

/// The header of the signal of `signal` with the signature `ayay`, in bytes.
const HEADER_LEN: u32 = 80;

/// How many bytes the second array has in the longest message, after the first one, which is as long as it may be.
const SECOND_LEN: u32 = MAX_MESSAGE_LEN - HEADER_LEN - 4 - MAX_ARRAY_LEN - 4;

fn push<R: Abort>(rt: &R, body: &mut Vec<u8>, bytes: &[u8]) {
    body.extend_from_slice(bytes).expect(rt, "memory");
}

/// Adds an array of bytes, at a multiple of 4.
fn push_array<R: Abort>(rt: &R, body: &mut Vec<u8>, word: u32) {
    let part = [7; 4096];
    let len = word as usize;
    push(rt, body, &word.to_le_bytes());
    for _ in 0..len / part.len() {
        push(rt, body, &part);
    }
    push(rt, body, &part[..len % part.len()]);
}

/// Two arrays of bytes, the first as long as an array may be.
fn two_arrays<R: Abort>(rt: &R, alloc: Global, second_len: u32) -> Vec<u8> {
    let mut body = Vec::with_capacity(alloc, MAX_MESSAGE_LEN as usize).expect(rt, "memory");
    push_array(rt, &mut body, MAX_ARRAY_LEN);
    push_array(rt, &mut body, second_len);
    body
}

/// That the builder's message can't be built, for this reason.
fn expect_refused<R: Abort>(rt: &R, alloc: Global, builder: &Builder<'_>, fault: BuildError) {
    match builder.finish(alloc) {
        Ok(_) => panic!(rt; "it was built"),
        Err(error) => assert_eq!(rt; error, fault),
    }
}

/// The signal of `signal` with a body given as a whole.
fn with_body<R: Abort>(rt: &R, alloc: Global, signature: &[u8], body: &[u8]) -> Builder<'static> {
    let mut builder = signal(alloc);
    builder.raw_body(signature, body).expect(rt, "memory");
    builder
}

#[test]
fn longest_message(rt: HostRuntime) {
    let body = two_arrays(&rt, rt.alloc(), SECOND_LEN);
    let builder = with_body(&rt, rt.alloc(), b"ayay", body.as_slice());
    let bytes = finish(&rt, rt.alloc(), &builder);
    assert_eq!(rt; bytes.len(), MAX_MESSAGE_LEN as usize);
    let view = read_message(&rt, bytes.as_slice());
    assert_eq!(rt; view.body().len(), body.len());
}

// One byte more than a message may have; and the same in a builder that asks for no message at any size.
#[test]
fn body_too_large(rt: HostRuntime) {
    let body = two_arrays(&rt, rt.alloc(), SECOND_LEN + 1);
    let mut builder = with_body(&rt, rt.alloc(), b"ayay", body.as_slice());
    expect_refused(&rt, rt.alloc(), &builder, BuildError::TooLarge);
    builder.arg_bool(true).expect(&rt, "memory");
    expect_refused(&rt, rt.alloc(), &builder, BuildError::Invalid);
}

// More bytes than a message may have, which aren't values of the signature: a boolean is 0 or 1.
#[test]
fn long_body_of_another_form(rt: HostRuntime) {
    let mut body = two_arrays(&rt, rt.alloc(), MAX_ARRAY_LEN);
    assert!(rt; body.len() > MAX_MESSAGE_LEN as usize);
    push(&rt, &mut body, &[2, 0, 0, 0]);
    let builder = with_body(&rt, rt.alloc(), b"ayayb", body.as_slice());
    expect_refused(&rt, rt.alloc(), &builder, BuildError::Invalid);
}

/// A path of one byte more than an array of fields may have.
fn long_path<R: Abort>(rt: &R, alloc: Global) -> String {
    let mut path = String::from_str(alloc, "/").expect(rt, "memory");
    for _ in 0..1_048_576 {
        path.push_str("aaaaaaaaaaaaaaaaaaaaaaaaaaaaaaaaaaaaaaaaaaaaaaaaaaaaaaaaaaaaaaaa")
            .expect(rt, "memory");
    }
    path
}

#[test]
fn path_too_large(rt: HostRuntime) {
    let path = long_path(&rt, rt.alloc());
    let mut builder = Builder::new(rt.alloc(), Kind::Signal, 0, 1);
    builder.path(path.as_str());
    builder.interface("a.b");
    builder.member("c");
    expect_refused(&rt, rt.alloc(), &builder, BuildError::TooLarge);
}
