// A client of the bus.

use std::io::{Read, Write};
use std::process::Abort;

/// What a client says before its messages.
const TALK: &[u8; 29] = b"\0AUTH EXTERNAL\r\nDATA\r\nBEGIN\r\n";

/// A call of Hello on the path `/`, with serial 1 and no destination.
const HELLO: &[u8; 48] =
    b"l\x01\0\x01\0\0\0\0\x01\0\0\0\x1e\0\0\0\x01\x01o\0\x01\0\0\0/\0\0\0\0\0\0\0\x03\x01s\0\x05\0\0\0Hello\0\0\0";

/// A call of AddMatch on the path `/`, with serial 2, no destination, and the rule `member='c'`.
const ADD_MATCH: &[u8; 79] =
    b"l\x01\0\x01\x0f\0\0\0\x02\0\0\0/\0\0\0\x01\x01o\0\x01\0\0\0/\0\0\0\0\0\0\0\x03\x01s\0\x08\0\0\0AddMatch\0\0\0\0\0\0\0\0\x08\x01g\0\x01s\0\0\x0a\0\0\0member='c'\0";

/// A signal of the path `/a`, the interface `a.b` and the member `c`.
const S1: &[u8; 64] =
    b"l\x04\0\x01\0\0\0\0\x01\0\0\0*\0\0\0\x01\x01o\0\x02\0\0\0/a\0\0\0\0\0\0\x02\x01s\0\x03\0\0\0a.b\0\0\0\0\0\x03\x01s\0\x01\0\0\0c\0\0\0\0\0\0\0";

/// The same signal, of the sender `:1.2`.
pub const S1_STAMPED: &[u8; 80] =
    b"l\x04\0\x01\0\0\0\0\x01\0\0\0=\0\0\0\x01\x01o\0\x02\0\0\0/a\0\0\0\0\0\0\x02\x01s\0\x03\0\0\0a.b\0\0\0\0\0\x03\x01s\0\x01\0\0\0c\0\0\0\0\0\0\0\x07\x01s\0\x04\0\0\0:1.2\0\0\0\0";

/// The lengths of the answers: to the talk (`DATA` and `OK GUID`), to Hello with the signal NameAcquired, and to
/// AddMatch.
const TALK_ANSWER: usize = 43;

const HELLO_ANSWER: usize = 258;

const MATCH_ANSWER: usize = 72;

fn skip<S: Read, R: Abort>(rt: &R, stream: &mut S, count: usize) {
    let mut byte = [0u8];
    for _ in 0..count {
        stream.read_exact(&mut byte).expect(rt, "an answer");
    }
}

fn say<S: Write, R: Abort>(rt: &R, stream: &mut S, bytes: &[u8]) {
    stream.write_all(bytes).expect(rt, "a server that reads");
}

/// Authenticates and says Hello.
fn enter<S: Read + Write, R: Abort>(rt: &R, stream: &mut S) {
    say(rt, stream, TALK);
    skip(rt, stream, TALK_ANSWER);
    say(rt, stream, HELLO);
    skip(rt, stream, HELLO_ANSWER);
}

/// Adds a rule at the first client, sends a signal by the second, and gives what the first one reads.
pub fn talk<S: Read + Write, T: Read + Write, R: Abort>(
    rt: &R,
    first: &mut S,
    second: &mut T,
) -> [u8; 80] {
    enter(rt, first);
    say(rt, first, ADD_MATCH);
    skip(rt, first, MATCH_ANSWER);
    enter(rt, second);
    say(rt, second, S1);
    let mut got = [0u8; 80];
    first.read_exact(&mut got).expect(rt, "the signal");
    got
}
