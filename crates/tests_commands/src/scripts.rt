// Servers that a script plays.

use message_build::Builder;
use message_view::Kind;
use std::alloc::Global;
use std::io;
use std::io::{Read, Write};
use std::process::Abort;

/// A server that says what it says, at most `at_once` bytes a read, and keeps what the client wrote.
#[derive(Drop)]
pub(crate) struct Script<'a> {
    says: &'a [u8],
    at_once: usize,
    pub(crate) written: Vec<u8>,
}

impl<'a> Script<'a> {
    pub(crate) fn new(alloc: Global, says: &'a [u8], at_once: usize) -> Script<'a> {
        Script {
            says,
            at_once,
            written: Vec::new(alloc),
        }
    }
}

impl<'a> Read for Script<'a> {
    fn read(&mut self, buf: &mut [u8]) -> io::Result<usize> {
        let len = self.says.len().min(buf.len()).min(self.at_once);
        let (front, rest) = self.says.split_at(len);
        buf[..len].copy_from_slice(front);
        self.says = rest;
        Ok(len)
    }
}

impl<'a> Write for Script<'a> {
    fn write(&mut self, buf: &[u8]) -> io::Result<usize> {
        self.written.extend_from_slice(buf)?;
        Ok(buf.len())
    }

    fn flush(&mut self) -> io::Result<()> {
        Ok(())
    }
}

/// Adds the builder's message.
fn put<R: Abort>(rt: &R, alloc: Global, says: &mut Vec<u8>, builder: &Builder<'_>) {
    let message = builder.finish(alloc).expect(rt, "a message");
    says.extend_from_slice(&message).expect(rt, "memory");
}

/// Adds the bus's answer to the call of this serial, an error where it has a name.
pub(crate) fn put_answer<R: Abort>(
    rt: &R,
    alloc: Global,
    says: &mut Vec<u8>,
    to: u32,
    error: Option<&str>,
) {
    let kind = match error {
        Some(_) => Kind::Error,
        None => Kind::MethodReturn,
    };
    let mut answer = Builder::new(alloc, kind, 1, to);
    answer.reply_serial(to);
    if let Some(name) = error {
        answer.error_name(name);
        answer.arg_str("what was wrong").expect(rt, "memory");
    }
    answer.sender("org.freedesktop.DBus");
    answer.destination(":1.7");
    put(rt, alloc, says, &answer);
}

/// Adds a signal of this member.
pub(crate) fn put_signal<R: Abort>(rt: &R, alloc: Global, says: &mut Vec<u8>, member: &str) {
    let mut signal = Builder::new(alloc, Kind::Signal, 1, 1);
    signal.path("/a");
    signal.interface("a.b");
    signal.member(member);
    put(rt, alloc, says, &signal);
}
