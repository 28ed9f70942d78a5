// A reader and a writer over memory, of which one call may fail.

use crate::received::Received;
use crate::serving::{Broken, Serving};
use std::io;
use std::io::{ErrorKind, Read, Write};

/// The bytes that a client sends.
#[derive(Drop)]
pub(crate) struct Input<'a> {
    bytes: &'a [u8],
    at_once: usize,
    // How many reads come before the one that fails, and that one; 0: none fails from here on.
    until_fault: u32,
}

impl<'a> Input<'a> {
    pub(crate) fn new(bytes: &'a [u8], serving: Serving) -> Input<'a> {
        Input {
            bytes,
            at_once: serving.at_once,
            until_fault: match serving.broken {
                Broken::Read(count) => count,
                _ => 0,
            },
        }
    }
}

impl Read for Input<'_> {
    fn read(&mut self, buf: &mut [u8]) -> io::Result<usize> {
        let fails = self.until_fault == 1;
        self.until_fault = self.until_fault.saturating_sub(1);
        if fails {
            return Err(io::Error::from(ErrorKind::Other));
        }
        let len = self.at_once.min(self.bytes.len()).min(buf.len());
        let (front, rest) = self.bytes.split_at(len);
        buf[..len].copy_from_slice(front);
        self.bytes = rest;
        Ok(len)
    }
}

/// Keeps what is written to a client.
#[derive(Drop)]
pub(crate) struct Output<'a> {
    to: &'a mut Received,
    // As for an input, but of writes.
    until_fault: u32,
}

impl<'a> Output<'a> {
    pub(crate) fn new(to: &'a mut Received, serving: Serving) -> Output<'a> {
        Output {
            to,
            until_fault: match serving.broken {
                Broken::Write(count) => count,
                _ => 0,
            },
        }
    }
}

impl Write for Output<'_> {
    fn write(&mut self, buf: &[u8]) -> io::Result<usize> {
        let fails = self.until_fault == 1;
        self.until_fault = self.until_fault.saturating_sub(1);
        if fails {
            return Err(io::Error::from(ErrorKind::Other));
        }
        self.to.add(buf)?;
        Ok(buf.len())
    }

    fn flush(&mut self) -> io::Result<()> {
        Ok(())
    }
}
