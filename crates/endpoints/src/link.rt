// Connected sockets.

ghost use Rattle.std.specs.Io.{ReadsAtMost, WritesAtMost};

use std::io;
use std::io::{Read, Write};
use std::net::{Shutdown, TcpStream};
use std::os::fd::{AsRawFd, RawFd};
use std::os::unix::net::UnixStream;
use std::time::Duration;

/// A connection's socket. Threads share it by reference: one reads, another writes, any of them shuts it down.
#[derive(Drop)]
pub enum Link {
    Tcp(TcpStream),
    Unix(UnixStream),
}

impl Link {
    /// From now on a read or a write that would wait answers `WouldBlock`.
    pub fn set_nonblocking(&self) -> io::Result<()> {
        match self {
            Link::Tcp(stream) => stream.set_nonblocking(true),
            Link::Unix(stream) => stream.set_nonblocking(true),
        }
    }

    /// From now on a read or a write that waits for longer than the limit answers `WouldBlock`.
    pub fn set_timeouts(&self, limit: Option<Duration>) -> io::Result<()> {
        match self {
            Link::Tcp(stream) => {
                stream.set_read_timeout(limit)?;
                stream.set_write_timeout(limit)
            }
            Link::Unix(stream) => {
                stream.set_read_timeout(limit)?;
                stream.set_write_timeout(limit)
            }
        }
    }

    /// One read. It answers 0 at the end of the input.
    pub fn receive(&self, buf: &mut [u8]) -> io::Result<usize>
        ensures { ReadsAtMost result buf.new }
    {
        match self {
            Link::Tcp(stream) => {
                let mut reader = stream;
                reader.read(buf)
            }
            Link::Unix(stream) => {
                let mut reader = stream;
                reader.read(buf)
            }
        }
    }

    /// One write, maybe of less than all.
    pub fn send(&self, buf: &[u8]) -> io::Result<usize>
        ensures { WritesAtMost result buf.now }
    {
        match self {
            Link::Tcp(stream) => {
                let mut writer = stream;
                writer.write(buf)
            }
            Link::Unix(stream) => {
                let mut writer = stream;
                writer.write(buf)
            }
        }
    }

    /// Ends both directions: a read then answers 0, and a write `BrokenPipe`. Where this fails the peer has done so.
    pub fn shut(&self) {
        let _ = match self {
            Link::Tcp(stream) => stream.shutdown(Shutdown::Both),
            Link::Unix(stream) => stream.shutdown(Shutdown::Both),
        };
    }

    /// The descriptor, by which a poll knows the socket.
    pub fn descriptor(&self) -> RawFd {
        match self {
            Link::Tcp(stream) => stream.as_raw_fd(),
            Link::Unix(stream) => stream.as_raw_fd(),
        }
    }
}
