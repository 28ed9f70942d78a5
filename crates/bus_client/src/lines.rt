// The client's side of an authentication talk.

ghost use Rattle.std.specs.Prelude.{◌≤◌, ◌<◌, IfOk, IfSome, length};

use crate::error::ClientError;
use crate::talk::{Answer, Say, Stage};
use crate::transport::Transport;
use bytes::BytesMut;
use std::alloc::Global;
use std::io::{ErrorKind, Read, Write};

/// The longest line of a server, in bytes, with its line end.
const MAX_LINE_LEN: usize = 1024;

/// How many bytes of a talk are read at once.
const TALK_LEN: usize = 512;

/// How many lines a client says at most, BEGIN not counted.
const MAX_LINES: usize = 5;

/// One read, which is tried again where a signal came between.
///
/// # Errors
///
/// `Socket`, at the end of the input too, and `NoMemory`.
pub(crate) fn read_some<S: Read>(stream: &mut S, block: &mut [u8]) -> Result<usize, ClientError>
    ensures { IfOk result (λ len. len ≤ length block.new) }
{
    for _ in 0..u64::MAX {
        match stream.read(block) {
            Ok(0) => return Err(ClientError::Socket),
            Ok(len) => return Ok(len),
            Err(error) if error.kind() == ErrorKind::Interrupted => {}
            Err(error) => return Err(ClientError::from(error)),
        }
    }
    Err(ClientError::Socket)
}

/// How many bytes the first line has, with its line feed, if it is there.
fn line_len(bytes: &[u8]) -> Option<usize>
    ensures { IfSome result (λ len. (0 < len) × (len ≤ length bytes.now)) }
{
    let end = bytes.iter().position(|byte| *byte == b'\n')?;
    Some(end + 1)
}

/// What the server's next line says. Its bytes are taken.
fn next_answer<S: Read>(stream: &mut S, unread: &mut BytesMut) -> Result<Answer, ClientError> {
    for _ in 0..=MAX_LINE_LEN {
        if let Some(len) = line_len(unread.as_slice()) {
            let line = &unread.as_slice()[..len - 1];
            let answer = Answer::of(line.strip_suffix(b"\r").unwrap_or(line));
            unread.advance(len);
            return Ok(answer);
        }
        if unread.len() >= MAX_LINE_LEN {
            break;
        }
        let mut block = [0u8; TALK_LEN];
        let len = read_some(stream, &mut block)?;
        unread.extend_from_slice(&block[..len])?;
    }
    Err(ClientError::Auth)
}

/// Talks with a server until messages begin: EXTERNAL without a name, and ANONYMOUS if that is refused; then that the
/// client takes file descriptors, whether the server knows them or not. It gives the bytes that came after the server's
/// last line.
///
/// # Errors
///
/// `Auth` where the server refuses both or talks otherwise, `Socket` and `NoMemory`.
pub(crate) fn log_in<S: Read + Write>(
    alloc: Global,
    stream: &mut S,
    transport: Transport,
) -> Result<BytesMut, ClientError> {
    let mut unread = BytesMut::new(alloc);
    let mut stage = Stage::External;
    stream.write_all(b"\0")?;
    for _ in 0..MAX_LINES {
        stream.write_all(stage.line().as_bytes())?;
        match stage.after(next_answer(stream, &mut unread)?, transport) {
            Say::Line(next) => stage = next,
            Say::Begin => {
                stream.write_all(b"BEGIN\r\n")?;
                return Ok(unread);
            }
            Say::Nothing => return Err(ClientError::Auth),
        }
    }
    Err(ClientError::Auth)
}
