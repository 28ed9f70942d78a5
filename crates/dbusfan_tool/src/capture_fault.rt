// The fault of a capture.

use crate::beginning::Beginning;
use captures::{CaptureError, Packets, Step};
use command_line::{FileError, Files};
use std::alloc::Global;

/// The first fault of the capture in the open file, of which some bytes were read, if it has one. No more of the file is kept
/// than a block, or a packet with its header, and one piece.
pub(crate) fn capture_fault<F: Files>(
    alloc: Global,
    files: &mut F,
    beginning: Beginning,
) -> Result<Option<CaptureError>, FileError> {
    let mut packets = Packets::new();
    let Beginning {
        mut bytes,
        mut is_open,
    } = beginning;
    for _ in 0..u64::MAX {
        let rest = match after_packets(&mut packets, &bytes) {
            Ok(rest) => rest,
            Err(fault) => return Ok(Some(fault)),
        };
        // A block of many pieces isn't copied for each of them.
        if rest.len() < bytes.len() {
            let left = Vec::from_slice(alloc, rest);
            bytes = left.map_err(|_| FileError::Memory)?;
        }
        if !is_open {
            return Ok(packets.end(&bytes).err());
        }
        is_open = files.read_piece(&mut bytes)?;
    }
    Err(FileError::Memory)
}

// What bytes have after the packets that they begin with: more has to be there for the next.
fn after_packets<'a>(packets: &mut Packets, bytes: &'a [u8]) -> Result<&'a [u8], CaptureError> {
    let mut rest = bytes;
    for _ in 0..=bytes.len() {
        let len = match packets.next(rest)? {
            Step::Message(packet) => packet.len,
            Step::Other { len, .. } => len,
            Step::Skip(len) => len,
            Step::More(_) => return Ok(rest),
        };
        rest = after(rest, len);
    }
    Ok(rest)
}

// The bytes after the first `len`, none where there are no more.
fn after(bytes: &[u8], len: usize) -> &[u8] {
    if len <= bytes.len() {
        bytes.split_at(len).1
    } else {
        &[]
    }
}
