// A capture that is shown, read in pieces.

use crate::error::Fault;
use crate::selection::Selection;
use captures::{Packets, Step};
use command_line::Writer;
use std::alloc::Global;
use std::io::{ErrorKind, Read};

/// How many bytes are read at once.
const PIECE_LEN: usize = 16_384;

/// Hands on the messages of a capture that are selected. No more of the file is kept than a block, or a packet with its
/// header, and one piece.
pub(crate) fn show_capture<I: Read, O: Writer, F: Writer, E: Writer>(
    alloc: Global,
    input: &mut I,
    selection: &mut Selection<'_, '_, '_, O, F, E>,
) -> Result<(), Fault> {
    let mut packets = Packets::new();
    let mut bytes = Vec::new(alloc);
    for _ in 0..u64::MAX {
        let left = take_packets(alloc, &mut packets, bytes.as_slice(), selection)?.len();
        if selection.is_done() {
            return Ok(());
        }
        if left < bytes.len() {
            bytes = last_bytes(alloc, bytes.as_slice(), left)?;
        }
        if !read_piece(input, &mut bytes)? {
            packets.end(bytes.as_slice())?;
            return Ok(());
        }
    }
    Ok(())
}

/// Takes the packets that bytes begin with, and answers the bytes after them.
fn take_packets<'b, O: Writer, F: Writer, E: Writer>(
    alloc: Global,
    packets: &mut Packets,
    bytes: &'b [u8],
    selection: &mut Selection<'_, '_, '_, O, F, E>,
) -> Result<&'b [u8], Fault> {
    let mut rest = bytes;
    for _ in 0..u64::MAX {
        if selection.is_done() {
            return Ok(rest);
        }
        match packets.next(rest)? {
            Step::Message(packet) => {
                selection.take_packet(alloc, &packet, packet.message(rest))?;
                rest = &rest[packet.len..];
            }
            Step::Other { len, .. } => {
                selection.pass_over();
                rest = &rest[len..];
            }
            Step::Skip(len) => rest = &rest[len..],
            Step::More(_) => return Ok(rest),
        }
    }
    Ok(rest)
}

/// The last bytes of some, at most as many as there are.
fn last_bytes(alloc: Global, bytes: &[u8], len: usize) -> Result<Vec<u8>, Fault> {
    let start = bytes.len().saturating_sub(len);
    Ok(Vec::from_slice(alloc, bytes.split_at(start).1)?)
}

/// Reads one more piece, and answers whether there was one.
fn read_piece<I: Read>(input: &mut I, bytes: &mut Vec<u8>) -> Result<bool, Fault> {
    let mut piece = [0u8; PIECE_LEN];
    for _ in 0..u64::MAX {
        match input.read(&mut piece) {
            Ok(len) => {
                bytes.extend_from_slice(&piece[..len])?;
                return Ok(len > 0);
            }
            Err(error) if error.kind() == ErrorKind::Interrupted => {}
            Err(_) => return Err(Fault::Tool(command_line::Fault::File)),
        }
    }
    Ok(false)
}
