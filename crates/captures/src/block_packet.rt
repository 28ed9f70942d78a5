// Packets in blocks.

ghost use Rattle.std.specs.Prelude.{◌≡◌, ◌+◌, ◌≤◌, length, Some};
ghost use Rattle.captures.specs.BlockPackets.{of_interface, timed_packet, enhanced_packet, obsolete_packet, simple_packet};

use crate::block::{BLOCK_HEADER_LEN, Block};
use crate::error::CaptureError;
use crate::interface::Interface;
use crate::step::{Packet, Step};

/// The bytes of a body before the packet, in a block that has a time.
pub(crate) const TIMED_LEN: usize = 20;

/// The bytes of a body before the packet, in a Simple Packet Block.
pub(crate) const UNTIMED_LEN: usize = 4;

/// The packet of an interface in a block that has a time: its interface's number aside, Enhanced and obsolete blocks
/// are alike.
fn timed_packet_of(interface: Interface, block: Block, body: &[u8]) -> Result<Step, CaptureError>
    requires { TIMED_LEN ≤ length body.now }
    ensures { result ≡ of_interface (Some interface) block body.now }
{
    let captured = block.order.word(body, 12);
    if body.len() - TIMED_LEN < captured as usize {
        return Err(CaptureError::RecordLength);
    }
    let high = block.order.word(body, 4);
    let low = block.order.word(body, 8);
    let start = BLOCK_HEADER_LEN + TIMED_LEN;
    Ok(interface.step_with(Packet {
        len: block.len,
        start,
        end: start + captured as usize,
        time: interface.times.nanoseconds(high, low),
        is_cut: captured < block.order.word(body, 16),
    }))
}

/// The packet of the interface of this number.
fn timed_packet(
    interfaces: &[Interface],
    number: usize,
    block: Block,
    body: &[u8],
) -> Result<Step, CaptureError>
    requires { TIMED_LEN ≤ length body.now }
    ensures { result ≡ timed_packet interfaces.now number block body.now }
{
    match interfaces.get(number) {
        Some(interface) => timed_packet_of(*interface, block, body),
        None => Err(CaptureError::Interface),
    }
}

/// The packet of an Enhanced Packet Block.
pub(crate) fn enhanced_packet(
    interfaces: &[Interface],
    block: Block,
    body: &[u8],
) -> Result<Step, CaptureError>
    ensures { result ≡ enhanced_packet interfaces.now block body.now }
{
    if body.len() < TIMED_LEN {
        return Err(CaptureError::BlockLength);
    }
    timed_packet(interfaces, block.order.word(body, 0) as usize, block, body)
}

/// The packet of an obsolete Packet Block.
pub(crate) fn obsolete_packet(
    interfaces: &[Interface],
    block: Block,
    body: &[u8],
) -> Result<Step, CaptureError>
    ensures { result ≡ obsolete_packet interfaces.now block body.now }
{
    if body.len() < TIMED_LEN {
        return Err(CaptureError::BlockLength);
    }
    timed_packet(interfaces, block.order.half(body, 0) as usize, block, body)
}

/// The packet of a Simple Packet Block, which is of the section's first interface.
pub(crate) fn simple_packet(
    interfaces: &[Interface],
    block: Block,
    body: &[u8],
) -> Result<Step, CaptureError>
    ensures { result ≡ simple_packet interfaces.now block body.now }
{
    if body.len() < UNTIMED_LEN {
        return Err(CaptureError::BlockLength);
    }
    let Some(interface) = interfaces.first() else {
        return Err(CaptureError::Interface);
    };
    let original = block.order.word(body, 0);
    let captured = interface.kept_len(original);
    if body.len() - UNTIMED_LEN < captured as usize {
        return Err(CaptureError::RecordLength);
    }
    let start = BLOCK_HEADER_LEN + UNTIMED_LEN;
    Ok(interface.step_with(Packet {
        len: block.len,
        start,
        end: start + captured as usize,
        time: None,
        is_cut: captured < original,
    }))
}
