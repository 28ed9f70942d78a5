// Files of the format pcap.

ghost use Rattle.std.specs.Prelude.{◌≡◌, ◌≤◌, length};
ghost use Rattle.captures.specs.Pcap.{nanoseconds, header_fault, record_at};

use crate::error::CaptureError;
use crate::order::Order;
use crate::step::{LINKTYPE_DBUS, MAX_PACKET_LEN, Packet, Step};

/// The bytes of a file's header.
pub const FILE_HEADER_LEN: usize = 24;

/// The bytes of a record before those of its packet.
pub const RECORD_HEADER_LEN: usize = 16;

pub(crate) const VERSION_MAJOR: u16 = 2;

pub(crate) const VERSION_MINOR: u16 = 4;

/// The link type is in the low 28 bits of its word.
pub(crate) const LINK_TYPES: u32 = 0x1000_0000;

pub(crate) const NANOS_PER_SECOND: u64 = 1_000_000_000;

/// The unit of the fractions of a second in a pcap file, which its magic number says.
#[derive(Clone, Copy, Debug, PartialEq, Eq)]
pub enum TimeUnit {
    Micro,
    Nano,
}

impl TimeUnit {
    /// How many nanoseconds it is.
    pub fn nanoseconds(self) -> u64
        ensures { result ≡ nanoseconds self }
    {
        match self {
            TimeUnit::Micro => 1000,
            TimeUnit::Nano => 1,
        }
    }
}

/// What is wrong with a file's header.
pub(crate) fn header_fault(order: Order, bytes: &[u8]) -> Option<CaptureError>
    requires { FILE_HEADER_LEN ≤ length bytes.now }
    ensures { result ≡ header_fault order bytes.now }
{
    if order.half(bytes, 4) != VERSION_MAJOR || order.half(bytes, 6) != VERSION_MINOR {
        return Some(CaptureError::Version);
    }
    let link_type = order.word(bytes, 20) % LINK_TYPES;
    if link_type != LINKTYPE_DBUS {
        return Some(CaptureError::LinkType(link_type));
    }
    None
}

/// The record that the bytes begin with.
pub(crate) fn record_at(order: Order, unit: TimeUnit, bytes: &[u8]) -> Result<Step, CaptureError>
    ensures { result ≡ record_at order unit bytes.now }
{
    if bytes.len() < RECORD_HEADER_LEN {
        return Ok(Step::More(RECORD_HEADER_LEN));
    }
    let captured = order.word(bytes, 8);
    if captured > MAX_PACKET_LEN {
        return Err(CaptureError::RecordLength);
    }
    let len = RECORD_HEADER_LEN + captured as usize;
    if bytes.len() < len {
        return Ok(Step::More(len));
    }
    let seconds = order.word(bytes, 0) as u64;
    let fraction = order.word(bytes, 4) as u64;
    Ok(Step::Message(Packet {
        len,
        start: RECORD_HEADER_LEN,
        end: len,
        time: Some(seconds * NANOS_PER_SECOND + fraction * unit.nanoseconds()),
        is_cut: captured < order.word(bytes, 12),
    }))
}
