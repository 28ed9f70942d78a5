// The formats of captures.

ghost use Rattle.std.specs.Prelude.{◌≡◌};
ghost use Rattle.captures.specs.Pcap.{magic_of};

use crate::block::SECTION;
use crate::order::Order;
use crate::pcap::TimeUnit;

pub(crate) const MAGIC_LEN: usize = 4;

// A pcap file's magic number, as its highest byte first and its lowest byte first spell it, where the fractions of
// seconds are microseconds and nanoseconds.
pub(crate) const BIG_MICRO: u32 = 0xa1b2_c3d4;

pub(crate) const LITTLE_MICRO: u32 = 0xd4c3_b2a1;

pub(crate) const BIG_NANO: u32 = 0xa1b2_3c4d;

pub(crate) const LITTLE_NANO: u32 = 0x4d3c_b2a1;

/// What the first four bytes of a file say.
#[derive(Clone, Copy, Debug, PartialEq, Eq)]
pub enum Magic {
    Pcap(Order, TimeUnit),
    Pcapng,
}

impl Magic {
    /// What this number says, read with its highest byte first.
    pub(crate) fn of(number: u32) -> Option<Magic>
        ensures { result ≡ magic_of number }
    {
        match number {
            BIG_MICRO => Some(Magic::Pcap(Order::Big, TimeUnit::Micro)),
            LITTLE_MICRO => Some(Magic::Pcap(Order::Little, TimeUnit::Micro)),
            BIG_NANO => Some(Magic::Pcap(Order::Big, TimeUnit::Nano)),
            LITTLE_NANO => Some(Magic::Pcap(Order::Little, TimeUnit::Nano)),
            SECTION => Some(Magic::Pcapng),
            _ => None,
        }
    }
}
