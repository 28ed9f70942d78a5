// What a section says of an interface.

ghost use Rattle.std.specs.Prelude.{◌≡◌};
ghost use Rattle.captures.specs.Interfaces.{interface_of, kept_len, step_with};

use crate::error::CaptureError;
use crate::order::Order;
use crate::step::{LINKTYPE_DBUS, Packet, Step};
use crate::times::Times;

/// The bytes of an Interface Description Block's body before its options.
pub(crate) const INTERFACE_LEN: usize = 8;

/// An interface: the link type of its packets, how many bytes of each are kept at most (0 for all), and its times.
#[derive(Clone, Copy, Debug, Default, PartialEq, Eq)]
pub struct Interface {
    pub link_type: u16,
    pub snap_len: u32,
    pub times: Times,
}

impl Interface {
    /// The interface that the body of an Interface Description Block describes.
    pub(crate) fn of(order: Order, body: &[u8]) -> Result<Interface, CaptureError>
        ensures { result ≡ interface_of order body.now }
    {
        if body.len() < INTERFACE_LEN {
            return Err(CaptureError::BlockLength);
        }
        match Times::of(order, body.split_at(INTERFACE_LEN).1) {
            Ok(times) => Ok(Interface {
                link_type: order.half(body, 0),
                snap_len: order.word(body, 4),
                times,
            }),
            Err(fault) => Err(fault),
        }
    }

    /// How many bytes of a packet are kept.
    pub(crate) fn kept_len(self, original: u32) -> u32
        ensures { result ≡ kept_len self original }
    {
        if self.snap_len == 0 || original < self.snap_len {
            return original;
        }
        self.snap_len
    }

    /// A packet of this interface: of D-Bus, or passed over.
    pub(crate) fn step_with(self, packet: Packet) -> Step
        ensures { result ≡ step_with self packet }
    {
        if self.link_type as u32 == LINKTYPE_DBUS {
            return Step::Message(packet);
        }
        Step::Other {
            len: packet.len,
            link_type: self.link_type,
        }
    }
}
