// How a capture is told from other files.

ghost use Rattle.std.specs.Prelude.{◌≡◌};
ghost use Rattle.captures.specs.Beginnings.{is_capture};

use crate::block::{MAGIC_END, order_of};
use crate::magic::{MAGIC_LEN, Magic};
use crate::order::Order;

/// Whether a file of these bytes is a capture, by its magic number, or of pcapng by both of its magic numbers. No text
/// is one.
pub fn is_capture(bytes: &[u8]) -> bool
    ensures { result ≡ is_capture bytes.now }
{
    if bytes.len() < MAGIC_LEN {
        return false;
    }
    match Magic::of(Order::Big.word(bytes, 0)) {
        None => false,
        Some(Magic::Pcap(..)) => true,
        Some(Magic::Pcapng) => {
            bytes.len() >= MAGIC_END && order_of(Order::Big.word(bytes, 8)).is_some()
        }
    }
}
