// The header of a pcapng section.

ghost use Rattle.std.specs.Prelude.{◌≡◌};
ghost use Rattle.captures.specs.Blocks.{section_fault};

use crate::error::CaptureError;
use crate::order::Order;

/// The bytes of a Section Header Block's body before its options.
pub(crate) const SECTION_LEN: usize = 16;

pub(crate) const SECTION_MAJOR: u16 = 1;

// Version 1.2 is the same as 1.0.
pub(crate) const SECTION_MINOR: u16 = 0;

pub(crate) const SECTION_MINOR_TOO: u16 = 2;

/// What is wrong with the body of a Section Header Block.
pub(crate) fn section_fault(order: Order, body: &[u8]) -> Option<CaptureError>
    ensures { result ≡ section_fault order body.now }
{
    if body.len() < SECTION_LEN {
        return Some(CaptureError::BlockLength);
    }
    let minor = order.half(body, 6);
    if order.half(body, 4) != SECTION_MAJOR
        || (minor != SECTION_MINOR && minor != SECTION_MINOR_TOO)
    {
        return Some(CaptureError::Version);
    }
    None
}
