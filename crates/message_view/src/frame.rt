// How long the message is that some bytes begin with.

ghost use Rattle.std.specs.Prelude.{◌≡◌};
ghost use Rattle.message_view.specs.Fixed.{framing};

use crate::fixed::Fixed;
use message_value::MsgError;

/// The length in bytes of the whole message that begins with these bytes, by the fixed part of its
/// header (D-Bus Specification, "Message Format"); `None` where more bytes are needed to say.
///
/// # Errors
///
/// The first check of the fixed part that fails, as soon as its bytes are there.
pub fn frame_len(bytes: &[u8]) -> Result<Option<u32>, MsgError>
    ensures { result ≡ framing bytes.now }
{
    match Fixed::read(bytes) {
        Ok(Some(fixed)) => Ok(Some(fixed.whole_len() as u32)),
        Ok(None) => Ok(None),
        Err(fault) => Err(fault),
    }
}
