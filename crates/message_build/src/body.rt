// Whether bytes are a body.

ghost use Rattle.std.specs.Prelude.{◌≡◌, true, false};
ghost use Rattle.message_build.specs.MessageBytes.{IsBody};

use message_value::{Cursor, MsgError, Order, check_members};
use signature::Signature;

/// The deepest nesting of values.
const MAX_LEVELS: usize = 64;

/// The longest body whose length a header can hold, in bytes.
const MAX_BODY_LEN: usize = u32::MAX as usize;

/// Whether the bytes are values of the signature's types, and no more. They may be more than a message may have.
pub(crate) fn is_body(signature: &[u8], body: &[u8]) -> bool
    ensures yes { result ≡ true → IsBody signature.now body.now }
    ensures no { result ≡ false → IsBody signature.now body.now → ⊥ }
{
    if body.len() > MAX_BODY_LEN {
        return false;
    }
    let Ok(read) = Signature::read(signature) else {
        return false;
    };
    let mut cursor = Cursor::new(0, body, MsgError::Short);
    match check_members(&mut cursor, Order::Little, read.types(), MAX_LEVELS) {
        Ok(()) => cursor.is_empty(),
        Err(_) => false,
    }
}
