// The bytes of the message that a stream begins with.

ghost use Rattle.std.specs.Prelude.{◌≡◌, IfOk, IfErr, IfSome, IfNone};
ghost use Rattle.frames.specs.Stream.{BeginsWithMessage, IsFrame, IsUnfinished, IsFault};

use message_view::{MsgError, frame_len};

/// The first of these bytes, as many as the message is long that they begin with; `None` where they aren't all there.
///
/// # Errors
///
/// The fault of the message's fixed part.
pub(crate) fn frame_of(bytes: &[u8]) -> Result<Option<&[u8]>, MsgError>
    ensures frame { IfOk result (λ front. IfSome front (λ frame. IsFrame bytes.now frame.now)) }
    ensures unfinished { IfOk result (λ front. IfNone front (IsUnfinished bytes.now)) }
    ensures none { IfOk result (λ front. IfNone front (BeginsWithMessage bytes.now → ⊥)) }
    ensures fault { IfErr result (λ fault. IsFault bytes.now fault) }
{
    match frame_len(bytes) {
        Err(fault) => Err(fault),
        Ok(None) => Ok(None),
        Ok(Some(len)) => {
            let len = len as usize;
            if bytes.len() < len {
                return Ok(None);
            }
            Ok(Some(&bytes[..len]))
        }
    }
}
