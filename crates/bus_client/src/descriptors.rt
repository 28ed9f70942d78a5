// Messages with file descriptors, of a stream that is read without them.

ghost use Rattle.std.specs.Prelude.{IfOk};
ghost use Rattle.bus_client.specs.Descriptors.{IsCleared};

use crate::error::ClientError;
use bytes::BytesMut;
use message_value::{Cursor, Order, check_value};
use message_view::MsgError;
use std::alloc::Global;

/// How many bytes a message has before its header fields.
const FIXED_LEN: usize = 16;

/// The code of the header field UNIX_FDS, which is the number of a message's descriptors.
const UNIX_FDS: u8 = 9;

/// How many bytes the number has.
const NUMBER_LEN: usize = 4;

/// How many levels of values are left inside the variant of a field.
const LEVELS_IN_FIELD: usize = 63;

/// More bytes than a message and what is read at once after it.
const MAX_STREAM_LEN: usize = 268435456;

/// Where the number of descriptors stands in the message that a stream begins with.
fn number_place(stream: &[u8]) -> Result<usize, MsgError> {
    if stream.len() > MAX_STREAM_LEN {
        return Err(MsgError::UnixFds);
    }
    let order = stream.first().and_then(|byte| Order::of(*byte));
    let order = order.ok_or(MsgError::Order)?;
    let mut cursor = Cursor::new(0, stream, MsgError::UnixFds);
    cursor.item(FIXED_LEN)?;
    for _ in 0..stream.len() {
        cursor.align(8)?;
        let code = cursor.byte()?;
        let value_type = cursor.signature()?;
        if code == UNIX_FDS {
            cursor.align(NUMBER_LEN)?;
            return Ok(cursor.place());
        }
        check_value(&mut cursor, order, &value_type, LEVELS_IN_FIELD)?;
    }
    Err(MsgError::UnixFds)
}

/// A stream that begins with a message that has descriptors, with 0 as their number: a message of which none were taken.
///
/// # Errors
///
/// `Message` if no number of descriptors stands in the message's header, and `NoMemory`.
pub(crate) fn without_descriptors(alloc: Global, stream: &[u8]) -> Result<BytesMut, ClientError>
    // All but the number stays as it came.
    ensures { IfOk result (λ bytes. IsCleared stream.now bytes.items) }
{
    let place = number_place(stream)?;
    let Some((front, rest)) = stream.split_at_checked(place) else {
        return Err(ClientError::Message(MsgError::UnixFds));
    };
    let Some((_number, after)) = rest.split_at_checked(NUMBER_LEN) else {
        return Err(ClientError::Message(MsgError::UnixFds));
    };
    let mut bytes = BytesMut::copy_from_slice(alloc, front)?;
    bytes.extend_from_slice(&[0; NUMBER_LEN])?;
    bytes.extend_from_slice(after)?;
    Ok(bytes)
}
