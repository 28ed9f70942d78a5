// The bytes of a message that is built.

ghost use Rattle.std.specs.Prelude.{◌≡◌, ℕ, ◌+◌, ◌≤◌, true, [], length, IfOk};
ghost use Rattle.message_value.specs.declared.order.Order.TheVariants.{Little};
ghost use Rattle.message_value.specs.Fits.{max_array_len};
ghost use Rattle.message_value.specs.Order.{order_byte};
ghost use Rattle.message_view.specs.Spelling.{fixed_len, fields_bytes};
ghost use Rattle.message_build.specs.Building.{Finishes, listed_bytes};
ghost use Rattle.message_build.specs.Growing.{Appends};
ghost use Rattle.message_build.specs.MessageBytes.{fixed_bytes, whole_bytes};
ghost use Rattle.message_build.specs.Headers.{request_of};
ghost use Rattle.message_build.specs.HeaderFields.{fields_of, are_allowed};

use crate::appending::{align, push_word};
use crate::body::is_body;
use crate::body_state::BodyState;
use crate::error::BuildError;
use crate::field::{HeaderField, are_allowed};
use crate::fields::{FIXED_LEN, fields_end, push_fields};
use crate::header::Header;
use message_value::{Order, padding};
use std::alloc::{AllocError, Global};

/// The longest message.
pub(crate) const MAX_MESSAGE_LEN: usize = 134217728;

/// The byte that stands for an order in front of a message.
fn order_byte(order: Order) -> u8
    ensures { result ≡ order_byte order }
{
    match order {
        Order::Little => b'l',
        Order::Big => b'B',
    }
}

/// Appends what comes before the fields: the order, the kind, the flags, the version of the protocol, the body's
/// length, the serial, and the length of the fields.
pub(crate) fn push_fixed(
    bytes: &mut Vec<u8>,
    order: Order,
    header: &Header<'_>,
    fields_len: usize,
    body_len: usize,
) -> Result<(), AllocError>
    ensures { Appends result bytes.old.items bytes.new.items (fixed_bytes order header.now fields_len body_len) }
{
    bytes.extend_from_slice(&[order_byte(order), header.kind.byte(), header.flags, 1])?;
    push_word(bytes, order, body_len)?;
    push_word(bytes, order, header.serial as usize)?;
    push_word(bytes, order, fields_len)
}

/// The message with these fields, which end at a place, and this body.
fn message(
    alloc: Global,
    header: &Header<'_>,
    fields: &[Option<HeaderField<'_>>],
    end: usize,
    body: &[u8],
) -> Result<Vec<u8>, AllocError>
    requires allowed { are_allowed fields.now ≡ true }
    requires end { end ≡ fixed_len + length (fields_bytes Little fixed_len (fields_of fields.now)) }
    requires short { end ≤ fixed_len + max_array_len }
    requires body { length body.now ≤ 134217728 }
    ensures { IfOk result (λ v. v.items ≡ whole_bytes header.now (fields_of fields.now) body.now) }
{
    let mut bytes = Vec::with_capacity(alloc, end + padding(8, end) + body.len())?;
    push_fixed(
        &mut bytes,
        Order::Little,
        header,
        end - FIXED_LEN,
        body.len(),
    )?;
    push_fields(&mut bytes, fields)?;
    align(&mut bytes, 8)?;
    bytes.extend_from_slice(body)?;
    Ok(bytes)
}

/// The message that was asked for, or why there is none. What a message may hold is looked at before its size,
/// so that only a message that is valid otherwise is too large.
pub(crate) fn build_message(
    alloc: Global,
    header: &Header<'_>,
    signature: &[u8],
    body: &[u8],
    body_state: BodyState,
) -> Result<Vec<u8>, BuildError>
    ensures { Finishes (request_of header.now signature.now body.now body_state) (listed_bytes result) }
{
    let fields = header.fields(signature);
    if body_state.is_spoiled() {
        return Err(BuildError::Invalid);
    }
    if !header.is_sound() {
        return Err(BuildError::Invalid);
    }
    if !are_allowed(&fields) {
        return Err(BuildError::Invalid);
    }
    if !is_body(signature, body) {
        return Err(BuildError::Invalid);
    }
    let Some(end) = fields_end(&fields) else {
        return Err(BuildError::TooLarge);
    };
    if body.len() > MAX_MESSAGE_LEN - (end + padding(8, end)) {
        return Err(BuildError::TooLarge);
    }
    Ok(message(alloc, header, &fields, end, body)?)
}
