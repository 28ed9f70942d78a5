// The text where the first argument of a message stands.

use message_value::{Order, padding};

/// How many bytes come before the header's fields.
const FIXED_LEN: usize = 16;

fn word(order: Order, bytes: &[u8]) -> Option<u32> {
    match bytes {
        [a, b, c, d, ..] => Some(order.word([*a, *b, *c, *d])),
        _ => None,
    }
}

/// The first argument of the message that these bytes begin with, if it is a text. It is found by two lengths: whether the bytes
/// are a message, and its first argument is a text, isn't looked at.
pub(crate) fn first_text(bytes: &[u8]) -> Option<&str> {
    let order = Order::of(*bytes.first()?)?;
    let fields_len = word(order, bytes.get(12..)?)? as usize;
    let body = bytes.get(FIXED_LEN + fields_len + padding(8, fields_len)..)?;
    let len = word(order, body)? as usize;
    str::from_utf8(body.get(4..)?.get(..len)?).ok()
}
