// Bytes of the wire format, appended.

ghost use Rattle.std.specs.Prelude.{◌≡◌, ◌<◌, ◌≤◌, ◌∷◌, [], length, List, ℕ};
ghost use Rattle.message_value.specs.declared.order.Order.TheVariants.{Little};
ghost use Rattle.message_value.specs.Order.{word_bytes};
ghost use Rattle.signature.specs.DataType.{basic};
ghost use Rattle.message_value.specs.Value.{number, text};
ghost use Rattle.message_value.specs.Spelling.{padding, zeros, text_bytes, value_bytes};
ghost use Rattle.message_build.specs.Growing.{Appends};

use message_value::{Order, padding};
use std::alloc::AllocError;

/// The alignment of a dict entry.
pub(crate) const ENTRY_ALIGNMENT: usize = 8;

/// Appends zeros up to a multiple.
pub(crate) fn align(bytes: &mut Vec<u8>, alignment: usize) -> Result<(), AllocError>
    requires { 0 < alignment × alignment ≤ 8 }
    ensures { Appends result bytes.old.items bytes.new.items (zeros (padding alignment (length bytes.old.items))) }
{
    let missing = padding(alignment, bytes.len());
    if missing == 0 {
        return Ok(());
    }
    let zeros = [0; 8];
    bytes.extend_from_slice(&zeros[..missing])
}

/// The four low bytes of a number. Only the lengths of messages above the limits need more.
pub(crate) fn word_of(order: Order, n: usize) -> [u8; 4]
    ensures { result ≡ word_bytes order n }
{
    let low_first = n.to_le_bytes();
    let low = [low_first[0], low_first[1], low_first[2], low_first[3]];
    match order {
        Order::Little => low,
        Order::Big => [low[3], low[2], low[1], low[0]],
    }
}

/// Appends the four low bytes of a number.
pub(crate) fn push_word(bytes: &mut Vec<u8>, order: Order, n: usize) -> Result<(), AllocError>
    ensures { Appends result bytes.old.items bytes.new.items (word_bytes order n) }
{
    bytes.extend_from_slice(&word_of(order, n))
}

/// Appends a text with its length in four bytes before it and a zero byte after it.
pub(crate) fn push_text(bytes: &mut Vec<u8>, order: Order, text: &[u8]) -> Result<(), AllocError>
    ensures { Appends result bytes.old.items bytes.new.items (text_bytes order 115 text.now) }
{
    push_word(bytes, order, text.len())?;
    bytes.extend_from_slice(text)?;
    bytes.extend_from_slice(&[0])
}

/// Appends a string or a path as a value, with the zeros before it.
pub(crate) fn push_string(
    bytes: &mut Vec<u8>,
    order: Order,
    string: &[u8],
) -> Result<(), AllocError>
    ensures { Appends result bytes.old.items bytes.new.items (value_bytes order (length bytes.old.items) (basic 115) (text string.now)) }
{
    align(bytes, 4)?;
    push_text(bytes, order, string)
}

/// Appends a number of four bytes as a value, with the zeros before it.
pub(crate) fn push_number(bytes: &mut Vec<u8>, n: u32) -> Result<(), AllocError>
    ensures { Appends result bytes.old.items bytes.new.items (value_bytes Little (length bytes.old.items) (basic 117) (number n)) }
{
    align(bytes, 4)?;
    push_word(bytes, Order::Little, n as usize)
}

/// Appends a signature with its length in a byte before it and a zero byte after it.
pub(crate) fn push_signature(bytes: &mut Vec<u8>, text: &[u8]) -> Result<(), AllocError>
    requires { length text.now < 256 }
    ensures { Appends result bytes.old.items bytes.new.items (text_bytes Little 103 text.now) }
{
    bytes.extend_from_slice(&[text.len() as u8])?;
    bytes.extend_from_slice(text)?;
    bytes.extend_from_slice(&[0])
}
