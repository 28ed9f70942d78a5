// Arrays of strings, appended.

ghost use Rattle.std.specs.Prelude.{◌≡◌, ◌+◌, ◌≤◌, ◌++◌, ◌∷◌, [], length, take, drop};
ghost use Rattle.signature.specs.DataType.{basic, array};
ghost use Rattle.message_value.specs.declared.order.Order.TheVariants.{Little};
ghost use Rattle.message_value.specs.Order.{word_bytes};
ghost use Rattle.message_value.specs.Value.{elements};
ghost use Rattle.message_value.specs.Spelling.{elements_bytes, value_bytes};
ghost use Rattle.message_build.specs.Growing.{Appends};
ghost use Rattle.message_build.specs.Adding.{string_values};

use crate::appending::{align, push_string, push_word, word_of};
use message_value::Order;
use std::alloc::AllocError;

/// How many bytes the length of an array has.
pub(crate) const LENGTH_LEN: usize = 4;

/// Appends the strings one after the other.
fn push_elements(bytes: &mut Vec<u8>, strings: &[&str]) -> Result<(), AllocError>
    ensures { Appends result bytes.old.items bytes.new.items (elements_bytes Little (length bytes.old.items) (basic 115) (string_values strings.now)) }
{
    for string in strings {
        push_string(bytes, Order::Little, string.as_bytes())?;
    }
    Ok(())
}

/// Writes the four low bytes of a length over four bytes.
pub(crate) fn set_word(bytes: &mut Vec<u8>, at: usize, order: Order, n: usize)
    requires { at + 4 ≤ length bytes.old.items }
    ensures { bytes.new.items ≡ take at bytes.old.items ++ (word_bytes order n ++ drop (at + 4) bytes.old.items) }
{
    let word = word_of(order, n);
    bytes[at] = word[0];
    bytes[at + 1] = word[1];
    bytes[at + 2] = word[2];
    bytes[at + 3] = word[3];
}

/// Appends an array of strings as a value, with the zeros before it.
pub(crate) fn push_strings(bytes: &mut Vec<u8>, strings: &[&str]) -> Result<(), AllocError>
    ensures { Appends result bytes.old.items bytes.new.items (value_bytes Little (length bytes.old.items) (array (basic 115)) (elements (string_values strings.now))) }
{
    align(bytes, 4)?;
    let at = bytes.len();
    push_word(bytes, Order::Little, 0)?;
    push_elements(bytes, strings)?;
    let len = bytes.len() - (at + LENGTH_LEN);
    set_word(bytes, at, Order::Little, len);
    Ok(())
}
