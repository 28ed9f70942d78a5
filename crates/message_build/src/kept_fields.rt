// The header fields of a message that are copied.

ghost use Rattle.std.specs.Prelude.{◌≡◌, ◌+◌, ◌-◌, ◌<◌, ◌≤◌, ◌++◌, ℕ, List, length, take, drop, filter, IfOk, IfSome, MatchOption};
ghost use Rattle.message_value.specs.Answers.{Reads};
ghost use Rattle.std.specs.List.{list_all};
ghost use Rattle.message_view.specs.Message.{Field};
ghost use Rattle.message_view.specs.Spelling.{fields_bytes};
ghost use Rattle.message_view.specs.Valid.{AreFields};
ghost use Rattle.message_build.specs.Stamped.{is_kept};
ghost use Rattle.message_build.specs.StampedFields.{begun_at, is_kept_code, kept_bytes, IsFound, IsAfter, LiesAt};
ghost use Rattle.message_build.specs.Growing.{Appends};

use crate::appending::align;
use message_value::{Cursor, MsgError, Order, check_value};
use std::alloc::AllocError;

/// How many levels of values are left inside the variant of a field.
const LEVELS_IN_FIELD: usize = 63;

/// A field's code, and where it stands.
#[derive(Clone, Copy)]
struct Begun {
    code: u8,
    place: usize,
}

/// A field: its code, and its bytes from the code on.
#[derive(Clone, Copy)]
struct Found<'a> {
    code: u8,
    bytes: &'a [u8],
}

/// Goes over a field, with the zeros before it.
#[tactic(auto, unfolding(crate::specs::StampedFields::begun_at))]
fn skip_field(cursor: &mut Cursor<'_>, order: Order) -> Result<Begun, MsgError>
    ensures { Reads (λ begun. begun) result cursor.new (begun_at order cursor.old) }
{
    cursor.align(8)?;
    let place = cursor.place();
    let code = cursor.byte()?;
    let value_type = cursor.signature()?;
    check_value(cursor, order, &value_type, LEVELS_IN_FIELD)?;
    Ok(Begun { code, place })
}

/// The bytes from one place to another, if they are there.
pub(crate) fn between(bytes: &[u8], from: usize, to: usize) -> Option<&[u8]>
    ensures len { IfSome result (λ found. from + length found.now ≡ to) }
    ensures found { from ≤ to → to ≤ length bytes.entry.now → MatchOption result ⊥ (λ found. found.now ≡ take (to - from) (drop from bytes.entry.now)) }
{
    bytes.get(from..to)
}

/// The next field of an array, in which the cursor's places are counted from its first byte; `None` after the last one.
fn next_field<'a>(array: &'a [u8], cursor: &mut Cursor<'_>, order: Order) -> Option<Found<'a>>
    ensures shorter { IfSome result (λ _. length cursor.new.rest < length cursor.old.rest) }
    ensures found { (field : Field) (more : List ℕ) → LiesAt order array.entry.now cursor.old field more → IsFound result order field }
    ensures tail { (field : Field) (more : List ℕ) → LiesAt order array.entry.now cursor.old field more → IsAfter order cursor.old field more cursor.new }
{
    match skip_field(cursor, order) {
        Ok(begun) => {
            let bytes = between(array, begun.place, cursor.place())?;
            Some(Found {
                code: begun.code,
                bytes,
            })
        }
        Err(_) => None,
    }
}

/// Whether the fields of a code are copied: those that have a meaning, but for SENDER.
fn is_kept(code: u8) -> bool
    ensures { result ≡ is_kept_code code }
{
    match code {
        1..=6 | 8 | 9 => true,
        _ => false,
    }
}

/// Appends a field, with the zeros before it, if it is copied.
fn push_found(bytes: &mut Vec<u8>, found: &Found<'_>) -> Result<(), AllocError>
    ensures { Appends result bytes.old.items bytes.new.items (kept_bytes (length bytes.old.items) found.now) }
{
    if !is_kept(found.code) {
        return Ok(());
    }
    align(bytes, 8)?;
    bytes.extend_from_slice(found.bytes)
}

/// Appends the fields of an array that are copied, in their order. The array begins at a multiple of 8, so that places
/// may be counted from there.
#[inline(never)]
fn push_kept(bytes: &mut Vec<u8>, order: Order, array: &[u8]) -> Result<(), AllocError>
    requires { length array.now ≤ 67108864 }
    ensures front { take (length bytes.old.items) bytes.new.items ≡ bytes.old.items }
    ensures kept { (fields : List Field) → AreFields order 0 fields → array.now ≡ fields_bytes order 0 fields → IfOk result (λ _. bytes.new.items ≡ bytes.old.items ++ fields_bytes order (length bytes.old.items) (filter is_kept fields)) }
{
    let mut cursor = Cursor::new(0, array, MsgError::ArrayLength);
    while let Some(found) = next_field(array, &mut cursor, order) {
        push_found(bytes, &found)?;
    }
    Ok(())
}

/// Whether all fields of an array are copied.
fn are_all_kept(order: Order, array: &[u8]) -> bool
    requires short { length array.now ≤ 67108864 }
    requires valid { (fields : List Field) × AreFields order 0 fields × (array.now ≡ fields_bytes order 0 fields) }
    ensures { (fields : List Field) → AreFields order 0 fields → array.now ≡ fields_bytes order 0 fields → result ≡ list_all is_kept fields }
{
    let mut cursor = Cursor::new(0, array, MsgError::ArrayLength);
    while !cursor.is_empty() {
        let code = message_view::skip_field(&mut cursor, order);
        if !is_kept(code) {
            return false;
        }
    }
    true
}

/// Appends the fields of the array of a valid message that are copied, in their order. In most messages they are all, so
/// that the array is copied as it is.
pub(crate) fn push_kept_of(
    bytes: &mut Vec<u8>,
    order: Order,
    array: &[u8],
) -> Result<(), AllocError>
    requires short { length array.now ≤ 67108864 }
    requires valid { (fields : List Field) × AreFields order 0 fields × (array.now ≡ fields_bytes order 0 fields) }
    requires begun { length bytes.old.items ≡ 16 }
    ensures front { take (length bytes.old.items) bytes.new.items ≡ bytes.old.items }
    ensures kept { (fields : List Field) → AreFields order 0 fields → array.now ≡ fields_bytes order 0 fields → IfOk result (λ _. bytes.new.items ≡ bytes.old.items ++ fields_bytes order (length bytes.old.items) (filter is_kept fields)) }
{
    if are_all_kept(order, array) {
        bytes.extend_from_slice(array)
    } else {
        push_kept(bytes, order, array)
    }
}
