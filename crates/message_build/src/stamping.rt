// Messages stamped with their sender.

ghost use Rattle.std.specs.Prelude.{◌≡◌, ◌≤◌, true, List, [], length, IfOk, IfSome, MatchOption};
ghost use Rattle.signature.specs.Name.{is_bus_name};
ghost use Rattle.message_view.specs.Message.{Field, Message};
ghost use Rattle.message_view.specs.Spelling.{field_bytes, fields_bytes, header_bytes};
ghost use Rattle.message_view.specs.Valid.{AreFields, Valid};
ghost use Rattle.message_build.specs.ErrorName.{stamp_number_of, stamp_name_of};
ghost use Rattle.message_build.specs.Stamped.{Stamps, sender_field, stamp_listed};
ghost use Rattle.message_build.specs.StampedFields.{HeadsStamped, stamped_fields};
ghost use Rattle.message_build.specs.Growing.{Appends};

use crate::appending::{align, push_string};
use crate::field::MAX_ARRAY_LEN;
use crate::fields::FIXED_LEN;
use crate::header::Header;
use crate::kept_fields::{between, push_kept_of};
use crate::message::{MAX_MESSAGE_LEN, push_fixed};
use crate::strings::set_word;
use message_value::Order;
use message_view::View;
use std::alloc::{AllocError, AllocFailed, Global};
use std::error::Error;
use std::fmt;

/// The code of the field SENDER.
const SENDER_CODE: u8 = 7;

/// Where the length of the fields stands.
const FIELDS_LEN_PLACE: usize = 12;

/// More bytes than the fixed part, the field SENDER without its text, and the zeros after the fields have.
const ROOM: usize = 64;

/// Why a message can't be stamped.
#[derive(Clone, Copy, Debug, PartialEq, Eq)]
pub enum StampError {
    /// The message would be above the limits.
    TooLarge,
    /// Memory ran out.
    NoMemory,
}

impl StampError {
    /// The error's number, from 1 in the order of the variants.
    pub fn number(self) -> u8
        ensures { result ≡ stamp_number_of self }
    {
        match self {
            StampError::TooLarge => 1,
            StampError::NoMemory => 2,
        }
    }

    /// The error's name, which is also what `{}` prints.
    pub fn name(self) -> &'static str
        ensures { result.now ≡ stamp_name_of self }
    {
        match self {
            StampError::TooLarge => "TooLarge",
            StampError::NoMemory => "NoMemory",
        }
    }
}

impl fmt::Display for StampError {
    ghost use Rattle.std.specs.Prelude.{Some};

    ghost output = { λ error. Some (stamp_name_of error) };

    fn fmt<W: fmt::Write>(&self, f: &mut fmt::Formatter<W>) -> fmt::Result {
        f.write_str(self.name())
    }
}

impl Error for StampError {}

impl From<AllocError> for StampError {
    ghost use Rattle.message_build.specs.declared.stamping.StampError.TheVariants.{NoMemory};

    ghost from_gives = { λ _ error. error ≡ NoMemory };

    fn from(_refused: AllocError) -> StampError {
        StampError::NoMemory
    }
}

impl<T: Drop> From<AllocFailed<T>> for StampError {
    ghost use Rattle.message_build.specs.declared.stamping.StampError.TheVariants.{NoMemory};

    ghost from_gives = { λ _ error. error ≡ NoMemory };

    fn from(_refused: AllocFailed<T>) -> StampError {
        StampError::NoMemory
    }
}

/// The array of a message's header fields, or None where the bytes are no message.
fn find_array(order: Order, raw: &[u8]) -> Option<&[u8]>
    ensures short { IfSome result (λ array. length array.now ≤ 67108864) }
    ensures array { (m : Message) → Valid raw.entry.now m → order ≡ m.order → MatchOption result ⊥ (λ array. array.now ≡ header_bytes m) }
{
    let word = between(raw, FIELDS_LEN_PLACE, FIXED_LEN)?;
    let len = order.word([word[0], word[1], word[2], word[3]]) as usize;
    if len > MAX_ARRAY_LEN {
        return None;
    }
    between(raw, FIXED_LEN, FIXED_LEN + len)
}

/// The array of a message's header fields.
fn array_of(order: Order, raw: &[u8]) -> &[u8]
    ensures short { length result.now ≤ 67108864 }
    ensures array { (m : Message) → Valid raw.entry.now m → order ≡ m.order → result.now ≡ header_bytes m }
{
    match find_array(order, raw) {
        Some(array) => array,
        None => &[],
    }
}

/// Appends the field SENDER, with the zeros before it.
fn push_sender(bytes: &mut Vec<u8>, order: Order, sender: &str) -> Result<(), AllocError>
    ensures { Appends result bytes.old.items bytes.new.items (field_bytes order (length bytes.old.items) (sender_field sender.now)) }
{
    align(bytes, 8)?;
    bytes.extend_from_slice(&[SENDER_CODE, 1, b's', 0])?;
    push_string(bytes, order, sender.as_bytes())
}

/// What stands in front of the body of a stamped message, in room for it all. The array holds the fields
/// that the message has.
fn stamped_header(
    mut bytes: Vec<u8>,
    order: Order,
    header: &Header<'_>,
    array: &[u8],
    sender: &str,
    body_len: usize,
) -> Result<Vec<u8>, StampError>
    requires empty { bytes.items ≡ [] }
    requires short { length array.now ≤ 67108864 }
    requires valid { (fields : List Field) × AreFields order 0 fields × (array.now ≡ fields_bytes order 0 fields) }
    ensures bound { IfOk result (λ v. length v.items ≤ 67108904) }
    ensures heads { (fields : List Field) → AreFields order 0 fields → array.now ≡ fields_bytes order 0 fields → HeadsStamped (stamp_listed result) order header.now body_len (stamped_fields order fields sender.now) }
{
    push_fixed(&mut bytes, order, header, 0, body_len)?;
    push_kept_of(&mut bytes, order, array)?;
    push_sender(&mut bytes, order, sender)?;
    let fields_len = bytes.len() - FIXED_LEN;
    if fields_len > MAX_ARRAY_LEN {
        return Err(StampError::TooLarge);
    }
    set_word(&mut bytes, FIELDS_LEN_PLACE, order, fields_len);
    align(&mut bytes, 8)?;
    Ok(bytes)
}

/// The message with its sender: the same order, kind, flags, serial and body, and the same fields in their
/// order, but for SENDER, which is the last one, and for fields that have no meaning, which are dropped (D-Bus
/// Specification, "Header Fields").
///
/// # Errors
///
/// `TooLarge` where it would be above the limits, and `NoMemory`.
pub fn stamp(alloc: Global, view: &View<'_>, sender: &str) -> Result<Vec<u8>, StampError>
    requires { is_bus_name sender.now ≡ true }
    ensures stamps { (m : Message) → Valid view.now m → Stamps m sender.now (stamp_listed result) }
    // The bytes are a message, so that a view of them needs no second look at the body.
    ensures valid { IfOk result (λ bytes. (m : Message) × Valid bytes.items m) }
{
    let order = view.order();
    let array = array_of(order, view.raw());
    let body = view.body();
    let room = Vec::with_capacity(alloc, ROOM + sender.len() + array.len() + body.len())?;
    let header = Header::new(view.kind(), view.flags(), view.serial());
    let mut bytes = stamped_header(room, order, &header, array, sender, body.len())?;
    if body.len() > MAX_MESSAGE_LEN - bytes.len() {
        return Err(StampError::TooLarge);
    }
    bytes.extend_from_slice(body)?;
    Ok(bytes)
}
