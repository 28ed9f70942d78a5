// The fields of a header that is known to be valid, without a second look at what was checked.

ghost use Rattle.std.specs.Prelude.{◌≡◌, ℕ, ◌+◌, ◌<◌, ◌≤◌, List, [], length, Some, None, Ok};
ghost use Rattle.signature.specs.DataType.{basic};
ghost use Rattle.message_value.specs.Reading.{At, inside, aligned_at, byte_at, word_at, signature_at, text_value_at, value_at, IsRead};
ghost use Rattle.message_value.specs.Steps.{IsGone, Reaches};
ghost use Rattle.message_value.specs.TextTypes.{text_code};
ghost use Rattle.message_view.specs.Header.{type_code};
ghost use Rattle.message_view.specs.Message.{Field};
ghost use Rattle.message_view.specs.Reading.{content_at, code_at, field_at, fields_from};
ghost use Rattle.message_view.specs.Slots.{slots_of, AreExtents};
ghost use Rattle.message_view.specs.Valid.{levels_in_field};
ghost use Rattle.message_view.specs.FieldAnswers.{value_of, type_code_of, slots_shown, lying, LiesBefore, IsFront, KeepsField, KeepsNone};

use crate::content::Content;
use crate::extent::Extent;
use crate::field::{FieldCode, FieldType};
use crate::fields::{Fields, skip_content};
use message_value::{Cursor, MsgError, Order, TextType, padding};

/// The length of the signature of a basic type: its length, its code and a zero byte.
const BASIC_SIGNATURE_LEN: usize = 3;

/// The zeros up to a multiple.
#[inline(always)]
fn skip_padding(cursor: &mut Cursor<'_>, alignment: usize)
    requires above { 0 < alignment }
    requires read { IsGone (aligned_at alignment cursor.old) }
    ensures { aligned_at alignment cursor.old ≡ Ok cursor.new }
{
    let len = padding(alignment, cursor.place());
    let Ok(_zeros) = cursor.item(len) else {
        unreachable!()
    };
}

/// One byte.
#[inline(always)]
fn valid_byte(cursor: &mut Cursor<'_>) -> u8
    requires { IsRead (byte_at cursor.old) }
    ensures { byte_at cursor.old ≡ Ok (result, cursor.new) }
{
    match cursor.byte() {
        Ok(byte) => byte,
        Err(_) => unreachable!(),
    }
}

/// A number of four bytes.
#[inline(always)]
fn valid_word(cursor: &mut Cursor<'_>, order: Order) -> u32
    requires { IsRead (word_at order cursor.old) }
    ensures { word_at order cursor.old ≡ Ok (result, cursor.new) }
{
    match cursor.word(order) {
        Ok(word) => word,
        Err(_) => unreachable!(),
    }
}

/// The signature of a basic type.
#[inline(always)]
fn skip_basic_signature(cursor: &mut Cursor<'_>)
    requires { (code : ℕ) × (start : At) × (signature_at cursor.old ≡ Ok (basic code, start)) }
    ensures { Reaches cursor.new (signature_at cursor.old) }
{
    let Ok(_signature) = cursor.item(BASIC_SIGNATURE_LEN) else {
        unreachable!()
    };
}

/// A text, and where it lies.
#[inline(always)]
fn valid_text<'a>(text_type: TextType, cursor: &mut Cursor<'a>, order: Order) -> Content<'a>
    requires { IsRead (text_value_at order (text_code text_type) cursor.old) }
    ensures read { text_value_at order (text_code text_type) cursor.old ≡ Ok (value_of result, cursor.new) }
    ensures lies { LiesBefore cursor.new.place result }
{
    let text = text_type.skip_value(cursor, order);
    Content::Text(text, Extent::before(text, cursor.place_word()))
}

impl FieldType {
    /// A value of this type, after its padding.
    #[inline(always)]
    fn valid_value<'a>(self, cursor: &mut Cursor<'a>, order: Order) -> Content<'a>
        requires { IsRead (value_at levels_in_field order (basic (type_code_of self)) cursor.old) }
        ensures read { value_at levels_in_field order (basic (type_code_of self)) cursor.old ≡ Ok (value_of result, cursor.new) }
        ensures lies { LiesBefore cursor.new.place result }
    {
        skip_padding(cursor, self.alignment());
        match self {
            FieldType::Text(text_type) => valid_text(text_type, cursor, order),
            FieldType::Number => Content::Number(valid_word(cursor, order)),
        }
    }
}

impl FieldCode {
    /// The content of this field, whose variant is of the field's type.
    #[inline(always)]
    fn valid_content<'a>(self, cursor: &mut Cursor<'a>, order: Order) -> Content<'a>
        requires { IsRead (content_at order (Some self) cursor.old) }
        ensures read { content_at order (Some self) cursor.old ≡ Ok ((basic (type_code self), value_of result), cursor.new) }
        ensures lies { LiesBefore cursor.new.place result }
    {
        skip_basic_signature(cursor);
        self.field_type().valid_value(cursor, order)
    }
}

/// Goes over the variant of a field of which nothing is known.
#[inline(never)]
fn skip_valid_content(cursor: &mut Cursor<'_>, order: Order)
    requires { IsRead (content_at order None cursor.old) }
    ensures { (y : _) × (content_at order None cursor.old ≡ Ok (y, cursor.new)) }
{
    match skip_content(cursor, order) {
        Ok(()) => (),
        Err(_) => unreachable!(),
    }
}

/// The code of the next field, after its padding.
#[inline(always)]
fn valid_code(cursor: &mut Cursor<'_>) -> u8
    requires { (front : List Field) × IsRead (code_at front cursor.old) }
    ensures { (front : List Field) → IsRead (code_at front cursor.old) → code_at front cursor.old ≡ Ok (result, cursor.new) }
{
    skip_padding(cursor, 8);
    valid_byte(cursor)
}

impl<'a> Fields<'a> {
    /// Adds the next field, if it is known.
    #[inline(always)]
    fn add_valid(&mut self, cursor: &mut Cursor<'a>, order: Order)
        requires { (front : List Field) × IsRead (field_at order front cursor.old) }
        ensures { (start : ℕ) (front : List Field) → IsFront order start front self.old cursor.old → IsRead (field_at order front cursor.old) → KeepsField order start front self.new cursor.new (field_at order front cursor.old) }
    {
        let byte = valid_code(cursor);
        let Some(code) = FieldCode::of(byte) else {
            skip_valid_content(cursor, order);
            return;
        };
        let content = code.valid_content(cursor, order);
        self.put(code, content);
    }

    /// Reads the fields of an array that begins at a place of the message, and that is known to be valid, where none is kept yet.
    #[inline(always)]
    pub(crate) fn read_valid(&mut self, order: Order, place: usize, bytes: &'a [u8])
        requires short { place + length bytes.now ≤ 134217728 }
        requires none { KeepsNone self.old }
        requires valid { (front : List Field) × (fields_from (length bytes.now) order [] (inside place bytes.now) ≡ Ok front) }
        ensures read { (front : List Field) → fields_from (length bytes.entry.now) order [] (inside place bytes.entry.now) ≡ Ok front → slots_shown self.new ≡ slots_of front }
        ensures lie { (front : List Field) → fields_from (length bytes.entry.now) order [] (inside place bytes.entry.now) ≡ Ok front → AreExtents order place front (lying self.new) }
    {
        let mut cursor = Cursor::new(place, bytes, MsgError::ArrayLength);
        while !cursor.is_empty() {
            self.add_valid(&mut cursor, order);
        }
    }
}

/// Goes over the next field of a header's array, and gives its code. The field is known to be valid, so that only its
/// code and its length are looked at.
pub fn skip_field(cursor: &mut Cursor<'_>, order: Order) -> u8
    requires { IsRead (field_at order [] cursor.old) }
    ensures { (field : Field) (tail : At) → field_at order [] cursor.old ≡ Ok (field, tail) → (result ≡ field.code) × (cursor.new ≡ tail) }
{
    let byte = valid_code(cursor);
    let Some(code) = FieldCode::of(byte) else {
        skip_valid_content(cursor, order);
        return byte;
    };
    let _content = code.valid_content(cursor, order);
    byte
}
