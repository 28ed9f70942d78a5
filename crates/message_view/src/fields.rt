// The known fields of a header.

ghost use Rattle.std.specs.Prelude.{◌≡◌, ℕ, ◌+◌, ◌<◌, ◌≤◌, List, [], length, Some, None, option_map, is_some, slice_index_or, slice_set, IfOk, OnOk, Ok};
ghost use Rattle.signature.specs.DataType.{DataType, TypeText, SigText, basic};
ghost use Rattle.signature.specs.Alignment.{alignment_of};
ghost use Rattle.message_value.specs.Reading.{At, inside, text_value_at, value_at};
ghost use Rattle.message_value.specs.Steps.{Gives};
ghost use Rattle.message_value.specs.Answers.{Reads, Checks};
ghost use Rattle.message_value.specs.TextTypes.{text_code};
ghost use Rattle.message_view.specs.Message.{Field, text_in, number_in, signature_in};
ghost use Rattle.message_view.specs.Header.{type_code, has_required};
ghost use Rattle.message_view.specs.Slots.{code_byte, slot_of, slots_of, no_slots, no_extents, AreExtents};
ghost use Rattle.message_view.specs.Valid.{levels_in_field};
ghost use Rattle.message_view.specs.Reading.{is_basic_of, content_at, code_fault, code_at, field_at, fields_from, types_in};
ghost use Rattle.message_view.specs.FieldAnswers.{value_of, type_code_of, slots_shown, lies_in, lying, LiesBefore, IsFront, KeepsNext, KeepsNone, in_place};

use crate::content::Content;
use crate::extent::Extent;
use crate::field::{FieldCode, FieldType};
use crate::kind::Kind;
use message_value::{Cursor, MsgError, Order, TextType, check_value};
use signature::{OneType, Signature};

/// How many levels of values are left inside the variant of a field.
const LEVELS_IN_FIELD: usize = 63;

/// What each known field of a header holds, if it is there.
#[derive(Drop)]
pub(crate) struct Fields<'a> {
    pub(crate) slots: [Option<Content<'a>>; 9],
}

/// A text, and where it lies.
fn read_text<'a>(
    text_type: TextType,
    cursor: &mut Cursor<'a>,
    order: Order,
) -> Result<Content<'a>, MsgError>
    ensures read { Reads value_of result cursor.new (text_value_at order (text_code text_type) cursor.old) }
    ensures lies { IfOk result (LiesBefore cursor.new.place) }
{
    let text = text_type.read_value(cursor, order)?;
    Ok(Content::Text(text, Extent::before(text, cursor.place_word())))
}

impl FieldType {
    /// The basic code of the type.
    fn code(self) -> u8
        ensures { result ≡ type_code_of self }
    {
        match self {
            FieldType::Text(text) => text.code(),
            FieldType::Number => b'u',
        }
    }

    /// Whether a type is this one.
    fn is(self, value_type: &OneType<'_>) -> bool
        ensures { (type : DataType) → TypeText type value_type.now → result ≡ is_basic_of (type_code_of self) type }
    {
        value_type.as_bytes() == [self.code()].as_slice()
    }

    /// What the place of a value of it is a multiple of, in bytes.
    pub(crate) fn alignment(self) -> usize
        ensures { result ≡ alignment_of (basic (type_code_of self)) }
    {
        match self {
            FieldType::Text(TextType::Signature) => 1,
            FieldType::Text(TextType::String | TextType::ObjectPath) | FieldType::Number => 4,
        }
    }

    /// A value of this type, after its padding.
    #[tactic(auto, unfolding(message_value::specs::Reading::value_by, message_value::specs::Reading::number_value_at, message_value::specs::Reading::word_at))]
    fn read_value<'a>(self, cursor: &mut Cursor<'a>, order: Order) -> Result<Content<'a>, MsgError>
        ensures read { Reads value_of result cursor.new (value_at levels_in_field order (basic (type_code_of self)) cursor.old) }
        ensures lies { IfOk result (LiesBefore cursor.new.place) }
    {
        cursor.align(self.alignment())?;
        match self {
            FieldType::Text(text_type) => read_text(text_type, cursor, order),
            FieldType::Number => {
                let number = cursor.word(order)?;
                Ok(Content::Number(number))
            }
        }
    }
}

impl FieldCode {
    /// The value of this field, whose variant has to be of the field's type, and its content.
    #[tactic(auto, unfolding(crate::specs::Reading::content_at))]
    fn read_content<'a>(
        self,
        cursor: &mut Cursor<'a>,
        order: Order,
    ) -> Result<Content<'a>, MsgError>
        ensures read { Reads (λ content. (basic (type_code self), value_of content)) result cursor.new (content_at order (Some self) cursor.old) }
        ensures lies { IfOk result (LiesBefore cursor.new.place) }
    {
        let value_type = cursor.signature()?;
        let field_type = self.field_type();
        if !field_type.is(&value_type) {
            return Err(MsgError::FieldType);
        }
        let content = field_type.read_value(cursor, order)?;
        match self.content_fault(content) {
            Some(fault) => Err(fault),
            None => Ok(content),
        }
    }
}

/// Goes over the variant of a field of which nothing is known.
#[tactic(auto, unfolding(crate::specs::Reading::content_at))]
pub(crate) fn skip_content(cursor: &mut Cursor<'_>, order: Order) -> Result<(), MsgError>
    ensures { Checks result cursor.new (content_at order None cursor.old) }
{
    let value_type = cursor.signature()?;
    check_value(cursor, order, &value_type, LEVELS_IN_FIELD)
}

impl<'a> Fields<'a> {
    pub(crate) fn new() -> Self
        ensures shows { slots_shown result ≡ no_slots }
        ensures lie { lying result ≡ no_extents }
    {
        Fields { slots: [None; 9] }
    }

    /// What a field holds.
    fn get(&self, code: FieldCode) -> Option<Content<'a>>
        ensures value { option_map value_of result ≡ slice_index_or (slots_shown self.now) (slot_of code) None }
        ensures extent { lies_in result ≡ slice_index_or (lying self.now) (slot_of code) None }
    {
        self.slots[code.slot()]
    }

    pub(crate) fn put(&mut self, code: FieldCode, content: Content<'a>)
        ensures shows { slots_shown self.new ≡ slice_set (slots_shown self.old) (slot_of code) (Some (value_of content.entry)) }
        ensures lie { lying self.new ≡ slice_set (lying self.old) (slot_of code) (lies_in (Some content.entry)) }
    {
        self.slots[code.slot()] = Some(content);
    }

    /// Whether the field is there.
    pub(crate) fn has(&self, code: FieldCode) -> bool
        ensures { result ≡ is_some (slice_index_or (slots_shown self.now) (slot_of code) None) }
    {
        match self.get(code) {
            Some(_) => true,
            None => false,
        }
    }

    /// The text that a field holds.
    pub(crate) fn text(&self, code: FieldCode) -> Option<&'a str>
        ensures { option_map (λ text. text.now) result ≡ text_in (slice_index_or (slots_shown self.now) (slot_of code) None) }
    {
        match self.get(code) {
            Some(Content::Text(text, _)) => Some(text),
            Some(Content::Number(_)) | None => None,
        }
    }

    /// The number that a field holds.
    pub(crate) fn number(&self, code: FieldCode) -> Option<u32>
        ensures { result ≡ number_in (slice_index_or (slots_shown self.now) (slot_of code) None) }
    {
        match self.get(code) {
            Some(Content::Number(number)) => Some(number),
            Some(Content::Text(_, _)) | None => None,
        }
    }

    /// Where the text of a field lies.
    pub(crate) fn extent(&self, code: FieldCode) -> Option<Extent>
        ensures { result ≡ slice_index_or (lying self.now) (slot_of code) None }
    {
        match self.get(code) {
            Some(Content::Text(_, extent)) => Some(extent),
            Some(Content::Number(_)) | None => None,
        }
    }

    /// Whether all fields are there that a message of this kind needs.
    pub(crate) fn has_required(&self, kind: Kind) -> bool
        ensures { (front : List Field) → slots_shown self.now ≡ slots_of front → result ≡ has_required kind front }
    {
        match kind {
            Kind::MethodCall => self.has(FieldCode::Path) && self.has(FieldCode::Member),
            Kind::MethodReturn => self.has(FieldCode::ReplySerial),
            Kind::Error => self.has(FieldCode::ErrorName) && self.has(FieldCode::ReplySerial),
            Kind::Signal => {
                self.has(FieldCode::Path)
                    && self.has(FieldCode::Interface)
                    && self.has(FieldCode::Member)
            }
            Kind::Other(_) => true,
        }
    }

    /// The fault of a field's code, if it has one: the code is 0, or a known field comes a second time.
    fn code_fault(&self, byte: u8) -> Option<MsgError>
        ensures { (front : List Field) → slots_shown self.now ≡ slots_of front → result ≡ code_fault front byte }
    {
        if byte == 0 {
            return Some(MsgError::FieldCode);
        }
        match FieldCode::of(byte) {
            Some(code) if self.has(code) => Some(MsgError::FieldTwice),
            _ => None,
        }
    }

    /// The code of the next field, after its padding.
    #[tactic(auto, unfolding(crate::specs::Reading::code_at))]
    fn next_code(&self, cursor: &mut Cursor<'a>) -> Result<u8, MsgError>
        ensures { (front : List Field) → slots_shown self.now ≡ slots_of front → Reads (λ code. code) result cursor.new (code_at front cursor.old) }
    {
        cursor.align(8)?;
        let code = cursor.byte()?;
        match self.code_fault(code) {
            Some(fault) => Err(fault),
            None => Ok(code),
        }
    }

    /// Reads the next field, and keeps it if it is known.
    fn read_next(&mut self, cursor: &mut Cursor<'a>, order: Order) -> Result<(), MsgError>
        ensures { (start : ℕ) (front : List Field) → IsFront order start front self.old cursor.old → KeepsNext result order start front self.new cursor.new (field_at order front cursor.old) }
    {
        let byte = self.next_code(cursor)?;
        let Some(code) = FieldCode::of(byte) else {
            return skip_content(cursor, order);
        };
        let content = code.read_content(cursor, order)?;
        self.put(code, content);
        Ok(())
    }

    /// Reads the fields of an array that begins at a place of the message, where none is kept yet. They are kept where they are
    /// wanted, since they are wide to move.
    pub(crate) fn read(
        &mut self,
        order: Order,
        place: usize,
        bytes: &'a [u8],
    ) -> Result<(), MsgError>
        requires room { place + length bytes.now ≤ 134217728 }
        requires none { KeepsNone self.old }
        ensures read { Gives slots_shown slots_of (in_place result self.new) (fields_from (length bytes.entry.now) order [] (inside place bytes.entry.now)) }
        ensures lie { (front : List Field) → fields_from (length bytes.entry.now) order [] (inside place bytes.entry.now) ≡ Ok front → OnOk result (AreExtents order place front (lying self.new)) }
    {
        let mut cursor = Cursor::new(place, bytes, MsgError::ArrayLength);
        while !cursor.is_empty() {
            self.read_next(&mut cursor, order)?;
        }
        Ok(())
    }

    /// The text of the body's signature; absent means empty.
    fn signature_text(&self) -> &'a str
        ensures { (front : List Field) → slots_shown self.now ≡ slots_of front → result.now ≡ signature_in front }
    {
        match self.text(FieldCode::Signature) {
            Some(text) => text,
            None => "",
        }
    }

    /// The signature of the body, which was found to be one when its field was read.
    pub(crate) fn signature(&self) -> Signature<'a>
        requires { (front : List Field) × (slots_shown self.now ≡ slots_of front) × SigText (types_in front) (signature_in front) }
        ensures { (front : List Field) → slots_shown self.now ≡ slots_of front → SigText (types_in front) result }
    {
        Signature::of_checked_text(self.signature_text().as_bytes())
    }
}
