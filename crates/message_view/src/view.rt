// A message as a view of its bytes.

ghost use Rattle.std.specs.Prelude.{◌≡◌, ℕ, List, length, Some, Ok};
ghost use Rattle.signature.specs.DataType.{DataTypes, SigText};
ghost use Rattle.message_value.specs.Bytes.{AreBytes};
ghost use Rattle.message_view.specs.Message.{Message, Field};
ghost use Rattle.message_view.specs.Valid.{Valid};
ghost use Rattle.message_view.specs.Fixed.{whole_len};
ghost use Rattle.message_view.specs.Reading.{framed_message, header_fault, arguments_at};
ghost use Rattle.message_view.specs.Slots.{slots_of};
ghost use Rattle.message_view.specs.HeaderAnswers.{HasHeader, ReadsHeader, ReadsFramed, Passes};
ghost use Rattle.message_view.specs.FieldAnswers.{slots_shown, KeepsNone, in_place};
ghost use Rattle.message_view.specs.FixedAnswers.{ReadsFixed};

use crate::extent::{Extent, TextField};
use crate::field::FieldCode;
use crate::fields::Fields;
use crate::fixed::{FIXED_LEN, Fixed};
use crate::kind::Kind;
use message_value::{Args, Cursor, MAX_LEVELS, MsgError, Order, are_zeros, check_members, padding};
use signature::Signature;
use std::marker::Model;

/// What a message has after its fixed part. It is filled where it is wanted, since it is wide to move.
#[derive(Drop)]
pub(crate) struct Sections<'a> {
    pub(crate) fields: Fields<'a>,
    pub(crate) signature: Signature<'a>,
    pub(crate) body: &'a [u8],
}

impl<'a> Sections<'a> {
    ghost use Rattle.message_view.specs.FieldAnswers.{KeepsNone};

    /// Those that nothing was read into.
    #[inline(always)]
    fn new() -> Sections<'a>
        ensures { KeepsNone result.fields }
    {
        Sections {
            fields: Fields::new(),
            signature: Signature::empty(),
            body: &[],
        }
    }
}

/// The fault of what lies between the fields and the body, if there is one.
fn header_fault(kind: Kind, fields: &Fields<'_>, skipped: &[u8]) -> Option<MsgError>
    ensures { (front : List Field) → slots_shown fields.now ≡ slots_of front → result ≡ header_fault kind skipped.now front }
{
    if !fields.has_required(kind) {
        Some(MsgError::FieldMissing)
    } else if !are_zeros(skipped) {
        Some(MsgError::Padding)
    } else {
        None
    }
}

/// Goes over the arguments, which have to be all of the body.
#[tactic(auto, unfolding(crate::specs::Reading::arguments_at))]
fn check_body(
    order: Order,
    signature: &Signature<'_>,
    mut cursor: Cursor<'_>,
) -> Result<(), MsgError>
    ensures { (types : DataTypes) → SigText types signature.now → Passes result (arguments_at order types cursor.entry) }
{
    check_members(&mut cursor, order, signature.types(), MAX_LEVELS)?;
    if cursor.is_empty() {
        Ok(())
    } else {
        Err(MsgError::Trailing)
    }
}

/// Finds the fields of a message whose fixed part was read, and whose length is the one that it says, and its body, which
/// isn't checked yet.
#[inline(always)]
fn split_sections<'a>(
    fixed: &Fixed,
    bytes: &'a [u8],
    found: &mut Sections<'a>,
) -> Result<(), MsgError>
    requires fixed { ReadsFixed (Ok (Some fixed.now)) bytes.now }
    requires whole { length bytes.now ≡ whole_len bytes.now }
    requires none { KeepsNone found.old.fields }
    ensures { ReadsHeader (in_place result found.new) fixed.now.kind bytes.entry.now }
{
    let fields_len = fixed.fields_len as usize;
    let (_, after_fixed) = bytes.split_at(FIXED_LEN);
    let (array, after_fields) = after_fixed.split_at(fields_len);
    let (skipped, body) = after_fields.split_at(padding(8, fields_len));
    found.fields.read(fixed.order, FIXED_LEN, array)?;
    if let Some(fault) = header_fault(fixed.kind, &found.fields, skipped) {
        return Err(fault);
    }
    found.signature = found.fields.signature();
    found.body = body;
    Ok(())
}

/// Finds the fields and the body of a valid message whose fixed part was read. What was checked isn't looked at again.
#[inline(always)]
fn valid_sections<'a>(fixed: &Fixed, bytes: &'a [u8], found: &mut Sections<'a>)
    requires fixed { ReadsFixed (Ok (Some fixed.now)) bytes.now }
    requires whole { length bytes.now ≡ whole_len bytes.now }
    requires none { KeepsNone found.old.fields }
    requires valid { (m : Message) × Valid bytes.now m }
    ensures { HasHeader found.new fixed.now.kind bytes.entry.now }
{
    let fields_len = fixed.fields_len as usize;
    let (_, after_fixed) = bytes.split_at(FIXED_LEN);
    let (array, after_fields) = after_fixed.split_at(fields_len);
    let (_, body) = after_fields.split_at(padding(8, fields_len));
    found.fields.read_valid(fixed.order, FIXED_LEN, array);
    found.signature = found.fields.signature();
    found.body = body;
}

/// Finds the fields and the body of a message whose fixed part was read, and whose length is the one that it says.
fn sections_of_frame<'a>(
    fixed: &Fixed,
    bytes: &'a [u8],
    found: &mut Sections<'a>,
) -> Result<(), MsgError>
    requires fixed { ReadsFixed (Ok (Some fixed.now)) bytes.now }
    requires whole { length bytes.now ≡ whole_len bytes.now }
    requires none { KeepsNone found.old.fields }
    ensures { ReadsFramed (in_place result found.new) fixed.now.kind bytes.entry.now (framed_message bytes.entry.now) }
{
    split_sections(fixed, bytes, found)?;
    let body = found.body;
    let place = bytes.len() - body.len();
    check_body(
        fixed.order,
        &found.signature,
        Cursor::new(place, body, MsgError::Short),
    )?;
    Ok(())
}

/// A slice of bytes has elements below 256.
fn are_bytes(bytes: &[u8])
    ensures { AreBytes bytes.now }
{}

/// A valid message, whose parts lie in the bytes that it was read from.
#[derive(Drop)]
pub struct View<'a> {
    bytes: &'a [u8],
    order: Order,
    kind: Kind,
    flags: u8,
    serial: u32,
    sections: Sections<'a>,
}

impl<'a> Model for View<'a> {
    ghost use Rattle.std.specs.Prelude.{ℕ, List, map};
    ghost use Rattle.message_view.specs.Message.{text_in, number_in};
    ghost use Rattle.message_view.specs.Slots.{extents_in};
    ghost use Rattle.message_view.specs.HeaderAnswers.{IsKept};
    ghost use Rattle.message_view.specs.FieldAnswers.{slots_shown, lying};

    ghost Value = { List ℕ };

    ghost view = { λ v. v.bytes.now };

    ghost invariant = { λ v. IsKept v.bytes.now v.sections.body.now v.sections.signature (record { order = v.order; kind = v.kind; flags = v.flags; serial = v.serial; texts = map text_in (slots_shown v.sections.fields); numbers = map number_in (slots_shown v.sections.fields); extents = extents_in (lying v.sections.fields) }) };
}

impl<'a> View<'a> {
    ghost use Rattle.std.specs.Prelude.{◌≡◌, IfOk, IfErr, IsOk, Err, None, option_map, slice_index_or};
    ghost use Rattle.message_view.specs.Message.{Message, text_in, path_of, interface_of, member_of, error_name_of, destination_of, sender_of, reply_serial_of};
    ghost use Rattle.message_view.specs.Valid.{Valid};
    ghost use Rattle.message_view.specs.Reading.{body_at, message_at};
    ghost use Rattle.message_view.specs.Slots.{slot_of, slots_of};
    ghost use Rattle.message_view.specs.Spelling.{body_bytes, arguments_of};
    ghost use Rattle.message_view.specs.Places.{extent_of};
    ghost use Rattle.message_view.specs.HeaderAnswers.{IsKept, ReadsView, kept_by};

    /// The view of bytes whose parts these are.
    #[inline(always)]
    fn of_sections(bytes: &'a [u8], fixed: &Fixed, sections: Sections<'a>) -> View<'a>
        requires { IsKept bytes.now sections.body.now sections.signature (kept_by fixed.now sections) }
        ensures { result ≡ bytes.entry.now }
    {
        View {
            bytes,
            order: fixed.order,
            kind: fixed.kind,
            flags: fixed.flags,
            serial: fixed.serial,
            sections,
        }
    }

    /// The message or the first fault, as reading gives it.
    fn read_exactly(bytes: &'a [u8]) -> Result<View<'a>, MsgError>
        ensures { ReadsView result bytes.entry.now (message_at bytes.entry.now) }
    {
        let Some(fixed) = Fixed::read(bytes)? else {
            return Err(MsgError::Short);
        };
        let len = fixed.whole_len() as usize;
        if bytes.len() < len {
            return Err(MsgError::Short);
        }
        if bytes.len() > len {
            return Err(MsgError::Trailing);
        }
        let mut sections = Sections::new();
        sections_of_frame(&fixed, bytes, &mut sections)?;
        Ok(View::of_sections(bytes, &fixed, sections))
    }

    /// Reads a message, all of the bytes (D-Bus Specification, "Message Format"). What the view lends
    /// lies in these bytes; nothing is copied.
    ///
    /// # Errors
    ///
    /// The first fault from the left, where the bytes are no valid message.
    pub fn read(bytes: &'a [u8]) -> Result<View<'a>, MsgError>
        // The view is of these bytes, and they spell a message.
        ensures found { IfOk result (λ v. (v ≡ bytes.entry.now) × ((m : Message) × Valid bytes.entry.now m)) }
        // Bytes that spell a message are read.
        ensures only { (m : Message) → Valid bytes.entry.now m → IsOk result }
        // The fault is the first one from the left.
        ensures fault { IfErr result (λ fault. message_at bytes.entry.now ≡ Err fault) }
    {
        View::read_exactly(bytes)
    }

    /// The view of bytes that are known to be one message, as those that were built or stamped here. It finds the header's
    /// fields by their lengths, and looks neither at their texts again nor at the body.
    pub fn of_message(bytes: &'a [u8]) -> View<'a>
        requires { (m : Message) × Valid bytes.now m }
        ensures { result ≡ bytes.entry.now }
    {
        let Ok(Some(fixed)) = Fixed::read(bytes) else {
            unreachable!()
        };
        let mut sections = Sections::new();
        valid_sections(&fixed, bytes, &mut sections);
        View::of_sections(bytes, &fixed, sections)
    }

    /// The bytes of the message.
    pub fn raw(&self) -> &'a [u8]
        ensures value { result.now ≡ self.now }
        // A view is always of a message.
        ensures spells { (m : Message) × Valid self.now m }
    {
        are_bytes(self.bytes);
        self.bytes
    }

    /// The order of the bytes of the message's numbers.
    pub fn order(&self) -> Order
        ensures { (m : Message) → Valid self.now m → result ≡ m.order }
    {
        self.order
    }

    /// The kind of the message.
    pub fn kind(&self) -> Kind
        ensures { (m : Message) → Valid self.now m → result ≡ m.kind }
    {
        self.kind
    }

    /// The flags, as one byte: 1 for no reply expected, 2 for no auto start, 4 for interactive
    /// authorization allowed; the others have no meaning yet.
    pub fn flags(&self) -> u8
        ensures { (m : Message) → Valid self.now m → result ≡ m.flags }
    {
        self.flags
    }

    /// The serial that the sender gave the message; never 0.
    pub fn serial(&self) -> u32
        ensures { (m : Message) → Valid self.now m → result ≡ m.serial }
    {
        self.serial
    }

    /// The text of a field.
    fn text(&self, code: FieldCode) -> Option<&'a str>
        ensures { (m : Message) → Valid self.now m → option_map (λ text. text.now) result ≡ text_in (slice_index_or (slots_of m.fields) (slot_of code) None) }
    {
        self.sections.fields.text(code)
    }

    /// The object path of the field PATH.
    pub fn path(&self) -> Option<&'a str>
        ensures { (m : Message) → Valid self.now m → option_map (λ text. text.now) result ≡ path_of m }
    {
        self.text(FieldCode::Path)
    }

    /// The interface name of the field INTERFACE.
    pub fn interface(&self) -> Option<&'a str>
        ensures { (m : Message) → Valid self.now m → option_map (λ text. text.now) result ≡ interface_of m }
    {
        self.text(FieldCode::Interface)
    }

    /// The member name of the field MEMBER.
    pub fn member(&self) -> Option<&'a str>
        ensures { (m : Message) → Valid self.now m → option_map (λ text. text.now) result ≡ member_of m }
    {
        self.text(FieldCode::Member)
    }

    /// The error name of the field ERROR_NAME.
    pub fn error_name(&self) -> Option<&'a str>
        ensures { (m : Message) → Valid self.now m → option_map (λ text. text.now) result ≡ error_name_of m }
    {
        self.text(FieldCode::ErrorName)
    }

    /// The bus name of the field DESTINATION.
    pub fn destination(&self) -> Option<&'a str>
        ensures { (m : Message) → Valid self.now m → option_map (λ text. text.now) result ≡ destination_of m }
    {
        self.text(FieldCode::Destination)
    }

    /// The bus name of the field SENDER.
    pub fn sender(&self) -> Option<&'a str>
        ensures { (m : Message) → Valid self.now m → option_map (λ text. text.now) result ≡ sender_of m }
    {
        self.text(FieldCode::Sender)
    }

    /// The serial of the call that the message answers, of the field REPLY_SERIAL; never 0.
    pub fn reply_serial(&self) -> Option<u32>
        ensures { (m : Message) → Valid self.now m → result ≡ reply_serial_of m }
    {
        self.sections.fields.number(FieldCode::ReplySerial)
    }

    /// Where the text of a field lies, if the field is there.
    pub fn extent(&self, field: TextField) -> Option<Extent>
        ensures { (m : Message) → Valid self.now m → result ≡ extent_of field m }
    {
        self.sections.fields.extent(field.code())
    }

    /// The bytes after the header and its padding: the arguments, with the padding between them.
    pub fn body(&self) -> &'a [u8]
        ensures { (m : Message) → Valid self.now m → result.now ≡ body_bytes m }
    {
        self.sections.body
    }

    /// The signature of the body, which is empty where the message has no field SIGNATURE.
    pub fn signature(&self) -> &'a [u8]
        ensures { (m : Message) → Valid self.now m → SigText m.types result.now }
    {
        self.sections.signature.as_bytes()
    }

    /// A cursor before the first argument.
    fn at_body(&self) -> Cursor<'a>
        ensures { result ≡ body_at self.now }
    {
        let place = self.bytes.len() - self.sections.body.len();
        Cursor::new(place, self.sections.body, MsgError::Short)
    }

    /// The arguments, one after the other.
    pub fn args(&self) -> Args<'a>
        ensures { (m : Message) → Valid self.now m → result ≡ arguments_of m }
    {
        Args::new(self.order, self.sections.signature.again(), self.at_body())
    }
}

/// Bytes spell at most one message.
pub fn one_message()
    ensures { (bytes : List ℕ) (m n : Message) → Valid bytes m → Valid bytes n → m ≡ n }
{}
