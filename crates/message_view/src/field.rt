// Header fields: their codes, types and contents.

ghost use Rattle.std.specs.Prelude.{◌≡◌};
ghost use Rattle.message_view.specs.Header.{code_of, is_named_well, is_reserved, is_number_allowed};
ghost use Rattle.message_view.specs.Reading.{number_fault, content_fault};
ghost use Rattle.message_view.specs.Slots.{slot_of};
ghost use Rattle.message_view.specs.FieldAnswers.{type_of, value_of};

use crate::content::Content;
use message_value::{MsgError, TextType};
use signature::{check_bus_name, check_interface, check_member};

const LOCAL_PATH: &str = "/org/freedesktop/DBus/Local";

const LOCAL_INTERFACE: &str = "org.freedesktop.DBus.Local";

/// The header fields that have a meaning (D-Bus Specification, "Header Fields").
#[derive(Clone, Copy, Debug, PartialEq, Eq)]
pub(crate) enum FieldCode {
    Path,
    Interface,
    Member,
    ErrorName,
    ReplySerial,
    Destination,
    Sender,
    Signature,
    UnixFds,
}

/// The type of a field's value.
#[derive(Clone, Copy, Debug)]
pub(crate) enum FieldType {
    Text(TextType),
    Number,
}

impl FieldCode {
    /// The place of the field's value among those of the known fields.
    pub(crate) fn slot(self) -> usize
        ensures { result ≡ slot_of self }
    {
        match self {
            FieldCode::Path => 0,
            FieldCode::Interface => 1,
            FieldCode::Member => 2,
            FieldCode::ErrorName => 3,
            FieldCode::ReplySerial => 4,
            FieldCode::Destination => 5,
            FieldCode::Sender => 6,
            FieldCode::Signature => 7,
            FieldCode::UnixFds => 8,
        }
    }

    /// The field of a code; the other codes have no meaning yet.
    pub(crate) fn of(byte: u8) -> Option<Self>
        ensures { result ≡ code_of byte }
    {
        match byte {
            1 => Some(FieldCode::Path),
            2 => Some(FieldCode::Interface),
            3 => Some(FieldCode::Member),
            4 => Some(FieldCode::ErrorName),
            5 => Some(FieldCode::ReplySerial),
            6 => Some(FieldCode::Destination),
            7 => Some(FieldCode::Sender),
            8 => Some(FieldCode::Signature),
            9 => Some(FieldCode::UnixFds),
            _ => None,
        }
    }

    pub(crate) fn field_type(self) -> FieldType
        ensures { result ≡ type_of self }
    {
        match self {
            FieldCode::Path => FieldType::Text(TextType::ObjectPath),
            FieldCode::Signature => FieldType::Text(TextType::Signature),
            FieldCode::ReplySerial | FieldCode::UnixFds => FieldType::Number,
            FieldCode::Interface
            | FieldCode::Member
            | FieldCode::ErrorName
            | FieldCode::Destination
            | FieldCode::Sender => FieldType::Text(TextType::String),
        }
    }

    /// Whether the field's text has the form of the name that the field holds.
    fn is_named_well(self, text: &str) -> bool
        ensures { result ≡ is_named_well self text.now }
    {
        match self {
            FieldCode::Interface | FieldCode::ErrorName => check_interface(text),
            FieldCode::Member => check_member(text),
            FieldCode::Destination | FieldCode::Sender => check_bus_name(text),
            FieldCode::Path | FieldCode::ReplySerial | FieldCode::Signature | FieldCode::UnixFds =>
                true,
        }
    }

    /// Whether the field's text is a name that no message on a bus has.
    fn is_reserved(self, text: &str) -> bool
        ensures { result ≡ is_reserved self text.now }
    {
        match self {
            FieldCode::Path => text == LOCAL_PATH,
            FieldCode::Interface => text == LOCAL_INTERFACE,
            _ => false,
        }
    }

    /// Whether the field may hold this number.
    fn is_number_allowed(self, number: u32) -> bool
        ensures { result ≡ is_number_allowed self number }
    {
        match self {
            FieldCode::ReplySerial => number != 0,
            FieldCode::UnixFds => number == 0,
            _ => true,
        }
    }

    /// The fault of a number that the field may not hold.
    fn number_fault(self) -> MsgError
        ensures { result ≡ number_fault self }
    {
        match self {
            FieldCode::ReplySerial => MsgError::Serial,
            _ => MsgError::UnixFds,
        }
    }

    /// The fault of a content that the field may not hold.
    pub(crate) fn content_fault(self, content: Content<'_>) -> Option<MsgError>
        ensures { result ≡ content_fault self (value_of content.entry) }
    {
        match content {
            Content::Number(number) if self.is_number_allowed(number) => None,
            Content::Number(_) => Some(self.number_fault()),
            Content::Text(text, _) if !self.is_named_well(text) => Some(MsgError::BadName),
            Content::Text(text, _) if self.is_reserved(text) => Some(MsgError::Reserved),
            Content::Text(_, _) => None,
        }
    }
}
