// Where the texts of a message lie.

ghost use Rattle.std.specs.Prelude.{◌≡◌, ◌<◌, length, Some};
ghost use Rattle.message_value.specs.Value.{text};
ghost use Rattle.message_view.specs.Slots.{named_code};
ghost use Rattle.message_view.specs.FieldAnswers.{extent_before};

use crate::field::FieldCode;

/// The header fields that are names: texts with a length of four bytes (D-Bus Specification, "Header Fields").
#[derive(Clone, Copy, Debug, PartialEq, Eq)]
pub enum TextField {
    Path,
    Interface,
    Member,
    ErrorName,
    Destination,
    Sender,
}

impl TextField {
    /// The header field of the text.
    pub(crate) fn code(self) -> FieldCode
        ensures { result ≡ named_code self }
    {
        match self {
            TextField::Path => FieldCode::Path,
            TextField::Interface => FieldCode::Interface,
            TextField::Member => FieldCode::Member,
            TextField::ErrorName => FieldCode::ErrorName,
            TextField::Destination => FieldCode::Destination,
            TextField::Sender => FieldCode::Sender,
        }
    }
}

/// Where a text lies in a message: its first byte, counted from the message's start, and how many bytes it has,
/// without its zero byte.
#[derive(Clone, Copy, Debug, PartialEq, Eq)]
pub struct Extent {
    pub place: u32,
    pub len: u32,
}

impl Extent {
    /// Where a text lies whose zero byte is the last one before a place.
    pub(crate) fn before(found: &str, end: u32) -> Self
        requires { length found.now < end }
        ensures { Some result ≡ extent_before end (text found.now) }
    {
        let len = found.len() as u32;
        Extent {
            place: end - 1 - len,
            len,
        }
    }
}
