// Why bytes are no message.

ghost use Rattle.std.specs.Prelude.{◌≡◌};
ghost use Rattle.message_value.specs.Errors.{number_of, name_of};

use std::error::Error;
use std::fmt;

/// The first fault of bytes that are no valid message.
#[derive(Clone, Copy, Debug, PartialEq, Eq)]
pub enum MsgError {
    /// The first byte is neither `l` nor `B`.
    Order,
    /// The kind is 0.
    Kind,
    /// The version of the protocol isn't 1.
    Version,
    /// The serial, or the one that a reply answers, is 0.
    Serial,
    /// The message would be above 2^27 bytes.
    TooLarge,
    /// A header field has the code 0, which no field has (D-Bus Specification, "Header Fields": INVALID).
    FieldCode,
    /// A known header field is of another type.
    FieldType,
    /// A known header field comes a second time.
    FieldTwice,
    /// A field that messages of this kind need isn't there.
    FieldMissing,
    /// A path or a name of the wrong form.
    BadName,
    /// A byte between two values isn't 0.
    Padding,
    /// A boolean above 1.
    BadBool,
    /// A text that isn't UTF-8, has a zero, or isn't ended by one.
    BadText,
    /// A signature that is none, or that isn't allowed where it stands.
    BadSignature,
    /// An array above 2^26 bytes, or an item that reaches beyond its array.
    ArrayLength,
    /// Values nested too deep.
    Depth,
    /// The bytes end before the message does.
    Short,
    /// Bytes after the message, or after the last value of its body.
    Trailing,
    /// The message announces file descriptors.
    UnixFds,
    /// A path or an interface that no message on a bus has.
    Reserved,
}

impl MsgError {
    /// The fault's number, from 1 in the order of the variants.
    pub fn number(self) -> u8
        ensures { result ≡ number_of self }
    {
        match self {
            MsgError::Order => 1,
            MsgError::Kind => 2,
            MsgError::Version => 3,
            MsgError::Serial => 4,
            MsgError::TooLarge => 5,
            MsgError::FieldCode => 6,
            MsgError::FieldType => 7,
            MsgError::FieldTwice => 8,
            MsgError::FieldMissing => 9,
            MsgError::BadName => 10,
            MsgError::Padding => 11,
            MsgError::BadBool => 12,
            MsgError::BadText => 13,
            MsgError::BadSignature => 14,
            MsgError::ArrayLength => 15,
            MsgError::Depth => 16,
            MsgError::Short => 17,
            MsgError::Trailing => 18,
            MsgError::UnixFds => 19,
            MsgError::Reserved => 20,
        }
    }

    /// The fault's name, which is also what `{}` prints.
    pub fn name(self) -> &'static str
        ensures { result.now ≡ name_of self }
    {
        match self {
            MsgError::Order => "Order",
            MsgError::Kind => "Kind",
            MsgError::Version => "Version",
            MsgError::Serial => "Serial",
            MsgError::TooLarge => "TooLarge",
            MsgError::FieldCode => "FieldCode",
            MsgError::FieldType => "FieldType",
            MsgError::FieldTwice => "FieldTwice",
            MsgError::FieldMissing => "FieldMissing",
            MsgError::BadName => "BadName",
            MsgError::Padding => "Padding",
            MsgError::BadBool => "BadBool",
            MsgError::BadText => "BadText",
            MsgError::BadSignature => "BadSignature",
            MsgError::ArrayLength => "ArrayLength",
            MsgError::Depth => "Depth",
            MsgError::Short => "Short",
            MsgError::Trailing => "Trailing",
            MsgError::UnixFds => "UnixFds",
            MsgError::Reserved => "Reserved",
        }
    }
}

impl fmt::Display for MsgError {
    ghost use Rattle.std.specs.Prelude.{Some};

    ghost output = { λ fault. Some (name_of fault) };

    fn fmt<W: fmt::Write>(&self, f: &mut fmt::Formatter<W>) -> fmt::Result {
        f.write_str(self.name())
    }
}

impl Error for MsgError {}
