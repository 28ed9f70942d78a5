// The tests of filters.

use crate::integer::Integer;
use crate::text::Text;
use match_key::{ArgNumber, KindName};

/// Whether two things are to be equal, or not.
#[derive(Clone, Copy, Debug, PartialEq, Eq)]
pub enum Equality {
    Equal,
    Unequal,
}

/// A flag of a message (D-Bus Specification, "Message Format").
#[derive(Clone, Copy, Debug, PartialEq, Eq)]
pub enum Flag {
    NoReplyExpected,
    NoAutoStart,
    AllowInteractiveAuthorization,
}

/// A header field that a message may have (D-Bus Specification, "Header Fields").
#[derive(Clone, Copy, Debug, PartialEq, Eq)]
pub enum Field {
    Path,
    Interface,
    Member,
    ErrorName,
    ReplySerial,
    Destination,
    Sender,
}

/// A header field that is a text.
#[derive(Clone, Copy, Debug, PartialEq, Eq)]
pub enum TextField {
    Path,
    Interface,
    Member,
    ErrorName,
    Destination,
    Sender,
}

/// A type of argument that is a text.
#[derive(Clone, Copy, Debug, PartialEq, Eq)]
pub enum TextType {
    String,
    ObjectPath,
    Signature,
}

/// A text that a message may have: a field, or an argument of a type.
#[derive(Clone, Copy, Debug, PartialEq, Eq)]
pub enum TextSource {
    Field(TextField),
    Arg(ArgNumber, TextType),
}

/// How a text is compared with a value, byte by byte.
#[derive(Clone, Copy, Debug, PartialEq, Eq)]
pub enum TextRelation {
    Equal,
    Unequal,
    Begins,
    Ends,
}

/// A path or a name that a value is compared with by its elements, as rules do.
#[derive(Clone, Copy, Debug, PartialEq, Eq)]
pub enum Scope {
    PathNamespace,
    ArgNamespace(ArgNumber),
    ArgPath(ArgNumber),
}

/// A number that a message may have: one of its header, how many arguments or bytes it has, or an argument.
#[derive(Clone, Copy, Debug, PartialEq, Eq)]
pub enum NumberSource {
    Serial,
    ReplySerial,
    Flags,
    BodyLength,
    Args,
    Length,
    Arg(ArgNumber),
}

/// How a number is compared with a value. `Shares` asks for a bit that both have.
#[derive(Clone, Copy, Debug, PartialEq, Eq)]
pub enum NumberRelation {
    Equal,
    Unequal,
    Less,
    AtMost,
    Greater,
    AtLeast,
    Shares,
}

/// What the type of an argument begins with (D-Bus Specification, "Type System").
#[derive(Clone, Copy, Debug, PartialEq, Eq)]
pub enum ArgType {
    Byte,
    Boolean,
    Int16,
    Uint16,
    Int32,
    Uint32,
    Int64,
    Uint64,
    Double,
    String,
    ObjectPath,
    Signature,
    UnixFd,
    Array,
    Variant,
    Struct,
}

/// One thing that a filter asks of a message. What isn't there, or is of another type, fails each test of it.
#[derive(Debug, Drop)]
pub enum Test {
    /// The message is of the kind, or of another.
    Kind(Equality, KindName),
    /// It has no DESTINATION.
    Broadcast,
    /// The flag is set.
    Flag(Flag),
    /// It has the field.
    HasField(Field),
    /// It has more arguments than this number.
    HasArg(ArgNumber),
    /// The type of the argument begins so.
    IsType(ArgNumber, ArgType),
    /// The argument is a boolean of this value, or of the other.
    Truth(ArgNumber, Equality, bool),
    Text(TextSource, TextRelation, Text),
    Within(Scope, Equality, Text),
    Number(NumberSource, NumberRelation, Integer),
}
