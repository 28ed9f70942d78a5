// The header fields of a message that is built.

ghost use Rattle.std.specs.Prelude.{◌≡◌, true, ℕ, ◌+◌, ◌<◌, ◌≤◌, ◌^◌, length, IfSome, MatchOption};
ghost use Rattle.message_value.specs.declared.order.Order.TheVariants.{Little};
ghost use Rattle.message_value.specs.Fits.{max_array_len};
ghost use Rattle.message_value.specs.Spelling.{value_bytes};
ghost use Rattle.message_value.specs.Value.{text};
ghost use Rattle.signature.specs.DataType.{basic};
ghost use Rattle.signature.specs.Name.{is_bus_name};
ghost use Rattle.message_view.specs.Spelling.{field_bytes};
ghost use Rattle.message_build.specs.Growing.{Appends, Ends};
ghost use Rattle.message_build.specs.HeaderFields.{field_of, is_open_interface, is_open_path, is_allowed, may_be, are_allowed};

use crate::appending::{align, push_number, push_signature, push_string};
use message_value::{Order, padding};
use signature::{Signature, check_bus_name, check_interface, check_member, check_path};
use std::alloc::AllocError;

const LOCAL_PATH: &str = "/org/freedesktop/DBus/Local";

const LOCAL_INTERFACE: &str = "org.freedesktop.DBus.Local";

/// The name of a bus, and its interface; and its path (D-Bus Specification, "Message Bus Messages"). Most messages that are built have
/// them, so they are compared before any name is looked at letter by letter.
const BUS_NAME: &str = "org.freedesktop.DBus";

const BUS_PATH: &str = "/org/freedesktop/DBus";

/// The longest array.
pub(crate) const MAX_ARRAY_LEN: usize = 67108864;

/// The longest text, whose length has four bytes.
const MAX_TEXT_LEN: usize = u32::MAX as usize;

/// Whether a message may have this path: it is an object path, but not the one that only a connection's own library may
/// use.
#[tactic(auto, using(crate::proofs::BusNames::path_or_bus))]
fn is_open_path(path: &str) -> bool
    ensures { result ≡ is_open_path path.now }
{
    path == BUS_PATH || check_path(path) && path != LOCAL_PATH && path.len() <= MAX_TEXT_LEN
}

/// Whether a message may have this interface: it is one, but not the one that only a connection's own library may use.
#[tactic(auto, using(crate::proofs::BusNames::interface_or_bus))]
fn is_open_interface(interface: &str) -> bool
    ensures { result ≡ is_open_interface interface.now }
{
    interface == BUS_NAME || check_interface(interface) && interface != LOCAL_INTERFACE
}

/// Whether it is the name of a connection, or of the bus.
#[tactic(auto, using(crate::proofs::BusNames::name_or_bus))]
fn is_bus_name(name: &str) -> bool
    ensures { result ≡ is_bus_name name.now }
{
    name == BUS_NAME || check_bus_name(name)
}

/// Where a text ends with its zero byte, or None where it is longer than an array may be.
fn text_end(place: usize, text: &[u8]) -> Option<usize>
    requires { place < 2 ^ 33 }
    ensures { Ends result place (length text.now + 1) }
{
    if text.len() < MAX_ARRAY_LEN {
        Some(place + text.len() + 1)
    } else {
        None
    }
}

/// A field and what it holds (D-Bus Specification, "Header Fields").
#[derive(Clone, Copy)]
pub(crate) enum HeaderField<'a> {
    Path(&'a str),
    Interface(&'a str),
    Member(&'a str),
    ErrorName(&'a str),
    ReplySerial(u32),
    Destination(&'a str),
    Sender(&'a str),
    Signature(&'a [u8]),
}

impl HeaderField<'_> {
    /// Whether the field may hold this.
    pub(crate) fn is_allowed(self) -> bool
        ensures { result ≡ is_allowed self.entry }
    {
        match self {
            HeaderField::Path(text) => is_open_path(text),
            HeaderField::Interface(text) => is_open_interface(text),
            HeaderField::Member(text) => check_member(text),
            HeaderField::ErrorName(text) => check_interface(text),
            HeaderField::ReplySerial(serial) => serial != 0,
            HeaderField::Destination(text) | HeaderField::Sender(text) => is_bus_name(text),
            HeaderField::Signature(text) => Signature::read(text).is_ok(),
        }
    }

    /// The field's code (D-Bus Specification, "Header Fields").
    fn code(self) -> u8
        ensures { result ≡ (field_of self.entry).code }
    {
        match self {
            HeaderField::Path(_) => 1,
            HeaderField::Interface(_) => 2,
            HeaderField::Member(_) => 3,
            HeaderField::ErrorName(_) => 4,
            HeaderField::ReplySerial(_) => 5,
            HeaderField::Destination(_) => 6,
            HeaderField::Sender(_) => 7,
            HeaderField::Signature(_) => 8,
        }
    }

    /// The byte of the type of the field's value.
    fn type_byte(self) -> u8
        ensures { basic result ≡ (field_of self.entry).type }
    {
        match self {
            HeaderField::Path(_) => b'o',
            HeaderField::ReplySerial(_) => b'u',
            HeaderField::Signature(_) => b'g',
            HeaderField::Interface(_)
            | HeaderField::Member(_)
            | HeaderField::ErrorName(_)
            | HeaderField::Destination(_)
            | HeaderField::Sender(_) => b's',
        }
    }

    /// Where the field's value ends, if it begins at a place; `None` where it is longer than an array may be.
    fn value_end(self, place: usize) -> Option<usize>
        requires { place < 2 ^ 32 }
        ensures { Ends result place (length (value_bytes Little place (field_of self.entry).type (field_of self.entry).value)) }
    {
        match self {
            HeaderField::ReplySerial(_) => Some(place + padding(4, place) + 4),
            HeaderField::Signature(text) => text_end(place + 1, text),
            HeaderField::Path(text)
            | HeaderField::Interface(text)
            | HeaderField::Member(text)
            | HeaderField::ErrorName(text)
            | HeaderField::Destination(text)
            | HeaderField::Sender(text) => text_end(place + padding(4, place) + 4, text.as_bytes()),
        }
    }

    /// Where the field ends, if it begins at a place; `None` where it is longer than an array may be.
    pub(crate) fn end(self, place: usize) -> Option<usize>
        requires { place < 2 ^ 31 }
        ensures { Ends result place (length (field_bytes Little place (field_of self.entry))) }
    {
        self.value_end(place + padding(8, place) + 4)
    }

    /// Appends the field's value, with the zeros before it.
    fn push_value(self, bytes: &mut Vec<u8>) -> Result<(), AllocError>
        requires { is_allowed self ≡ true }
        ensures { Appends result bytes.old.items bytes.new.items (value_bytes Little (length bytes.old.items) (field_of self.entry).type (field_of self.entry).value) }
    {
        match self {
            HeaderField::ReplySerial(serial) => push_number(bytes, serial),
            HeaderField::Signature(text) => push_signature(bytes, text),
            HeaderField::Path(text)
            | HeaderField::Interface(text)
            | HeaderField::Member(text)
            | HeaderField::ErrorName(text)
            | HeaderField::Destination(text)
            | HeaderField::Sender(text) => push_string(bytes, Order::Little, text.as_bytes()),
        }
    }

    /// Appends the field, with the zeros before it: its code, and its value as a variant.
    pub(crate) fn push(self, bytes: &mut Vec<u8>) -> Result<(), AllocError>
        requires { is_allowed self ≡ true }
        ensures { Appends result bytes.old.items bytes.new.items (field_bytes Little (length bytes.old.items) (field_of self.entry)) }
    {
        align(bytes, 8)?;
        bytes.extend_from_slice(&[self.code(), 1, self.type_byte(), 0])?;
        self.push_value(bytes)
    }
}

fn may_be(field: &Option<HeaderField<'_>>) -> bool
    ensures { result ≡ may_be field.now }
{
    match field {
        None => true,
        Some(field) => field.is_allowed(),
    }
}

/// Whether each field may hold what it does.
pub(crate) fn are_allowed(fields: &[Option<HeaderField<'_>>]) -> bool
    ensures { result ≡ are_allowed fields.now }
{
    fields.iter().all(|field| may_be(field))
}
