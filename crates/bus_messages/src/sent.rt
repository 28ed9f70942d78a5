// The messages that the bus makes.

ghost use Rattle.std.specs.Prelude.{◌≡◌, ◌∷◌, [], Some, None, IfSome, codes, option_map};
ghost use Rattle.message_view.specs.declared.kind.Kind.TheVariants.{MethodReturn, Signal};
ghost use Rattle.message_build.specs.Asked.{Asked};
ghost use Rattle.message_build.specs.Building.{AreAsked};
ghost use Rattle.bus_messages.specs.Bodies.{with_text};
ghost use Rattle.bus_messages.specs.FilterFaults.{filter_fault_text};
ghost use Rattle.bus_messages.specs.Sent.{Builds, from_bus, reply_asked, error_with, error_asked, bad_filter_asked, signal_asked};

use crate::body::Body;
use crate::error_name::ErrorName;
use crate::filter_fault::FilterFault;
use crate::prepared::Prepared;
use bytes::Bytes;
use message_build::{BuildError, Builder};
use message_view::Kind;
use std::alloc::Global;

/// The name of the bus, which is also the interface of its signals.
const BUS_NAME: &str = "org.freedesktop.DBus";

const BUS_PATH: &str = "/org/freedesktop/DBus";

/// The fields after the destination: the bus as the sender, and the signature of a text.
const SENDER_AND_TEXT: &[u8] =
    b"\x07\x01s\0\x14\0\0\0org.freedesktop.DBus\0\0\0\0\x08\x01g\0\x01s\0";

/// The signals that tell of names. Before the destination stand the path of the bus, its interface and the member.
const OWNER_CHANGED: Prepared<'static> = Prepared {
    kind: Kind::Signal,
    before: b"\x01\x01o\0\x15\0\0\0/org/freedesktop/DBus\0\0\0\x02\x01s\0\x14\0\0\0org.freedesktop.DBus\0\0\0\0\x03\x01s\0\x10\0\0\0NameOwnerChanged\0\0\0\0\0\0\0\0",
    after: b"\x07\x01s\0\x14\0\0\0org.freedesktop.DBus\0\0\0\0\x08\x01g\0\x03sss\0",
};

const NAME_LOST: Prepared<'static> = Prepared {
    kind: Kind::Signal,
    before: b"\x01\x01o\0\x15\0\0\0/org/freedesktop/DBus\0\0\0\x02\x01s\0\x14\0\0\0org.freedesktop.DBus\0\0\0\0\x03\x01s\0\x08\0\0\0NameLost\0\0\0\0\0\0\0\0",
    after: SENDER_AND_TEXT,
};

const NAME_ACQUIRED: Prepared<'static> = Prepared {
    kind: Kind::Signal,
    before: b"\x01\x01o\0\x15\0\0\0/org/freedesktop/DBus\0\0\0\x02\x01s\0\x14\0\0\0org.freedesktop.DBus\0\0\0\0\x03\x01s\0\x0c\0\0\0NameAcquired\0\0\0\0",
    after: SENDER_AND_TEXT,
};

/// The error of a filter that isn't attached.
const BAD_FILTER: &str = "org.example.ProgramBus1.Error.BadFilter";

/// The flag that no reply is expected.
const NO_REPLY: u8 = 1;

/// A message from the bus, without a body yet.
fn from_bus<'a>(alloc: Global, kind: Kind, serial: u32, to: Option<&'a str>) -> Builder<'a>
    ensures { result ≡ from_bus kind serial (option_map (λ name. name.now) to.entry) }
{
    let mut builder = Builder::new(alloc, kind, NO_REPLY, serial);
    if let Some(name) = to {
        builder.destination(name);
    }
    builder.sender(BUS_NAME);
    builder
}

/// The bytes of what was asked for, to be shared.
fn finish_message(alloc: Global, builder: &Builder<'_>) -> Result<Bytes, BuildError>
    ensures { Builds builder.now result }
{
    let bytes = builder.finish(alloc)?;
    Ok(Bytes::from_vec(bytes)?)
}

/// The answer with a text to the message with a serial. None if it would not be valid, or the text is longer than a name, or
/// memory is refused.
fn text_reply(alloc: Global, serial: u32, to: &str, reply_to: u32, text: &str) -> Option<Vec<u8>>
    ensures { IfSome result (λ v. AreAsked (with_text (record (from_bus MethodReturn serial (Some to.entry.now)) { reply_serial = Some reply_to }) text.entry.now) v.items) }
{
    if reply_to == 0 {
        return None;
    }
    let [r0, r1, r2, r3] = reply_to.to_le_bytes();
    let reply_serial = [5, 1, b'u', 0, r0, r1, r2, r3];
    let prepared = Prepared {
        kind: Kind::MethodReturn,
        before: &reply_serial,
        after: SENDER_AND_TEXT,
    };
    let bytes = prepared.with_text(alloc, serial, Some(to), text)?;
    Some(bytes)
}

/// The answer to the message with a serial.
///
/// # Errors
///
/// `Invalid` where a serial is 0 or the name is none; `TooLarge` where the message would be above the limits;
/// `NoMemory`.
pub fn reply(
    alloc: Global,
    serial: u32,
    to: Option<&str>,
    reply_to: u32,
    body: Body<'_>,
) -> Result<Bytes, BuildError>
    ensures { Builds (reply_asked serial (option_map (λ name. name.now) to.entry) reply_to body.entry) result }
{
    if let (Some(name), Body::Text(text)) = (to, body) {
        if let Some(bytes) = text_reply(alloc, serial, name, reply_to, text) {
            return Ok(Bytes::from_vec(bytes)?);
        }
    }
    let mut builder = from_bus(alloc, Kind::MethodReturn, serial, to);
    builder.reply_serial(reply_to);
    body.add_to(&mut builder)?;
    finish_message(alloc, &builder)
}

/// The error of a name, whose argument is a text.
fn error_with<'a>(
    alloc: Global,
    serial: u32,
    to: Option<&'a str>,
    reply_to: u32,
    name: &'a str,
    text: &'a str,
) -> Result<Bytes, BuildError>
    ensures { Builds (error_with serial (option_map (λ name. name.now) to.entry) reply_to name.entry.now text.entry.now) result }
{
    let mut builder = from_bus(alloc, Kind::Error, serial, to);
    builder.error_name(name);
    builder.reply_serial(reply_to);
    builder.arg_str(text)?;
    finish_message(alloc, &builder)
}

/// The error that answers the message with a serial. Its argument is what the error says.
///
/// # Errors
///
/// As those of `reply`.
pub fn error(
    alloc: Global,
    serial: u32,
    to: Option<&str>,
    reply_to: u32,
    name: ErrorName,
) -> Result<Bytes, BuildError>
    ensures { Builds (error_asked serial (option_map (λ name. name.now) to.entry) reply_to name) result }
{
    let text = name.to_string(alloc)?;
    error_with(alloc, serial, to, reply_to, name.name(), text.as_str())
}

/// The error BadFilter that answers the message with a serial. Its argument is what the error says of the filter.
///
/// # Errors
///
/// As those of `reply`.
pub fn bad_filter(
    alloc: Global,
    serial: u32,
    to: Option<&str>,
    reply_to: u32,
    fault: FilterFault<'_>,
) -> Result<Bytes, BuildError>
    ensures { Builds (bad_filter_asked serial (option_map (λ name. name.now) to.entry) reply_to (filter_fault_text fault.entry)) result }
{
    let text = fault.to_string(alloc)?;
    error_with(alloc, serial, to, reply_to, BAD_FILTER, text.as_str())
}

/// A signal of the bus, without a body yet.
fn signal<'a>(alloc: Global, serial: u32, to: Option<&'a str>, member: &'a str) -> Builder<'a>
    ensures { result ≡ signal_asked serial (option_map (λ name. name.now) to.entry) member.entry.now [] }
{
    let mut builder = from_bus(alloc, Kind::Signal, serial, to);
    builder.path(BUS_PATH);
    builder.interface(BUS_NAME);
    builder.member(member);
    builder
}

/// The broadcast that a name has another owner. Both owners are unique names, or empty where there is none.
///
/// # Errors
///
/// `Invalid` where the serial is 0; `TooLarge` where the message would be above the limits; `NoMemory`.
pub fn name_owner_changed(
    alloc: Global,
    serial: u32,
    name: &str,
    old: &str,
    new: &str,
) -> Result<Bytes, BuildError>
    ensures { Builds (signal_asked serial None (codes "NameOwnerChanged") (name.now ∷ old.now ∷ new.now ∷ [])) result }
{
    if let Some(bytes) = OWNER_CHANGED.with_three_texts(alloc, serial, None, name, old, new) {
        return Ok(Bytes::from_vec(bytes)?);
    }
    let mut builder = signal(alloc, serial, None, "NameOwnerChanged");
    builder.arg_str(name)?;
    builder.arg_str(old)?;
    builder.arg_str(new)?;
    finish_message(alloc, &builder)
}

/// The signal to a connection that lost a name.
///
/// # Errors
///
/// `Invalid` where the serial is 0 or it goes to no bus name; `TooLarge` where the message would be above the limits;
/// `NoMemory`.
pub fn name_lost(alloc: Global, serial: u32, to: &str, name: &str) -> Result<Bytes, BuildError>
    ensures { Builds (signal_asked serial (Some to.now) (codes "NameLost") (name.now ∷ [])) result }
{
    if let Some(bytes) = NAME_LOST.with_text(alloc, serial, Some(to), name) {
        return Ok(Bytes::from_vec(bytes)?);
    }
    let mut builder = signal(alloc, serial, Some(to), "NameLost");
    builder.arg_str(name)?;
    finish_message(alloc, &builder)
}

/// The signal to a connection that has a name now.
///
/// # Errors
///
/// As those of `name_lost`.
pub fn name_acquired(alloc: Global, serial: u32, to: &str, name: &str) -> Result<Bytes, BuildError>
    ensures { Builds (signal_asked serial (Some to.now) (codes "NameAcquired") (name.now ∷ [])) result }
{
    if let Some(bytes) = NAME_ACQUIRED.with_text(alloc, serial, Some(to), name) {
        return Ok(Bytes::from_vec(bytes)?);
    }
    let mut builder = signal(alloc, serial, Some(to), "NameAcquired");
    builder.arg_str(name)?;
    finish_message(alloc, &builder)
}
