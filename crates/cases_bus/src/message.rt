// Messages that a line says in words.

use case_files::{LineError, digits};
use message_build::{BuildError, Builder};
use message_view::Kind;
use std::alloc::Global;

/// The name of the bus, and of its interface.
const BUS: &str = "org.freedesktop.DBus";

const BUS_PATH: &str = "/org/freedesktop/DBus";

/// `SERIAL MEMBER WORD..`: a call of the bus.
pub(crate) fn bus_call(alloc: Global, line: &str) -> Result<Vec<u8>, LineError> {
    let (serial, rest) = line.split_once(' ').ok_or(LineError::Unreadable)?;
    let (member, words) = rest.split_once(' ').unwrap_or((rest, ""));
    let serial = serial.parse::<u32>()?;
    let mut builder = Builder::new(alloc, Kind::MethodCall, flags_of(words)?, serial);
    builder.path(BUS_PATH);
    builder.interface(BUS);
    builder.member(member);
    builder.destination(BUS);
    finish_message(alloc, builder, words)
}

/// `KIND SERIAL WORD..`: a message.
pub(crate) fn message(alloc: Global, line: &str) -> Result<Vec<u8>, LineError> {
    let (kind, rest) = line.split_once(' ').ok_or(LineError::Unreadable)?;
    let (serial, words) = rest.split_once(' ').unwrap_or((rest, ""));
    let serial = serial.parse::<u32>()?;
    let builder = Builder::new(alloc, kind_of(kind)?, flags_of(words)?, serial);
    finish_message(alloc, builder, words)
}

fn finish_message<'a>(
    alloc: Global,
    mut builder: Builder<'a>,
    words: &'a str,
) -> Result<Vec<u8>, LineError> {
    for word in words.split_ascii_whitespace() {
        put(alloc, &mut builder, word)?;
    }
    Ok(builder.finish(alloc).map_err(error_of)?)
}

fn put<'a>(alloc: Global, builder: &mut Builder<'a>, word: &'a str) -> Result<(), LineError> {
    if let Some((name, value)) = word.split_once('=') {
        if put_field(builder, name, value)? {
            return Ok(());
        }
    }
    let (code, value) = word.split_once(':').ok_or(LineError::Unreadable)?;
    put_argument(alloc, builder, code, value)
}

/// Sets the field of this name. Answers whether there is one.
fn put_field<'a>(builder: &mut Builder<'a>, name: &str, value: &'a str) -> Result<bool, LineError> {
    match name {
        "path" => builder.path(value),
        "interface" => builder.interface(value),
        "member" => builder.member(value),
        "error_name" => builder.error_name(value),
        "reply_serial" => builder.reply_serial(value.parse::<u32>()?),
        "destination" => builder.destination(value),
        "sender" => builder.sender(value),
        "flags" => {}
        _ => return Ok(false),
    }
    Ok(true)
}

fn put_argument(
    alloc: Global,
    builder: &mut Builder<'_>,
    code: &str,
    value: &str,
) -> Result<(), LineError> {
    let added = match code {
        "s" => builder.arg_str(value),
        "u" => builder.arg_u32(value.parse::<u32>()?),
        "b" => builder.arg_bool(value == "true"),
        "body" => {
            let (signature, words) = value.split_once(':').ok_or(LineError::Unreadable)?;
            let body = digits(alloc, words)?;
            builder.raw_body(signature.as_bytes(), body.as_slice())
        }
        _ => return Err(LineError::Unreadable),
    };
    added.map_err(error_of)
}

fn flags_of(words: &str) -> Result<u8, LineError> {
    for word in words.split_ascii_whitespace() {
        if let Some(flags) = word.strip_prefix("flags=") {
            return Ok(flags.parse::<u8>()?);
        }
    }
    Ok(0)
}

fn kind_of(word: &str) -> Result<Kind, LineError> {
    match word {
        "method_call" => Ok(Kind::MethodCall),
        "method_return" => Ok(Kind::MethodReturn),
        "error" => Ok(Kind::Error),
        "signal" => Ok(Kind::Signal),
        _ => Err(LineError::Unreadable),
    }
}

fn error_of(error: BuildError) -> LineError {
    match error {
        BuildError::NoMemory => LineError::NoMemory,
        _ => LineError::Unreadable,
    }
}
