// A message as a line of JSON.

ghost use Rattle.std.specs.Prelude.{IfOk};
ghost use Rattle.value_text.specs.Printable.{IsOneLine};

use crate::body::put_arguments;
use crate::error::TextError;
use crate::line::Line;
use crate::message::put_kind;
use crate::notation::Notation;
use itoa::Buffer;
use message_view::{Order, View};
use std::alloc::{AllocError, Global};

/// A message as one line of JSON, an object with the members that `busctl --json=short monitor` writes, in its order: the
/// time is in microseconds since 1970.
///
/// # Errors
///
/// `NoMemory`. `Message` can't come of a view, whose arguments were read before.
pub fn json_line(alloc: Global, view: &View<'_>, time: u64) -> Result<Vec<u8>, TextError>
    ensures { IfOk result (λ bytes. IsOneLine bytes.items) }
{
    let mut line = Line::new(alloc);
    line.push_all(b"{\"type\":\"")?;
    put_kind(&mut line, view.kind())?;
    line.push_all(b"\"")?;
    put_numbers(&mut line, view, time)?;
    put_texts(&mut line, view)?;
    line.push_all(b",\"payload\":{\"type\":\"")?;
    line.put(view.signature())?;
    line.push_all(b"\",\"data\":")?;
    put_arguments(alloc, &mut line, view, Notation::Json)?;
    line.push_all(b"}}")?;
    Ok(line.end()?)
}

/// Adds the members that aren't header fields, and the reply's serial.
fn put_numbers(line: &mut Line, view: &View<'_>, time: u64) -> Result<(), AllocError> {
    match view.order() {
        Order::Little => line.push_all(b",\"endian\":\"l\"")?,
        Order::Big => line.push_all(b",\"endian\":\"B\"")?,
    }
    line.push_all(b",\"flags\":")?;
    line.put(Buffer::new().format(view.flags()).as_bytes())?;
    line.push_all(b",\"version\":1,\"cookie\":")?;
    line.put(Buffer::new().format(view.serial()).as_bytes())?;
    if let Some(serial) = view.reply_serial() {
        line.push_all(b",\"reply_cookie\":")?;
        line.put(Buffer::new().format(serial).as_bytes())?;
    }
    line.push_all(b",\"timestamp-realtime\":")?;
    line.put(Buffer::new().format(time).as_bytes())
}

/// Adds the header fields that are texts.
fn put_texts(line: &mut Line, view: &View<'_>) -> Result<(), AllocError> {
    put_text(line, "sender", view.sender())?;
    put_text(line, "destination", view.destination())?;
    put_text(line, "path", view.path())?;
    put_text(line, "interface", view.interface())?;
    put_text(line, "member", view.member())?;
    put_text(line, "error_name", view.error_name())
}

/// Adds a member whose value is a text, if there is one.
fn put_text(line: &mut Line, name: &str, text: Option<&str>) -> Result<(), AllocError> {
    let Some(text) = text else {
        return Ok(());
    };
    line.push_all(b",")?;
    line.put_json(name)?;
    line.push_all(b":")?;
    line.put_json(text)
}
