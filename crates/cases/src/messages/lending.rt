// What the view of a message lends.

use super::composing::signal;
use super::pushing::{push_number, push_quoted};
use case_files::{Fields, Judge, LineError};
use message_view::{Arg, Extent, Kind, Order, TextField, View};
use std::alloc::{AllocError, Global};

/// A message: its order, kind, flags and serial, each text with its place and length, the serial that it
/// answers, the place and length of its body, and its arguments.
pub(crate) struct Lent;

impl Judge for Lent {
    const INPUTS: usize = 1;

    fn came(&self, alloc: Global, inputs: &Fields) -> Result<String, LineError> {
        let bytes = inputs.digits(alloc, 0)?;
        let mut words = String::new(alloc);
        push_lent(&mut words, bytes.as_slice())?;
        Ok(words)
    }
}

fn push_lent(words: &mut String, bytes: &[u8]) -> Result<(), LineError> {
    let view = match View::read(bytes) {
        Ok(view) => view,
        Err(fault) => return Ok(words.push_str(fault.name())?),
    };
    push_fixed_part(words, &view)?;
    push_texts(words, &view)?;
    if let Some(serial) = view.reply_serial() {
        words.push_str("; reply_serial")?;
        push_number(words, serial)?;
    }
    push_body(words, bytes, view.body())?;
    for arg in view.args() {
        push_argument(words, arg, 0)?;
    }
    Ok(())
}

fn push_fixed_part(words: &mut String, view: &View<'_>) -> Result<(), AllocError> {
    words.push_str(match view.order() {
        Order::Little => "little ",
        Order::Big => "big ",
    })?;
    words.push_str(match view.kind() {
        Kind::MethodCall => "method_call",
        Kind::MethodReturn => "method_return",
        Kind::Error => "error",
        Kind::Signal => "signal",
        Kind::Other(_) => "other",
    })?;
    push_number(words, u32::from(view.kind().byte()))?;
    push_number(words, u32::from(view.flags()))?;
    push_number(words, view.serial())
}

fn push_texts(words: &mut String, view: &View<'_>) -> Result<(), AllocError> {
    for (name, text, field) in [
        ("; path", view.path(), TextField::Path),
        ("; interface", view.interface(), TextField::Interface),
        ("; member", view.member(), TextField::Member),
        ("; error_name", view.error_name(), TextField::ErrorName),
        ("; destination", view.destination(), TextField::Destination),
        ("; sender", view.sender(), TextField::Sender),
    ] {
        push_text(words, name, view.extent(field), text)?;
    }
    Ok(())
}

/// Adds a text with its place and length.
fn push_text(
    words: &mut String,
    name: &str,
    extent: Option<Extent>,
    text: Option<&str>,
) -> Result<(), AllocError> {
    match (extent, text) {
        (Some(Extent { place, len }), Some(text)) => {
            words.push_str(name)?;
            push_number(words, place)?;
            push_number(words, len)?;
            push_quoted(words, text)
        }
        (None, None) => Ok(()),
        _ => {
            words.push_str(name)?;
            words.push_str(" has no place or no text")
        }
    }
}

/// Adds the place and the length of a message's body.
fn push_body(words: &mut String, bytes: &[u8], body: &[u8]) -> Result<(), LineError> {
    match bytes.strip_suffix(body) {
        Some(front) => {
            words.push_str("; body")?;
            push_number(words, u32::try_from(front.len())?)?;
            push_number(words, u32::try_from(body.len())?)?;
        }
        None => words.push_str("; body elsewhere")?,
    }
    Ok(())
}

/// Adds an argument: the first byte of its type, its place counted from a start, its length and its text.
fn push_argument(words: &mut String, arg: Arg<'_>, start: u32) -> Result<(), LineError> {
    let place = arg.place.checked_sub(start).ok_or(LineError::Unreadable)?;
    words.push_str("; ")?;
    words.push(char::from(arg.code))?;
    push_number(words, place)?;
    push_number(words, arg.len)?;
    if let Some(text) = arg.text {
        push_quoted(words, text)?;
    }
    Ok(())
}

/// A signature and the body of a little-endian signal: its arguments, each with its place in the body, or the
/// message's fault.
pub(crate) struct Bodies;

impl Judge for Bodies {
    const INPUTS: usize = 2;

    fn came(&self, alloc: Global, inputs: &Fields) -> Result<String, LineError> {
        let body = inputs.digits(alloc, 1)?;
        let bytes = signal(alloc, inputs.bytes(0)?, body.as_slice())?;
        let mut words = String::new(alloc);
        push_arguments(&mut words, bytes.as_slice(), body.len())?;
        Ok(words)
    }
}

/// Adds the arguments of a message whose last bytes are its body, or its fault.
fn push_arguments(words: &mut String, bytes: &[u8], body_len: usize) -> Result<(), LineError> {
    let view = match View::read(bytes) {
        Ok(view) => view,
        Err(fault) => return Ok(words.push_str(fault.name())?),
    };
    let start = u32::try_from(bytes.len().saturating_sub(body_len))?;
    words.push_str("ok")?;
    for arg in view.args() {
        push_argument(words, arg, start)?;
    }
    Ok(())
}
