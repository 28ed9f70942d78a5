// A message as a line.

ghost use Rattle.std.specs.Prelude.{◌≡◌, ◌++◌, ◌∷◌, [], IfOk, option_map};
ghost use Rattle.hex.specs.Hex.{encode_lower};
ghost use Rattle.message_view.specs.Message.{Message, sender_of, destination_of};
ghost use Rattle.message_view.specs.Valid.{Valid};
ghost use Rattle.value_text.specs.Printable.{IsOneLine};

use crate::body::put_body;
use crate::error::TextError;
use crate::line::Line;
use itoa::Buffer;
use message_view::{Kind, View};
use std::alloc::{AllocError, Global};

/// A message as one line that a person reads: its kind, its sender (`-` where it has none), `->` and its destination,
/// its serial where it is a call and that of the call where it is an answer, its path, interface and member or its
/// error's name, the types of its arguments in parentheses, and these as `busctl` writes them.
///
/// # Errors
///
/// `NoMemory`. `Message` can't come of a view, whose arguments were read before.
pub fn message_line(alloc: Global, view: &View<'_>) -> Result<Vec<u8>, TextError>
    ensures { IfOk result (λ bytes. IsOneLine bytes.items) }
{
    line_between(alloc, view, Ends::of(view))
}

/// Who sent a message and to whom, as its line names them.
#[derive(Clone, Copy, Debug, PartialEq, Eq)]
pub struct Ends<'a> {
    pub sender: Option<&'a str>,
    pub destination: Option<&'a str>,
}

impl<'a> Ends<'a> {
    /// By the names that the message has.
    pub fn of(view: &View<'a>) -> Ends<'a>
        ensures sender { (m : Message) → Valid view.now m → option_map (λ text. text.now) result.sender ≡ sender_of m }
        ensures destination { (m : Message) → Valid view.now m → option_map (λ text. text.now) result.destination ≡ destination_of m }
    {
        Ends {
            sender: view.sender(),
            destination: view.destination(),
        }
    }
}

/// A message as `message_line` writes it, but for the names of its ends.
///
/// # Errors
///
/// As `message_line`.
pub fn line_between(alloc: Global, view: &View<'_>, ends: Ends<'_>) -> Result<Vec<u8>, TextError>
    ensures { IfOk result (λ bytes. IsOneLine bytes.items) }
{
    let mut line = Line::new(alloc);
    put_kind(&mut line, view.kind())?;
    put_ends(&mut line, ends)?;
    put_serial(&mut line, view)?;
    put_names(&mut line, view)?;
    put_body(alloc, &mut line, view)?;
    Ok(line.end()?)
}

/// A message as one line of hexadecimal digits.
///
/// # Errors
///
/// Only for want of memory.
pub fn hex_line(alloc: Global, view: &View<'_>) -> Result<Vec<u8>, AllocError>
    ensures { IfOk result (λ bytes. bytes.items ≡ encode_lower view.now ++ 10 ∷ []) }
{
    let mut text = hex::encode(alloc, view.raw())?;
    text.push_str("\n")?;
    Ok(text.into_bytes())
}

/// Adds a message's kind, by its name in match rules.
pub(crate) fn put_kind(line: &mut Line, kind: Kind) -> Result<(), AllocError> {
    let name = match kind {
        Kind::MethodCall => "method_call",
        Kind::MethodReturn => "method_return",
        Kind::Error => "error",
        Kind::Signal => "signal",
        Kind::Other(_) => "kind",
    };
    line.put(name.as_bytes())?;
    if let Kind::Other(byte) = kind {
        line.put(b"=")?;
        line.put(Buffer::new().format(byte).as_bytes())?;
    }
    Ok(())
}

/// Adds a message's sender and destination.
fn put_ends(line: &mut Line, ends: Ends<'_>) -> Result<(), AllocError> {
    line.put_word(ends.sender.unwrap_or("-").as_bytes())?;
    if let Some(destination) = ends.destination {
        line.put_word(b"->")?;
        line.put_word(destination.as_bytes())?;
    }
    Ok(())
}

/// Adds the serial of a call, or the one that an answer is to.
fn put_serial(line: &mut Line, view: &View<'_>) -> Result<(), AllocError> {
    if let Some(serial) = view.reply_serial() {
        line.put_word(b"reply_serial=")?;
        line.put(Buffer::new().format(serial).as_bytes())?;
    } else if view.kind() == Kind::MethodCall {
        line.put_word(b"serial=")?;
        line.put(Buffer::new().format(view.serial()).as_bytes())?;
    }
    Ok(())
}

/// Adds a message's path, interface and member, or its error's name.
fn put_names(line: &mut Line, view: &View<'_>) -> Result<(), AllocError> {
    if let Some(path) = view.path() {
        line.put_word(path.as_bytes())?;
    }
    match (view.interface(), view.member()) {
        (Some(interface), Some(member)) => {
            line.put_word(interface.as_bytes())?;
            line.put(b".")?;
            line.put(member.as_bytes())?;
        }
        (Some(name), None) | (None, Some(name)) => line.put_word(name.as_bytes())?,
        (None, None) => {}
    }
    if let Some(error_name) = view.error_name() {
        line.put_word(error_name.as_bytes())?;
    }
    Ok(())
}
