// The arguments of a message, in short.

use message_value::{Cursor, MAX_LEVELS, Order};
use message_view::{MsgError, View};
use signature::{OneType, Signature};
use std::alloc::{AllocError, Global};
use value_text::{Line, Notation, TextError, write_value};

/// The longest message, in bytes.
const MAX_MESSAGE_LEN: usize = 134217728;

/// What stands in the place of the rest of a text.
const CUT: &[u8] = b"..";

/// Adds the arguments of a message as `busctl` writes them, with a text between each two, and of each at most as many bytes
/// as are said.
///
/// # Errors
///
/// `NoMemory`. `Message` can't come of a view, whose arguments were read before.
pub(crate) fn put_arguments(
    alloc: Global,
    text: &mut Vec<u8>,
    view: &View<'_>,
    between: &[u8],
    most: usize,
) -> Result<(), TextError> {
    let signature = Signature::read(view.signature()).map_err(|_| MsgError::BadSignature)?;
    let body = view.body();
    if body.len() > MAX_MESSAGE_LEN {
        return Err(TextError::Message(MsgError::TooLarge));
    }
    let mut cursor = Cursor::new(0, body, MsgError::Short);
    let mut is_first = true;
    for value_type in signature.types() {
        if !is_first {
            text.extend_from_slice(between)?;
        }
        let argument = argument_text(alloc, &mut cursor, view.order(), &value_type)?;
        put_short(text, without_blank(&argument), most)?;
        is_first = false;
    }
    Ok(())
}

/// Cuts the arguments at the end of a message's line, each to as many bytes as are said.
///
/// # Errors
///
/// As `put_arguments`.
pub(crate) fn fit_arguments(
    alloc: Global,
    line: &mut Vec<u8>,
    view: &View<'_>,
    most: usize,
) -> Result<(), TextError> {
    let mut all = Vec::new(alloc);
    put_arguments(alloc, &mut all, view, b" ", usize::MAX)?;
    if all.len() > most {
        line.truncate(line.len().saturating_sub(all.len() + 1));
        put_arguments(alloc, line, view, b" ", most)?;
        line.push(b'\n')?;
    }
    Ok(())
}

/// An argument as a line, which begins with a blank.
fn argument_text(
    alloc: Global,
    cursor: &mut Cursor<'_>,
    order: Order,
    value_type: &OneType<'_>,
) -> Result<Vec<u8>, TextError> {
    let mut line = Line::new(alloc);
    write_value(
        alloc,
        &mut line,
        cursor,
        order,
        value_type,
        MAX_LEVELS,
        Notation::Words,
    )?;
    Ok(line.end()?)
}

/// A line without its first blank and its line feed.
fn without_blank(line: &[u8]) -> &[u8] {
    match line {
        [b' ', text @ .., b'\n'] => text,
        _ => line,
    }
}

/// Adds a text, of which at most a number of bytes are shown.
fn put_short(text: &mut Vec<u8>, shown: &[u8], most: usize) -> Result<(), AllocError> {
    if shown.len() <= most {
        return text.extend_from_slice(shown);
    }
    text.extend_from_slice(shown.split_at(most).0)?;
    text.extend_from_slice(CUT)
}
