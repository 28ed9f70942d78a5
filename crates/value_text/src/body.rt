// The arguments of a message.

use crate::error::TextError;
use crate::line::Line;
use crate::notation::Notation;
use crate::value::write_members;
use message_value::{Cursor, MAX_LEVELS};
use message_view::{MsgError, View};
use signature::Signature;
use std::alloc::Global;

/// The longest message, in bytes.
const MAX_MESSAGE_LEN: usize = 134217728;

/// Adds the types of a message's arguments in parentheses, and then their values.
pub(crate) fn put_body(alloc: Global, line: &mut Line, view: &View<'_>) -> Result<(), TextError> {
    line.put_word(b"(")?;
    line.put(view.signature())?;
    line.put(b")")?;
    put_arguments(alloc, line, view, Notation::Words)
}

/// Adds the values of a message's arguments.
pub(crate) fn put_arguments(
    alloc: Global,
    line: &mut Line,
    view: &View<'_>,
    notation: Notation,
) -> Result<(), TextError> {
    let signature = Signature::read(view.signature()).map_err(|_| MsgError::BadSignature)?;
    let body = view.body();
    if body.len() > MAX_MESSAGE_LEN {
        return Err(TextError::Message(MsgError::TooLarge));
    }
    let mut cursor = Cursor::new(0, body, MsgError::Short);
    write_members(
        alloc,
        line,
        &mut cursor,
        view.order(),
        signature.types(),
        MAX_LEVELS,
        notation,
    )
}
