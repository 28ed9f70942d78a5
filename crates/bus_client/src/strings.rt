// Strings in the bus's answers.

use crate::error::ClientError;
use message_value::{Cursor, Order, TextType};
use message_view::{MsgError, View};
use std::alloc::Global;

/// The longest message, in bytes.
const MAX_MESSAGE_LEN: usize = 134217728;

/// The first argument of a message, if it is a string.
pub(crate) fn first_string(alloc: Global, message: &[u8]) -> Result<Option<String>, ClientError> {
    let view = View::read(message)?;
    match view.args().next() {
        Some(argument) => match argument.text {
            Some(text) => Ok(Some(String::from_str(alloc, text)?)),
            None => Ok(None),
        },
        None => Ok(None),
    }
}

/// The strings of the array that is a message's only argument; none where it has other arguments.
pub(crate) fn strings_of(alloc: Global, message: &[u8]) -> Result<Vec<String>, ClientError> {
    let view = View::read(message)?;
    match body_of(&view, b"as") {
        Some(mut cursor) => Ok(next_strings(alloc, &mut cursor, view.order())?),
        None => Ok(Vec::new(alloc)),
    }
}

/// The match rules of a connection in an answer to GetAllMatchRules, which has those of each connection by its unique name.
pub(crate) fn match_rules_of(
    alloc: Global,
    message: &[u8],
    connection: &str,
) -> Result<Option<Vec<String>>, ClientError> {
    let view = View::read(message)?;
    let Some(mut cursor) = body_of(&view, b"a{sas}") else {
        return Ok(None);
    };
    cursor.word(view.order())?;
    cursor.align(8)?;
    for _ in 0..view.body().len() {
        if cursor.is_empty() {
            break;
        }
        cursor.align(8)?;
        let name = TextType::String.read_value(&mut cursor, view.order())?;
        let rules = next_strings(alloc, &mut cursor, view.order())?;
        if name == connection {
            return Ok(Some(rules));
        }
    }
    Ok(None)
}

/// A cursor over a message's body, if its arguments are of these types.
fn body_of<'a>(view: &View<'a>, types: &[u8]) -> Option<Cursor<'a>> {
    let body = view.body();
    if view.signature() != types || body.len() > MAX_MESSAGE_LEN {
        return None;
    }
    Some(Cursor::new(0, body, MsgError::Short))
}

/// The strings of the next array.
fn next_strings(
    alloc: Global,
    cursor: &mut Cursor<'_>,
    order: Order,
) -> Result<Vec<String>, ClientError> {
    cursor.align(4)?;
    let len = cursor.word(order)? as usize;
    // it begins at a multiple of 4, as any string does
    let mut elements = Cursor::new(0, cursor.item(len)?, MsgError::Short);
    let mut strings = Vec::new(alloc);
    for _ in 0..len {
        if elements.is_empty() {
            break;
        }
        elements.align(4)?;
        let text = TextType::String.read_value(&mut elements, order)?;
        strings.push(String::from_str(alloc, text)?)?;
    }
    Ok(strings)
}
