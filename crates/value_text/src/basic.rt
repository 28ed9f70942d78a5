// Values of basic types.

use crate::double::{put_double, put_json_double};
use crate::error::TextError;
use crate::line::Line;
use crate::notation::Notation;
use itoa::Buffer;
use message_value::{Cursor, Order, TextType};
use message_view::MsgError;
use signature::BasicType;
use std::alloc::Global;

/// A value of a basic type, as it is written.
#[derive(Clone, Copy, Debug)]
pub(crate) enum Basic<'a> {
    Unsigned(u64),
    Signed(i64),
    Boolean(bool),
    /// The bits of a double.
    Double(u64),
    Text(&'a str),
}

fn read_two(cursor: &mut Cursor<'_>, order: Order) -> Result<u16, MsgError> {
    cursor.align(2)?;
    let item = cursor.item(2)?;
    let bytes = [item[0], item[1]];
    Ok(match order {
        Order::Little => u16::from_le_bytes(bytes),
        Order::Big => u16::from_be_bytes(bytes),
    })
}

fn read_four(cursor: &mut Cursor<'_>, order: Order) -> Result<u32, MsgError> {
    cursor.align(4)?;
    cursor.word(order)
}

fn read_eight(cursor: &mut Cursor<'_>, order: Order) -> Result<u64, MsgError> {
    cursor.align(8)?;
    let item = cursor.item(8)?;
    let bytes = [
        item[0], item[1], item[2], item[3], item[4], item[5], item[6], item[7],
    ];
    Ok(match order {
        Order::Little => u64::from_le_bytes(bytes),
        Order::Big => u64::from_be_bytes(bytes),
    })
}

/// A text whose length has four bytes.
fn read_text<'a>(
    cursor: &mut Cursor<'a>,
    order: Order,
    text_type: TextType,
) -> Result<Basic<'a>, MsgError> {
    cursor.align(4)?;
    Ok(Basic::Text(text_type.read_value(cursor, order)?))
}

impl<'a> Basic<'a> {
    /// Reads a value, after the zeros before it.
    pub(crate) fn read(
        cursor: &mut Cursor<'a>,
        order: Order,
        basic: BasicType,
    ) -> Result<Basic<'a>, MsgError> {
        match basic {
            BasicType::Byte => Ok(Basic::Unsigned(u64::from(cursor.byte()?))),
            BasicType::Boolean => Ok(Basic::Boolean(read_four(cursor, order)? != 0)),
            BasicType::Int16 => {
                let word = read_two(cursor, order)?;
                Ok(Basic::Signed(i64::from(word.cast_signed())))
            }
            BasicType::Uint16 => Ok(Basic::Unsigned(u64::from(read_two(cursor, order)?))),
            BasicType::Int32 => {
                let word = read_four(cursor, order)?;
                Ok(Basic::Signed(i64::from(word.cast_signed())))
            }
            BasicType::Uint32 | BasicType::UnixFd => {
                Ok(Basic::Unsigned(u64::from(read_four(cursor, order)?)))
            }
            BasicType::Int64 => Ok(Basic::Signed(read_eight(cursor, order)?.cast_signed())),
            BasicType::Uint64 => Ok(Basic::Unsigned(read_eight(cursor, order)?)),
            BasicType::Double => Ok(Basic::Double(read_eight(cursor, order)?)),
            BasicType::String => read_text(cursor, order, TextType::String),
            BasicType::ObjectPath => read_text(cursor, order, TextType::ObjectPath),
            BasicType::Signature => {
                Ok(Basic::Text(TextType::Signature.read_value(cursor, order)?))
            }
        }
    }

    /// Adds the value, in words with a blank before it.
    pub(crate) fn put(
        self,
        alloc: Global,
        line: &mut Line,
        notation: Notation,
    ) -> Result<(), TextError> {
        match notation {
            Notation::Words => self.put_word(alloc, line),
            Notation::Json => self.put_json(alloc, line),
        }
    }

    /// Adds the value as a dict's key. Those of JSON are strings.
    pub(crate) fn put_key(
        self,
        alloc: Global,
        line: &mut Line,
        notation: Notation,
    ) -> Result<(), TextError> {
        match notation {
            Notation::Words => self.put_word(alloc, line),
            Notation::Json => {
                match self {
                    Basic::Text(_) => self.put_json(alloc, line)?,
                    _ => {
                        line.push_all(b"\"")?;
                        self.put_json(alloc, line)?;
                        line.push_all(b"\"")?;
                    }
                }
                Ok(line.push_all(b":")?)
            }
        }
    }

    fn put_word(self, alloc: Global, line: &mut Line) -> Result<(), TextError> {
        match self {
            Basic::Unsigned(n) => line.put_word(Buffer::new().format(n).as_bytes())?,
            Basic::Signed(n) => line.put_word(Buffer::new().format(n).as_bytes())?,
            Basic::Boolean(true) => line.put_word(b"true")?,
            Basic::Boolean(false) => line.put_word(b"false")?,
            Basic::Double(bits) => put_double(alloc, line, bits)?,
            Basic::Text(text) => line.put_quoted(text.as_bytes())?,
        }
        Ok(())
    }

    fn put_json(self, alloc: Global, line: &mut Line) -> Result<(), TextError> {
        match self {
            Basic::Unsigned(n) => line.put(Buffer::new().format(n).as_bytes())?,
            Basic::Signed(n) => line.put(Buffer::new().format(n).as_bytes())?,
            Basic::Boolean(true) => line.put(b"true")?,
            Basic::Boolean(false) => line.put(b"false")?,
            Basic::Double(bits) => put_json_double(alloc, line, bits)?,
            Basic::Text(text) => line.put_json(text)?,
        }
        Ok(())
    }
}
