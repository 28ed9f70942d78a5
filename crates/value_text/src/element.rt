// Elements of arrays.

ghost use Rattle.std.specs.Prelude.{◌<◌, ◌+◌, ◌^◌, length};

use crate::basic::Basic;
use message_value::{Cursor, Order, check_value};
use message_view::MsgError;
use signature::{BasicType, OneType};

/// An array has at most 64 MiB.
const MAX_ARRAY_LEN: u32 = 67108864;

/// What an array has elements of.
#[derive(Drop)]
pub(crate) enum Element<'a> {
    One(OneType<'a>),
    /// A dict's key and value.
    Entry(BasicType, OneType<'a>),
}

impl<'a> Element<'a> {
    /// An element's place is a multiple of this, in bytes.
    fn alignment(&self) -> usize
        ensures { 0 < result }
    {
        match self {
            Element::One(value_type) => value_type.alignment().max(1),
            Element::Entry(_, _) => 8,
        }
    }

    /// Goes over one element, at most `levels` levels deep.
    fn skip(&self, cursor: &mut Cursor<'_>, order: Order, levels: usize) -> Result<(), MsgError> {
        match self {
            Element::One(value_type) => check_value(cursor, order, value_type, levels),
            Element::Entry(key, value_type) => {
                cursor.align(8)?;
                Basic::read(cursor, order, *key)?;
                check_value(cursor, order, value_type, levels)
            }
        }
    }
}

/// The bytes of an array's elements, and how far after a multiple of 8 they begin.
#[derive(Clone, Copy)]
pub(crate) struct Elements<'a> {
    place: usize,
    bytes: &'a [u8],
    ghost bounded: { place + length bytes.now < 2 ^ 32 },
}

impl<'a> Elements<'a> {
    /// Reads an array's length and lends its elements.
    pub(crate) fn read(
        cursor: &mut Cursor<'a>,
        order: Order,
        element: &Element<'_>,
    ) -> Result<Elements<'a>, MsgError> {
        let len = cursor.word(order)?;
        if len > MAX_ARRAY_LEN {
            return Err(MsgError::ArrayLength);
        }
        cursor.align(element.alignment())?;
        let place = cursor.place() % 8;
        let bytes = cursor.item(len as usize)?;
        Ok(Elements { place, bytes })
    }

    /// How many bytes they have.
    pub(crate) fn len(self) -> usize {
        self.bytes.len()
    }

    /// A cursor before the first element.
    pub(crate) fn cursor(self) -> Cursor<'a> {
        Cursor::new(self.place, self.bytes, MsgError::ArrayLength)
    }

    /// The number of elements. Each has at least a byte.
    pub(crate) fn count(
        self,
        order: Order,
        element: &Element<'_>,
        levels: usize,
    ) -> Result<usize, MsgError> {
        let mut cursor = self.cursor();
        for counted in 0..self.bytes.len() {
            if cursor.is_empty() {
                return Ok(counted);
            }
            element.skip(&mut cursor, order, levels)?;
        }
        Ok(self.bytes.len())
    }
}
