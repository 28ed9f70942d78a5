// The notations of values.

use crate::line::Line;
use itoa::Buffer;
use std::alloc::AllocError;

/// How `busctl` writes values.
#[derive(Clone, Copy, Debug, PartialEq, Eq)]
pub enum Notation {
    /// Words with a blank before each: an array's count, a dict's count and the keys before their values, a variant's type,
    /// and the members of a struct one after another.
    Words,
    /// JSON (RFC 8259): arrays and structs are arrays, dicts are objects, and a variant is an object of its type and its
    /// data.
    Json,
}

impl Notation {
    /// Adds what stands before a variant's value.
    pub(crate) fn begin_variant(self, line: &mut Line, type_text: &[u8]) -> Result<(), AllocError> {
        match self {
            Notation::Words => line.put_word(type_text),
            Notation::Json => {
                line.push_all(b"{\"type\":\"")?;
                line.put(type_text)?;
                line.push_all(b"\",\"data\":")
            }
        }
    }

    /// Adds what stands after a variant's value.
    pub(crate) fn end_variant(self, line: &mut Line) -> Result<(), AllocError> {
        match self {
            Notation::Words => Ok(()),
            Notation::Json => line.push_all(b"}"),
        }
    }

    /// Adds what stands before an array's elements.
    pub(crate) fn begin_array(
        self,
        line: &mut Line,
        count: usize,
        is_dict: bool,
    ) -> Result<(), AllocError> {
        match self {
            Notation::Words => line.put_word(Buffer::new().format(count).as_bytes()),
            Notation::Json if is_dict => line.push_all(b"{"),
            Notation::Json => line.push_all(b"["),
        }
    }

    /// Adds what stands after an array's elements.
    pub(crate) fn end_array(self, line: &mut Line, is_dict: bool) -> Result<(), AllocError> {
        match self {
            Notation::Words => Ok(()),
            Notation::Json if is_dict => line.push_all(b"}"),
            Notation::Json => line.push_all(b"]"),
        }
    }

    /// Adds what stands before the members of a struct, or the arguments of a message.
    pub(crate) fn begin_members(self, line: &mut Line) -> Result<(), AllocError> {
        match self {
            Notation::Words => Ok(()),
            Notation::Json => line.push_all(b"["),
        }
    }

    /// Adds what stands after them.
    pub(crate) fn end_members(self, line: &mut Line) -> Result<(), AllocError> {
        match self {
            Notation::Words => Ok(()),
            Notation::Json => line.push_all(b"]"),
        }
    }

    /// Adds what stands between an element or a member and the one before it.
    pub(crate) fn separate(self, line: &mut Line, is_first: bool) -> Result<(), AllocError> {
        match self {
            Notation::Json if !is_first => line.push_all(b","),
            _ => Ok(()),
        }
    }
}
