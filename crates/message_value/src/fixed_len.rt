// Arrays of numbers that needn't be looked at.

ghost use Rattle.std.specs.Prelude.{◌%◌, ◌<◌, ◌==◌, length, IfSome};
ghost use Rattle.signature.specs.DataType.{DataType, TypeText};
ghost use Rattle.message_value.specs.Steps.{Divides};
ghost use Rattle.message_value.specs.Forms.{AreNumbers};

use crate::basic_form::BasicForm;
use crate::cursor::Cursor;
use crate::error::MsgError;
use signature::{OneType, Parts};

/// How many bytes each value of a type has, where any bytes are a value.
pub(crate) fn fixed_len(value_type: &OneType<'_>) -> Option<usize>
    ensures { IfSome result (λ len. (type : DataType) → TypeText type value_type.now → AreNumbers len type) }
{
    match value_type.parts() {
        Parts::Basic(basic) => match BasicForm::of(basic) {
            BasicForm::Number(len) => Some(len),
            BasicForm::Text(_) | BasicForm::Boolean => None,
        },
        Parts::Variant | Parts::Array(_) | Parts::Dict(_, _) | Parts::Struct(_) => None,
    }
}

/// Whether an array, whose elements have `len` bytes each, holds a whole number of them.
pub(crate) fn check_fixed(inner: &Cursor<'_>, len: usize) -> Result<(), MsgError>
    requires { 0 < len }
    ensures { Divides (length inner.now.rest % len == 0) result }
{
    if inner.len() % len == 0 {
        Ok(())
    } else {
        Err(MsgError::ArrayLength)
    }
}
