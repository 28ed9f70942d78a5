// The forms that values of basic types have.

ghost use Rattle.signature.specs.BasicType.{byte_of};
ghost use Rattle.message_value.specs.Reading.{number_value_at, text_value_at};
ghost use Rattle.message_value.specs.Forms.{IsFormOf, basic_at};
ghost use Rattle.message_value.specs.Answers.{Checks};

use crate::cursor::Cursor;
use crate::error::MsgError;
use crate::order::Order;
use crate::text::TextType;
use signature::BasicType;

/// The form of the values of a basic type.
#[derive(Clone, Copy, Debug)]
pub(crate) enum BasicForm {
    Text(TextType),
    /// A number of four bytes that is 0 or 1.
    Boolean,
    /// A number of n bytes, any bits of which are a value.
    Number(usize),
}

impl BasicForm {
    pub(crate) fn of(basic: BasicType) -> Self
        ensures { IsFormOf (byte_of basic) result }
    {
        match basic {
            BasicType::String => BasicForm::Text(TextType::String),
            BasicType::ObjectPath => BasicForm::Text(TextType::ObjectPath),
            BasicType::Signature => BasicForm::Text(TextType::Signature),
            BasicType::Boolean => BasicForm::Boolean,
            BasicType::Byte => BasicForm::Number(1),
            BasicType::Int16 | BasicType::Uint16 => BasicForm::Number(2),
            BasicType::Int32 | BasicType::Uint32 | BasicType::UnixFd => BasicForm::Number(4),
            BasicType::Int64 | BasicType::Uint64 | BasicType::Double => BasicForm::Number(8),
        }
    }
}

/// A boolean after its padding.
#[tactic(auto, unfolding(crate::specs::Reading::number_value_at, crate::specs::Reading::word_at))]
fn check_boolean(cursor: &mut Cursor<'_>, order: Order) -> Result<(), MsgError>
    ensures { Checks result cursor.new (number_value_at order 98 cursor.old) }
{
    let word = cursor.word(order)?;
    if word > 1 {
        return Err(MsgError::BadBool);
    }
    Ok(())
}

/// A value of a basic type, with the zeros before it.
#[tactic(auto, unfolding(crate::specs::Forms::basic_at, crate::specs::Reading::number_value_at))]
#[inline(always)]
pub(crate) fn check_basic(
    cursor: &mut Cursor<'_>,
    order: Order,
    basic: BasicType,
) -> Result<(), MsgError>
    ensures { Checks result cursor.new (basic_at order (byte_of basic) cursor.old) }
{
    cursor.align(basic.alignment())?;
    match BasicForm::of(basic) {
        BasicForm::Text(text) => {
            text.read_value(cursor, order)?;
        }
        BasicForm::Boolean => check_boolean(cursor, order)?,
        BasicForm::Number(len) => {
            cursor.item(len)?;
        }
    }
    Ok(())
}
