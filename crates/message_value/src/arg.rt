// One argument of a message.

ghost use Rattle.std.specs.Prelude.{◌≡◌, Ok, MatchOption};
ghost use Rattle.signature.specs.DataType.{DataType, TypeText, basic};
ghost use Rattle.signature.specs.Alignment.{alignment_of};
ghost use Rattle.message_value.specs.Value.{Value};
ghost use Rattle.message_value.specs.Spelling.{align_up};
ghost use Rattle.message_value.specs.Reading.{At, text_value_at, value_at, IsRead};
ghost use Rattle.message_value.specs.Arguments.{text_start};
ghost use Rattle.message_value.specs.Steps.{IsAligned};
ghost use Rattle.message_value.specs.Forms.{IsNoText};
ghost use Rattle.message_value.specs.TextTypes.{text_code};
ghost use Rattle.message_value.specs.Bytes.{AreBytes};
ghost use Rattle.message_value.specs.ArgumentsLeft.{ShowsArgument};

use crate::basic_form::BasicForm;
use crate::cursor::Cursor;
use crate::order::Order;
use crate::skip::skip_value;
use crate::text::TextType;
use signature::{OneType, Parts};

/// An argument where it lies in the message: the first byte of its type, where it begins, counted from the
/// message's start, and how many bytes it has. Of a text these are the text's, which it lends.
#[derive(Clone, Copy, Debug)]
pub struct Arg<'a> {
    pub code: u8,
    pub place: u32,
    pub len: u32,
    pub text: Option<&'a str>,
}

impl TextType {
    /// How many bytes a text's length has.
    fn start(self) -> u32
        ensures { result ≡ text_start (text_code self) }
    {
        match self {
            TextType::Signature => 1,
            TextType::String | TextType::ObjectPath => 4,
        }
    }

    /// The type whose values are texts that this is, if it is one.
    fn of(value_type: &OneType<'_>) -> Option<TextType>
        ensures { (type : DataType) → TypeText type value_type.now → MatchOption result (IsNoText type) (λ text. type ≡ basic (text_code text)) }
    {
        match value_type.parts() {
            Parts::Basic(basic) => match BasicForm::of(basic) {
                BasicForm::Text(text_type) => Some(text_type),
                BasicForm::Boolean | BasicForm::Number(_) => None,
            },
            Parts::Variant | Parts::Array(_) | Parts::Dict(_, _) | Parts::Struct(_) => None,
        }
    }
}

/// A text after its padding, as an argument.
fn text_arg<'a>(cursor: &mut Cursor<'a>, order: Order, text_type: TextType) -> Arg<'a>
    requires { IsRead (text_value_at order (text_code text_type) cursor.old) }
    ensures { ShowsArgument order (basic (text_code text_type)) cursor.old.place result cursor.new (text_value_at order (text_code text_type) cursor.old) }
{
    let start = cursor.place_word();
    let text = text_type.skip_value(cursor, order);
    Arg {
        code: text_type.code(),
        place: start + text_type.start(),
        len: text.len() as u32,
        text: Some(text),
    }
}

/// A value that is no text, as an argument.
fn other_arg<'a>(
    cursor: &mut Cursor<'a>,
    order: Order,
    value_type: &OneType<'_>,
    levels: usize,
) -> Arg<'a>
    requires { (type : DataType) × TypeText type value_type.now × IsRead (value_at levels order type cursor.old) }
    ensures { (type : DataType) → TypeText type value_type.now → IsNoText type → IsAligned (alignment_of type) cursor.old.place → ShowsArgument order type cursor.old.place result cursor.new (value_at levels order type cursor.old) }
{
    let code = value_type.as_bytes()[0];
    let place = cursor.place_word();
    let rest = cursor.rest();
    skip_value(cursor, order, value_type, levels);
    Arg {
        code,
        place,
        len: (rest.len() - cursor.rest().len()) as u32,
        text: None,
    }
}

/// A value that was checked, as an argument.
pub(crate) fn read_arg<'a>(
    cursor: &mut Cursor<'a>,
    order: Order,
    value_type: &OneType<'_>,
    levels: usize,
) -> Arg<'a>
    requires { (type : DataType) × TypeText type value_type.now × IsRead (value_at levels order type cursor.old) }
    ensures bytes { AreBytes cursor.old.rest }
    ensures shows { (type : DataType) → TypeText type value_type.now → ShowsArgument order type (align_up (alignment_of type) cursor.old.place) result cursor.new (value_at levels order type cursor.old) }
{
    cursor.skip_padding(value_type.alignment());
    match TextType::of(value_type) {
        Some(text_type) => text_arg(cursor, order, text_type),
        None => other_arg(cursor, order, value_type, levels),
    }
}
