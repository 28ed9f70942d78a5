// What conditions compare with their values.

ghost use Rattle.std.specs.Prelude.{◌≡◌, Some, option_map, slice_get};
ghost use Rattle.message_value.specs.ShownArguments.{shown_arg};
ghost use Rattle.message_view.specs.Message.{Message};
ghost use Rattle.message_view.specs.Spelling.{arguments_of};
ghost use Rattle.message_view.specs.Valid.{Valid};
ghost use Rattle.match_rule.specs.Arguments.{text_in};
ghost use Rattle.match_rule.specs.Holds.{field_of, is_compared, compared_text};

use match_key::{Field, Relation};
use message_view::{Arg, View};

/// The text of a header field.
pub(crate) fn field_of<'a>(field: Field, view: &View<'a>) -> Option<&'a str>
    ensures { (m : Message) → Valid view.now m → option_map (λ text. text.now) result ≡ field_of field m }
{
    match field {
        Field::Interface => view.interface(),
        Field::Member => view.member(),
        Field::Path => view.path(),
        Field::Destination => view.destination(),
    }
}

/// Argument n of a message.
pub(crate) fn argument<'a>(view: &View<'a>, n: u8) -> Option<Arg<'a>>
    ensures { (m : Message) → Valid view.now m → option_map shown_arg result ≡ slice_get (arguments_of m) n }
{
    view.args().nth(usize::from(n))
}

/// Whether a relation compares arguments of the type of this code.
fn is_compared(relation: Relation, code: u8) -> bool
    ensures { result ≡ is_compared relation code }
{
    match relation {
        Relation::NestedPath => matches!(code, b's' | b'o'),
        Relation::Equal | Relation::PathNamespace | Relation::NameNamespace => code == b's',
    }
}

/// The text of an argument, where it is of a type that the relation compares.
pub(crate) fn compared_text<'a>(relation: Relation, argument: Arg<'a>) -> Option<&'a str>
    ensures { option_map (λ text. text.now) result ≡ compared_text relation (text_in (Some (shown_arg argument.entry))) }
{
    if is_compared(relation, argument.code) {
        argument.text
    } else {
        None
    }
}
