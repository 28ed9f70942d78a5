// Of which messages conditions hold.

ghost use Rattle.std.specs.Prelude.{◌≡◌, ◌↔◌, ◌⊎◌, ℕ, Bool, true, false, List, [], ◌∷◌, ◌++◌, None, Some, IsTrue, IfSome, IsSomeAnd, All, option_map, slice_get};
ghost use Rattle.message_value.specs.ShownArguments.{shown_arg};
ghost use Rattle.message_view.specs.Message.{Message, destination_of};
ghost use Rattle.message_view.specs.Spelling.{arguments_of};
ghost use Rattle.message_view.specs.Valid.{Valid};
ghost use Rattle.match_rule.specs.RuleTree.{is_owned_name, owned_name_in};
ghost use Rattle.match_rule.specs.Arguments.{text_in};
ghost use Rattle.match_rule.specs.Holds.{Relates, field_of, is_compared, compared_text, text_at, ConditionHolds};

use crate::condition::Condition;
use crate::namespace::{are_nested, is_in_namespace, is_in_path_namespace};
use crate::sender::is_owned_name;
use match_key::{Field, Relation, Source};
use message_view::{Arg, View};

/// An argument that is a text: the code of its type, and its characters.
#[derive(Clone, Copy)]
struct TextArg<'a> {
    code: u8,
    text: &'a str,
}

/// An argument, where it is a text.
fn text_of<'a>(arg: Option<Arg<'a>>) -> Option<TextArg<'a>>
    ensures { option_map (λ a. (a.code, a.text.now)) result ≡ text_in (option_map shown_arg arg.entry) }
{
    let arg = arg?;
    let text = arg.text?;
    Some(TextArg {
        code: arg.code,
        text,
    })
}

/// Argument n of a message, where it is a text.
fn argument<'a>(view: &View<'a>, n: u8) -> Option<TextArg<'a>>
    ensures { (m : Message) → Valid view.now m → option_map (λ a. (a.code, a.text.now)) result ≡ text_in (slice_get (arguments_of m) n) }
{
    text_of(view.args().nth(usize::from(n)))
}

/// Whether a relation compares arguments of the type of this code.
fn is_compared(relation: Relation, code: u8) -> bool
    ensures { result ≡ is_compared relation code }
{
    match relation {
        Relation::NestedPath => matches!(code, b's' | b'o'),
        Relation::Equal | Relation::PathNamespace | Relation::NameNamespace => code == b's',
    }
}

/// The text of an argument, where it is of a type that the relation compares.
fn compared_text<'a>(relation: Relation, argument: Option<TextArg<'a>>) -> Option<&'a str>
    ensures { option_map (λ text. text.now) result ≡ compared_text relation (option_map (λ a. (a.code, a.text.now)) argument.entry) }
{
    match argument {
        Some(argument) if is_compared(relation, argument.code) => Some(argument.text),
        _ => None,
    }
}

/// The text of a header field.
fn field_of<'a>(field: Field, view: &View<'a>) -> Option<&'a str>
    ensures { (m : Message) → Valid view.now m → option_map (λ text. text.now) result ≡ field_of field m }
{
    match field {
        Field::Interface => view.interface(),
        Field::Member => view.member(),
        Field::Path => view.path(),
        Field::Destination => view.destination(),
    }
}

/// The text that a message has at a source, if it has one that the relation compares.
fn text_at<'a>(source: Source, relation: Relation, view: &View<'a>) -> Option<&'a str>
    ensures { (m : Message) → Valid view.now m → option_map (λ text. text.now) result ≡ text_at source relation m }
{
    match source {
        Source::Header(field) => field_of(field, view),
        Source::Arg(n) => compared_text(relation, argument(view, n.number())),
    }
}

/// Whether a text stands in the relation to the value.
fn relates(relation: Relation, text: &str, value: &str) -> bool
    ensures { IsTrue result ↔ Relates relation text.now value.now }
{
    match relation {
        Relation::Equal => text == value,
        Relation::PathNamespace => is_in_path_namespace(text, value),
        Relation::NameNamespace => is_in_namespace(text, value),
        Relation::NestedPath => are_nested(text, value),
    }
}

/// Whether a text is there and stands in the relation to the value.
fn is_related(relation: Relation, found: Option<&str>, value: &str) -> bool
    ensures { IsTrue result ↔ IsSomeAnd (option_map (λ text. text.now) found.entry) (λ text. Relates relation text value.now) }
{
    found.is_some_and(|text| relates(relation, text, value))
}

/// Whether a message was sent by a name: it is the sender's own, or `owns` says that the sender owns it.
fn is_sent_by(sender: Option<&str>, name: &str, owns: bool) -> bool
    ensures owned { is_owned_name name.now ≡ true → result ≡ owns }
    ensures other { is_owned_name name.now ≡ false → (IsTrue result ↔ (option_map (λ name. name.now) sender.entry ≡ Some name.now)) }
{
    if is_owned_name(name) {
        owns
    } else {
        sender == Some(name)
    }
}

/// Whether a condition holds of a message. `owns` says whether the message's sender is the primary owner of the name
/// that the condition asks for.
fn holds(condition: &Condition, view: &View<'_>, owns: bool) -> bool
    ensures { (m : Message) (owned : List ℕ → Bool) → Valid view.now m → IfSome (owned_name_in condition.now) (λ name. owned name ≡ owns) → (IsTrue result ↔ ConditionHolds condition.now m owned) }
{
    match condition {
        Condition::Kind(kind) => view.kind() == kind.kind(),
        Condition::Sender(name) => is_sent_by(view.sender(), name.as_str(), owns),
        Condition::Compares(source, relation, value) => {
            is_related(*relation, text_at(*source, *relation, view), value.as_str())
        }
    }
}

/// Whether a message is offered to a rule: it has no destination, or the rule eavesdrops.
pub(crate) fn is_offered(view: &View<'_>, eavesdrops: bool) -> bool
    ensures { (m : Message) → Valid view.now m → (IsTrue result ↔ ((destination_of m ≡ None) ⊎ (eavesdrops ≡ true))) }
{
    eavesdrops || view.destination().is_none()
}

/// Whether each condition holds of a message. `owns` says whether the message's sender is the primary owner of each
/// name that they ask for.
pub(crate) fn all_hold(conditions: &[Condition], view: &View<'_>, owns: bool) -> bool
    ensures { (m : Message) (owned : List ℕ → Bool) → Valid view.now m → All (λ c. IfSome (owned_name_in c) (λ name. owned name ≡ owns)) conditions.now → (IsTrue result ↔ All (λ c. ConditionHolds c m owned) conditions.now) }
{
    for condition in conditions {
        if !holds(condition, view, owns) {
            return false;
        }
    }
    true
}
