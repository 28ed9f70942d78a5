// Which conditions hold of a message, of whose sender it is known that it owns each name or none.

ghost use Rattle.std.specs.Prelude.{◌≡◌, ◌↔◌, true, false, Some, IsTrue, IsSomeAnd, option_map};
ghost use Rattle.message_view.specs.Message.{Message};
ghost use Rattle.message_view.specs.Valid.{Valid};
ghost use Rattle.match_rule.specs.RuleTree.{is_owned_name};
ghost use Rattle.match_rule.specs.Holds.{Relates, text_at, ConditionHolds};

use crate::compared::{argument, compared_text, field_of};
use crate::namespace::{are_nested, is_in_namespace, is_in_path_namespace};
use match_key::{Relation, Source};
use match_rule::{Condition, is_owned_name};
use message_view::View;

/// The text that a message has at a source, if it has one that the relation compares.
fn text_at<'a>(source: Source, relation: Relation, view: &View<'a>) -> Option<&'a str>
    ensures { (m : Message) → Valid view.now m → option_map (λ text. text.now) result ≡ text_at source relation m }
{
    match source {
        Source::Header(field) => field_of(field, view),
        Source::Arg(n) => match argument(view, n.number()) {
            Some(argument) => compared_text(relation, argument),
            None => None,
        },
    }
}

/// Whether a text stands in the relation to the value.
fn relates(relation: Relation, text: &str, value: &str) -> bool
    ensures { IsTrue result ↔ Relates relation text.now value.now }
{
    match relation {
        Relation::Equal => text == value,
        Relation::PathNamespace => is_in_path_namespace(text, value),
        Relation::NameNamespace => is_in_namespace(text, value),
        Relation::NestedPath => are_nested(text, value),
    }
}

/// Whether a text is there and stands in the relation to the value.
fn is_related(relation: Relation, found: Option<&str>, value: &str) -> bool
    ensures { IsTrue result ↔ IsSomeAnd (option_map (λ text. text.now) found.entry) (λ text. Relates relation text value.now) }
{
    found.is_some_and(|text| relates(relation, text, value))
}

/// Whether a message was sent by a name: it is the sender's own, or `owns` says that the sender owns it.
fn is_sent_by(sender: Option<&str>, name: &str, owns: bool) -> bool
    ensures owned { is_owned_name name.now ≡ true → result ≡ owns }
    ensures other { is_owned_name name.now ≡ false → (IsTrue result ↔ (option_map (λ name. name.now) sender.entry ≡ Some name.now)) }
{
    if is_owned_name(name) {
        owns
    } else {
        sender == Some(name)
    }
}

/// Whether a condition holds of a message. `owns` says whether the message's sender owns the name that it asks for.
pub fn holds(condition: &Condition, view: &View<'_>, owns: bool) -> bool
    ensures { (m : Message) → Valid view.now m → (IsTrue result ↔ ConditionHolds condition.now m (λ name. owns)) }
{
    match condition {
        Condition::Kind(kind) => view.kind() == kind.kind(),
        Condition::Sender(name) => is_sent_by(view.sender(), name.as_str(), owns),
        Condition::Compares(source, relation, value) => {
            is_related(*relation, text_at(*source, *relation, view), value.as_str())
        }
    }
}
