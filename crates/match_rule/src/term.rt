// What a part of a rule's text says.

ghost use Rattle.std.specs.Prelude.{◌≡◌};
ghost use Rattle.std.specs.String.{string_bytes};
ghost use Rattle.match_key.specs.declared.error.RuleError.TheVariants.{BadValue};
ghost use Rattle.match_rule.specs.Condition.{flag_named, is_field_value, is_arg_value, is_value, asks_if, term_of, term_with};
ghost use Rattle.match_rule.specs.Reading.{Gives, or_fault};

use crate::condition::Condition;
use crate::text::Text;
use match_key::{Field, Key, KindName, Relation, RuleError, Source};
use signature::{check_bus_name, check_interface, check_member, check_namespace, check_path};

/// A condition, or whether the rule eavesdrops.
#[derive(Debug, Drop)]
pub(crate) enum Term {
    Asks(Condition),
    Eavesdrop(bool),
}

/// `true` or `false`.
fn flag_named(word: &[u8]) -> Option<bool>
    ensures { result ≡ flag_named word.now }
{
    match word {
        b"true" => Some(true),
        b"false" => Some(false),
        _ => None,
    }
}

/// The term of a condition, where its value is allowed.
fn asks_if(allowed: bool, condition: Condition) -> Option<Term>
    ensures { result ≡ asks_if allowed condition }
{
    allowed.then_some(Term::Asks(condition))
}

/// Whether a field may be compared with the text.
fn is_field_value(field: Field, text: &str) -> bool
    ensures { result ≡ is_field_value field text.now }
{
    match field {
        Field::Interface => check_interface(text),
        Field::Member => check_member(text),
        Field::Path => check_path(text),
        Field::Destination => check_bus_name(text),
    }
}

/// Whether an argument may be compared with the text.
fn is_arg_value(relation: Relation, text: &str) -> bool
    ensures { result ≡ is_arg_value relation text.now }
{
    match relation {
        Relation::NameNamespace => check_namespace(text),
        Relation::Equal | Relation::PathNamespace | Relation::NestedPath => true,
    }
}

/// Whether a condition may compare the text at the source with this value, by the relation.
fn is_value(source: Source, relation: Relation, text: &str) -> bool
    ensures { result ≡ is_value source relation text.now }
{
    match source {
        Source::Header(field) => is_field_value(field, text),
        Source::Arg(_) => is_arg_value(relation, text),
    }
}

/// What a key and a text say, where the text is allowed for the key.
fn term_of(key: Key, text: String) -> Option<Term>
    ensures { result ≡ term_of key (string_bytes text) }
{
    let text = Text::new(text);
    match key {
        Key::Kind => KindName::of_word(text.as_str().as_bytes()).map(|kind| Term::Asks(
            Condition::Kind(kind),
        )),
        Key::Sender => asks_if(check_bus_name(text.as_str()), Condition::Sender(text)),
        Key::Compares(source, relation) => asks_if(
            is_value(source, relation, text.as_str()),
            Condition::Compares(source, relation, text),
        ),
        Key::Eavesdrop => flag_named(text.as_str().as_bytes()).map(|flag| Term::Eavesdrop(flag)),
    }
}

/// What a key and the bytes of a value say.
pub(crate) fn term_with(key: Key, value: Vec<u8>) -> Result<Term, RuleError>
    ensures { Gives (λ x. x) result (or_fault BadValue (term_with key value.items)) }
{
    let Ok(text) = String::from_utf8(value) else {
        return Err(RuleError::BadValue);
    };
    term_of(key, text).ok_or(RuleError::BadValue)
}
