// What a message has in place of what a condition asks for.

ghost use Rattle.std.specs.Prelude.{◌≡◌, ◌++◌, OnOk, option_map, string_bytes};
ghost use Rattle.message_value.specs.ShownArguments.{shown_arg};
ghost use Rattle.message_view.specs.Message.{Message};
ghost use Rattle.message_view.specs.Valid.{Valid};
ghost use Rattle.rule_reasons.specs.Reasons.{kind_text, found_words, none_words, field_text, type_text, content_text, no_argument_text, argument_text, sender_text, found_text, reason_line};

use crate::compared::{argument, compared_text, field_of};
use crate::key_words::push_key;
use crate::shown::push_quoted;
use itoa::Buffer;
use match_key::{Relation, Source};
use match_rule::{Condition, is_owned_name};
use message_view::{Arg, Kind, View};
use std::alloc::AllocError;

fn push_kind(text: &mut String, kind: Kind) -> Result<(), AllocError>
    ensures { OnOk result (string_bytes text.new ≡ string_bytes text.old ++ kind_text kind) }
{
    match kind {
        Kind::MethodCall => text.push_str("it is a method call"),
        Kind::MethodReturn => text.push_str("it is a method return"),
        Kind::Error => text.push_str("it is an error"),
        Kind::Signal => text.push_str("it is a signal"),
        Kind::Other(byte) => {
            text.push_str("it is of kind ")?;
            text.push_str(Buffer::new().format(byte))
        }
    }
}

/// What comes before the text of a field.
fn found_words(relation: Relation) -> &'static str
    ensures { result.now ≡ found_words relation }
{
    match relation {
        Relation::PathNamespace => "the path is ",
        Relation::Equal | Relation::NameNamespace | Relation::NestedPath => "it is ",
    }
}

fn none_words(relation: Relation) -> &'static str
    ensures { result.now ≡ none_words relation }
{
    match relation {
        Relation::PathNamespace => "there is no path",
        Relation::Equal | Relation::NameNamespace | Relation::NestedPath => "there is none",
    }
}

fn push_field(text: &mut String, relation: Relation, found: Option<&str>) -> Result<(), AllocError>
    ensures { OnOk result (string_bytes text.new ≡ string_bytes text.old ++ field_text relation (option_map (λ text. text.now) found.entry)) }
{
    match found {
        None => text.push_str(none_words(relation)),
        Some(found) => {
            text.push_str(found_words(relation))?;
            push_quoted(text, found)
        }
    }
}

/// What a type with this first byte is.
fn type_text(code: u8) -> &'static str
    ensures { result.now ≡ type_text code }
{
    match code {
        b'y' => "a number (y)",
        b'n' => "a number (n)",
        b'q' => "a number (q)",
        b'i' => "a number (i)",
        b'u' => "a number (u)",
        b'x' => "a number (x)",
        b't' => "a number (t)",
        b'd' => "a number (d)",
        b'b' => "a boolean (b)",
        b's' => "a string (s)",
        b'o' => "an object path (o)",
        b'g' => "a signature (g)",
        b'h' => "a file descriptor (h)",
        b'v' => "a variant (v)",
        b'a' => "an array (a)",
        _ => "a struct",
    }
}

fn push_content(text: &mut String, code: u8, found: Option<&str>) -> Result<(), AllocError>
    ensures { OnOk result (string_bytes text.new ≡ string_bytes text.old ++ content_text code (option_map (λ text. text.now) found.entry)) }
{
    match found {
        None => text.push_str(type_text(code)),
        Some(found) => push_quoted(text, found),
    }
}

fn push_no_argument(text: &mut String, n: u8) -> Result<(), AllocError>
    ensures { OnOk result (string_bytes text.new ≡ string_bytes text.old ++ no_argument_text n) }
{
    text.push_str("argument ")?;
    text.push_str(Buffer::new().format(n))?;
    text.push_str(" isn't there")
}

fn push_argument(
    text: &mut String,
    relation: Relation,
    n: u8,
    argument: Option<Arg<'_>>,
) -> Result<(), AllocError>
    ensures { OnOk result (string_bytes text.new ≡ string_bytes text.old ++ argument_text relation n (option_map shown_arg argument.entry)) }
{
    match argument {
        None => push_no_argument(text, n),
        Some(argument) => {
            text.push_str("argument ")?;
            text.push_str(Buffer::new().format(n))?;
            text.push_str(" is ")?;
            push_content(text, argument.code, compared_text(relation, argument))
        }
    }
}

/// Adds the sender, where a rule asks for one by its own name. A message has no other name of its sender.
fn push_sender(text: &mut String, name: &str, sender: Option<&str>) -> Result<(), AllocError>
    ensures { OnOk result (string_bytes text.new ≡ string_bytes text.old ++ sender_text name.now (option_map (λ text. text.now) sender.entry)) }
{
    if is_owned_name(name) {
        text.push_str("a message doesn't say which names its sender owns (--owns)")
    } else {
        push_field(text, Relation::Equal, sender)
    }
}

fn push_found(text: &mut String, condition: &Condition, view: &View<'_>) -> Result<(), AllocError>
    ensures { OnOk result ((m : Message) → Valid view.now m → string_bytes text.new ≡ string_bytes text.old ++ found_text condition.now m) }
{
    match condition {
        Condition::Kind(_) => push_kind(text, view.kind()),
        Condition::Sender(name) => push_sender(text, name.as_str(), view.sender()),
        Condition::Compares(Source::Header(field), relation, _) => {
            push_field(text, *relation, field_of(*field, view))
        }
        Condition::Compares(Source::Arg(n), relation, _) => {
            push_argument(text, *relation, n.number(), argument(view, n.number()))
        }
    }
}

/// Adds a condition as a rule has it, and what a message has in its place.
pub(crate) fn push_reason(
    text: &mut String,
    condition: &Condition,
    view: &View<'_>,
) -> Result<(), AllocError>
    ensures { OnOk result ((m : Message) → Valid view.now m → string_bytes text.new ≡ string_bytes text.old ++ reason_line condition.now m) }
{
    push_key(text, condition.key())?;
    text.push_str("=")?;
    push_quoted(text, condition.value())?;
    text.push_str(": ")?;
    push_found(text, condition, view)
}
