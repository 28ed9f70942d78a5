// Rules as texts.

ghost use Rattle.std.specs.Prelude.{◌≡◌, ◌++◌, IfOk, string_bytes};
ghost use Rattle.std.specs.List.{flat_map};
ghost use Rattle.rule_text.specs.RuleTexts.{condition_text, place_of, part_at, parts_at, parts_from, rule_text};

use crate::key_text::push_key;
use crate::quoting::push_quoted;
use match_key::{Field, Key, Source};
use match_rule::{Condition, Rule};
use std::alloc::{AllocError, Global};

/// The place of `eavesdrop`.
const EAVESDROP: u8 = 6;

/// How many places there are: one for each of 64 arguments after that.
const PLACES: u8 = 71;

fn push_condition(text: &mut String, condition: &Condition) -> Result<(), AllocError>
    ensures { IfOk result (λ _. string_bytes text.new ≡ string_bytes text.old ++ condition_text condition.now) }
{
    push_key(text, condition.key())?;
    text.push_str("=")?;
    push_quoted(text, condition.value())
}

/// Where a condition stands in a written rule, as dbus-daemon writes them: arguments come last, by their numbers.
fn place_of(key: Key) -> u8
    ensures { result ≡ place_of key }
{
    match key {
        Key::Kind => 0,
        Key::Compares(Source::Header(Field::Interface), _) => 1,
        Key::Compares(Source::Header(Field::Member), _) => 2,
        Key::Compares(Source::Header(Field::Path), _) => 3,
        Key::Sender => 4,
        Key::Compares(Source::Header(Field::Destination), _) => 5,
        Key::Eavesdrop => EAVESDROP,
        Key::Compares(Source::Arg(n), _) => EAVESDROP + 1 + n.number(),
    }
}

/// Adds a condition after a comma, if this is its place.
fn push_part(text: &mut String, place: u8, condition: &Condition) -> Result<(), AllocError>
    ensures { IfOk result (λ _. string_bytes text.new ≡ string_bytes text.old ++ part_at place condition.now) }
{
    if place_of(condition.key()) != place {
        return Ok(());
    }
    text.push_str(",")?;
    push_condition(text, condition)
}

/// Adds the conditions of a place.
fn push_conditions(text: &mut String, place: u8, conditions: &[Condition]) -> Result<(), AllocError>
    ensures { IfOk result (λ _. string_bytes text.new ≡ string_bytes text.old ++ flat_map (part_at place) conditions.now) }
{
    for condition in conditions {
        push_part(text, place, condition)?;
    }
    Ok(())
}

/// Adds all that stands at a place.
fn push_parts(text: &mut String, place: u8, rule: &Rule) -> Result<(), AllocError>
    ensures { IfOk result (λ _. string_bytes text.new ≡ string_bytes text.old ++ parts_at place rule.now) }
{
    push_conditions(text, place, rule.conditions())?;
    if place == EAVESDROP && rule.eavesdrops() {
        text.push_str(",eavesdrop='true'")?;
    }
    Ok(())
}

/// All parts, each after a comma.
fn parts(alloc: Global, rule: &Rule) -> Result<String, AllocError>
    ensures { IfOk result (λ text. string_bytes text ≡ parts_from rule.now 0 71) }
{
    let mut text = String::new(alloc);
    for place in 0..PLACES {
        push_parts(&mut text, place, rule)?;
    }
    Ok(text)
}

/// A rule as a client would write it (D-Bus Specification, "Match Rules"), with its keys in the order in which dbus-daemon tells
/// them: `eavesdrop='true'`, if it eavesdrops, and then arguments come last.
///
/// # Errors
///
/// Memory was refused.
pub fn rule_text(alloc: Global, rule: &Rule) -> Result<String, AllocError>
    ensures { IfOk result (λ text. string_bytes text ≡ rule_text rule.now) }
{
    let text = parts(alloc, rule)?;
    match text.as_str().strip_prefix(",") {
        Some(rest) => String::from_str(alloc, rest),
        None => Ok(text),
    }
}
