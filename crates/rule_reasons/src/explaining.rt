// Why a rule doesn't hold of a message.

ghost use Rattle.std.specs.Prelude.{◌≡◌, ◌++◌, ℕ, List, OnOk, option_map, string_bytes, if◌then◌else◌};
ghost use Rattle.message_view.specs.Message.{Message, destination_of};
ghost use Rattle.message_view.specs.Valid.{Valid};
ghost use Rattle.rule_reasons.specs.Reasons.{AreReasons, to_text, lines_to, destination_lines, AreAllReasons, after_fronts};
ghost use Rattle.rule_reasons.specs.Steps.{Adds};

use crate::holding::holds;
use crate::reason::push_reason;
use crate::shown::push_quoted;
use match_rule::{Condition, Rule};
use message_view::View;
use std::alloc::AllocError;

/// Adds the line of a condition, if it doesn't hold.
fn push_condition(
    text: &mut String,
    front: &str,
    condition: &Condition,
    view: &View<'_>,
    owns: bool,
) -> Result<(), AllocError>
    ensures { OnOk result ((m : Message) → Valid view.now m → (lines : List (List ℕ)) × Adds m owns condition.now lines × (string_bytes text.new ≡ string_bytes text.old ++ after_fronts front.now lines)) }
{
    if holds(condition, view, owns) {
        return Ok(());
    }
    text.push_str(front)?;
    push_reason(text, condition, view)?;
    Ok(())
}

/// Adds the lines of the conditions that don't hold.
fn push_conditions(
    text: &mut String,
    front: &str,
    conditions: &[Condition],
    view: &View<'_>,
    owns: bool,
) -> Result<(), AllocError>
    ensures { OnOk result ((m : Message) → Valid view.now m → (lines : List (List ℕ)) × AreReasons m owns conditions.now lines × (string_bytes text.new ≡ string_bytes text.old ++ after_fronts front.now lines)) }
{
    for condition in conditions {
        push_condition(text, front, condition, view, owns)?;
    }
    Ok(())
}

/// Adds that a message is to somebody, and that the rule doesn't eavesdrop.
fn push_to(text: &mut String, name: &str) -> Result<(), AllocError>
    ensures { OnOk result (string_bytes text.new ≡ string_bytes text.old ++ to_text name.now) }
{
    text.push_str("the message is to ")?;
    push_quoted(text, name)?;
    text.push_str(", and the rule doesn't eavesdrop")
}

/// Adds to whom a message is, if it is to somebody.
fn push_destination(
    text: &mut String,
    front: &str,
    destination: Option<&str>,
) -> Result<(), AllocError>
    ensures { OnOk result (string_bytes text.new ≡ string_bytes text.old ++ after_fronts front.now (lines_to (option_map (λ text. text.now) destination.entry))) }
{
    match destination {
        None => Ok(()),
        Some(name) => {
            text.push_str(front)?;
            push_to(text, name)?;
            Ok(())
        }
    }
}

/// Adds why a rule doesn't hold of a message, with `front` before each line: a line for each condition that doesn't hold,
/// in the rule's order, and one where the message is to somebody and the rule doesn't eavesdrop. `owns` says whether the
/// message's sender owns the rule's sender name.
///
/// # Errors
///
/// Memory was refused.
pub fn push_reasons(
    text: &mut String,
    front: &str,
    rule: &Rule,
    view: &View<'_>,
    owns: bool,
) -> Result<(), AllocError>
    ensures { OnOk result ((m : Message) → Valid view.now m → (lines : List (List ℕ)) × AreAllReasons rule.now m owns lines × (string_bytes text.new ≡ string_bytes text.old ++ after_fronts front.now lines)) }
{
    push_conditions(text, front, rule.conditions(), view, owns)?;
    if rule.eavesdrops() {
        return Ok(());
    }
    push_destination(text, front, view.destination())?;
    Ok(())
}
