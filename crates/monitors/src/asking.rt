// Who owns the names that rules ask for.

ghost use Rattle.std.specs.Prelude.{◌≡◌, ◌↔◌, ℕ, List, IfSome, IsTrue, MatchBool, All, Any, option_map};
ghost use Rattle.message_view.specs.Message.{Message, destination_of};
ghost use Rattle.message_view.specs.Valid.{Valid};
ghost use Rattle.match_rule.specs.RuleTree.{sender_name_of};
ghost use Rattle.monitors.specs.Sending.{HoldsAsLed, HoldsIfSent, IsLed, SaysIfSent, destination_asked, destination_in};
ghost use Rattle.monitors.specs.Wanting.{HoldsFor, FailsFor};

use match_rule::{Condition, Field, Key, Relation, Rule, Source};
use message_view::View;
use rule_reasons::holds;

/// Who owns the names that rules ask for.
pub trait Owners {
    ghost use Rattle.std.specs.Prelude.{ℕ, Bool, List};

    /// What may be answered of a name, and of two. Owners change at any time, so it may be this now and that later.
    ghost answers: { Self → List ℕ → Bool → Type 0 };

    ghost unites: { Self → List ℕ → List ℕ → Bool → Type 0 };

    /// Whether the message's sender is the primary owner of the name.
    fn owns(&self, name: &str) -> bool
        ensures { answers self.now name.now result };

    /// Whether both names have the same primary owner. A unique name is its own connection's.
    fn have_one_owner(&self, name: &str, other: &str) -> bool
        ensures { unites self.now name.now other.now result };
}

/// Whether the sender owns the name that the rule asks for as the sender's, if it asks for one.
fn owns_sender_name<O: Owners>(rule: &Rule, owners: &O) -> bool
    ensures { IfSome (sender_name_of rule.now) (λ name. O.answers owners.now name result) }
{
    match rule.sender_name() {
        Some(name) => owners.owns(name),
        None => false,
    }
}

/// The name that a condition asks for as the destination.
fn destination_in(condition: &Condition) -> Option<&str>
    ensures { option_map (λ text. text.now) result ≡ destination_in condition.now }
{
    if condition.key() == Key::Compares(Source::Header(Field::Destination), Relation::Equal) {
        Some(condition.value())
    } else {
        None
    }
}

fn first_destination(conditions: &[Condition]) -> Option<&str>
    ensures { option_map (λ text. text.now) result ≡ destination_asked conditions.now }
{
    for condition in conditions {
        let found = destination_in(condition);
        if found.is_some() {
            return found;
        }
    }
    None
}

/// The name that a rule asks for as the destination.
pub(crate) fn destination_asked(rule: &Rule) -> Option<&str>
    ensures { option_map (λ text. text.now) result ≡ destination_asked rule.now.conditions }
{
    first_destination(rule.conditions())
}

/// Whether a message is sent to a name of the connection that owns the name which a rule asks for as the destination.
fn is_led<O: Owners>(asked: Option<&str>, to: Option<&str>, owners: &O) -> bool
    ensures { IsLed (O.unites owners.now) (option_map (λ text. text.now) to.entry) (option_map (λ text. text.now) asked.entry) result }
{
    match (to, asked) {
        (Some(to), Some(name)) => owners.have_one_owner(to, name),
        (Some(_), None) | (None, _) => false,
    }
}

/// Whether a condition holds of a message as if it were sent to this name.
fn says_if_sent(condition: &Condition, view: &View<'_>, owns: bool, to: &str) -> bool
    ensures { (m : Message) → Valid view.now m → (IsTrue result ↔ SaysIfSent to.now m (λ name. owns) condition.now) }
{
    match destination_in(condition) {
        Some(name) => to == name,
        None => holds(condition, view, owns),
    }
}

/// Whether each condition holds of a message as if it were sent to this name.
fn all_say_if_sent(conditions: &[Condition], view: &View<'_>, owns: bool, to: &str) -> bool
    ensures { (m : Message) → Valid view.now m → (IsTrue result ↔ All (SaysIfSent to.now m (λ name. owns)) conditions.now) }
{
    for condition in conditions {
        if !says_if_sent(condition, view, owns, to) {
            return false;
        }
    }
    true
}

/// Whether a rule holds of a message as if it were sent to this name.
fn holds_if_sent(rule: &Rule, view: &View<'_>, owns: bool, to: &str) -> bool
    ensures { (m : Message) → Valid view.now m → (IsTrue result ↔ HoldsIfSent to.now rule.now m (λ name. owns)) }
{
    rule.eavesdrops() && all_say_if_sent(rule.conditions(), view, owns, to)
}

/// Whether a rule holds of a message, or as if it were sent to the name that the rule asks for, if it is led there.
fn holds_as_led(rule: &Rule, view: &View<'_>, owns: bool, asked: Option<&str>, is_led: bool) -> bool
    ensures { (m : Message) → Valid view.now m → (IsTrue result ↔ HoldsAsLed (option_map (λ text. text.now) asked.entry) is_led rule.now m (λ name. owns)) }
{
    match asked {
        Some(name) => {
            if is_led {
                holds_if_sent(rule, view, owns, name)
            } else {
                rule.holds(view, owns)
            }
        }
        None => rule.holds(view, owns),
    }
}

/// Whether a rule holds of a message.
fn holds_of<O: Owners>(rule: &Rule, view: &View<'_>, owners: &O) -> bool
    ensures { (m : Message) → Valid view.now m → MatchBool result (HoldsFor (O.answers owners.now) (O.unites owners.now) m rule.now) (FailsFor (O.answers owners.now) (O.unites owners.now) m rule.now) }
{
    let owns = owns_sender_name(rule, owners);
    let asked = destination_asked(rule);
    let is_led = is_led(asked, view.destination(), owners);
    holds_as_led(rule, view, owns, asked, is_led)
}

/// Whether one of these rules holds of a message.
pub(crate) fn any_holds_of<O: Owners>(rules: &[Rule], view: &View<'_>, owners: &O) -> bool
    ensures { (m : Message) → Valid view.now m → MatchBool result (Any (HoldsFor (O.answers owners.now) (O.unites owners.now) m) rules.now) (All (FailsFor (O.answers owners.now) (O.unites owners.now) m) rules.now) }
{
    for rule in rules {
        if holds_of(rule, view, owners) {
            return true;
        }
    }
    false
}
