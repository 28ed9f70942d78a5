// What a rule asks of a message's envelope: of its kind, its SENDER and its destination.

ghost use Rattle.std.specs.Prelude.{◌≡◌, ◌↔◌, ℕ, Bool, true, false, List, All, Some, IsTrue, option_map};
ghost use Rattle.message_view.specs.Message.{Message};
ghost use Rattle.message_view.specs.Valid.{Valid};
ghost use Rattle.match_rule.specs.RuleTree.{RuleTree, is_owned_name};
ghost use Rattle.match_rule.specs.Holds.{Holds};
ghost use Rattle.match_rule.specs.Envelope.{is_of_envelope, ConditionFits, EnvelopeFits};

use crate::condition::Condition;
use crate::holding::is_offered;
use crate::rule::Rule;
use crate::sender::is_owned_name;
use message_view::View;

impl Condition {
    /// Whether it is about the envelope alone: about the kind, or about a sender by its own name.
    pub fn is_of_envelope(&self) -> bool
        ensures { result ≡ is_of_envelope self.now }
    {
        match self {
            Condition::Kind(_) => true,
            Condition::Sender(name) => !is_owned_name(name.as_str()),
            Condition::Compares(_, _, _) => false,
        }
    }
}

/// Whether a sender may be the one that is asked for: it has the name, or the name is one that connections own.
fn may_be_sender(sender: Option<&str>, name: &str) -> bool
    ensures owned { is_owned_name name.now ≡ true → IsTrue result }
    ensures other { is_owned_name name.now ≡ false → (IsTrue result ↔ (option_map (λ name. name.now) sender.entry ≡ Some name.now)) }
{
    sender == Some(name) || is_owned_name(name)
}

/// Whether a condition, if it is about the envelope, holds of a message.
fn fits(condition: &Condition, view: &View<'_>) -> bool
    ensures { (m : Message) → Valid view.now m → (IsTrue result ↔ ConditionFits condition.now m) }
{
    match condition {
        Condition::Kind(kind) => view.kind() == kind.kind(),
        Condition::Sender(name) => may_be_sender(view.sender(), name.as_str()),
        Condition::Compares(_, _, _) => true,
    }
}

/// Whether each condition that is about the envelope holds of a message.
fn all_fit(conditions: &[Condition], view: &View<'_>) -> bool
    ensures { (m : Message) → Valid view.now m → (IsTrue result ↔ All (λ c. ConditionFits c m) conditions.now) }
{
    for condition in conditions {
        if !fits(condition, view) {
            return false;
        }
    }
    true
}

impl Rule {
    /// Whether a message's envelope is as the rule asks: each condition on the kind and on a sender by its own name
    /// holds, and the message has no destination or the rule eavesdrops.
    pub fn fits_envelope(&self, view: &View<'_>) -> bool
        ensures { (m : Message) → Valid view.now m → (IsTrue result ↔ EnvelopeFits self.now m) }
    {
        is_offered(view, self.eavesdrops()) && all_fit(self.conditions(), view)
    }
}

/// A message of which a rule holds has an envelope as the rule asks.
pub fn envelope_fits_where_it_holds()
    ensures { (rule : RuleTree) (m : Message) (owned : List ℕ → Bool) → Holds rule m owned → EnvelopeFits rule m }
{}
