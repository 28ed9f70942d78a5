// Rules.

use crate::condition::{Condition, are_among};
use crate::holding::{all_hold, is_offered};
use crate::part::parts_at;
use crate::sender::first_owned_name;
use crate::weight::weight_of;
use match_key::RuleError;
use message_view::View;
use std::alloc::Global;
use std::marker::Model;

const MAX_LEN: usize = 1024;

/// What a subscriber asks for: conditions that hold of a message (D-Bus Specification, "Match Rules").
#[derive(Debug, Drop)]
pub struct Rule {
    conditions: Vec<Condition>,
    eavesdrops: bool,
}

impl Model for Rule {
    ghost use Rattle.std.specs.Prelude.{◌≤◌, ◌≡◌, true, All};
    ghost use Rattle.message_value.specs.Bytes.{AreBytes};
    ghost use Rattle.match_rule.specs.Condition.{value_of};
    ghost use Rattle.match_rule.specs.RuleTree.{RuleTree, weight_of};
    ghost use Rattle.match_rule.specs.Parts.{has_one_sender, have_sender_names};

    ghost Value = { RuleTree };

    ghost view = { λ r. record { conditions = r.conditions.items; eavesdrops = r.eavesdrops } };

    ghost invariant = { λ r. weight_of (record { conditions = r.conditions.items; eavesdrops = r.eavesdrops }) ≤ 41992 × (has_one_sender r.conditions.items ≡ true) × All (λ c. AreBytes (value_of c)) r.conditions.items × (have_sender_names r.conditions.items ≡ true) };
}

impl Rule {
    ghost use Rattle.std.specs.Prelude.{◌≡◌, ◌≤◌, ◌⊎◌, ◌↔◌, ℕ, Bool, true, List, All, IfOk, IfErr, Ok, Err, IsTrue, option_map};
    ghost use Rattle.message_value.specs.Bytes.{AreBytes};
    ghost use Rattle.message_view.specs.Message.{Message};
    ghost use Rattle.message_view.specs.Valid.{Valid};
    ghost use Rattle.match_key.specs.declared.error.RuleError.TheVariants.{NoMemory};
    ghost use Rattle.match_rule.specs.RuleTree.{RuleTree, sender_name_of, weight_of};
    ghost use Rattle.match_rule.specs.Holds.{Holds, Agrees};
    ghost use Rattle.match_rule.specs.Grammar.{ReadsAs};
    ghost use Rattle.match_rule.specs.Reading.{Gives, rule_at};
    ghost use Rattle.match_rule.specs.Condition.{value_of};
    ghost use Rattle.match_rule.specs.Parts.{has_one_sender, have_sender_names};

    /// Reads a rule.
    pub fn read(alloc: Global, text: &str) -> Result<Rule, RuleError>
        // The text reads as the rule.
        ensures found { IfOk result (ReadsAs text.now) }
        // A text that reads as a rule is read, unless memory runs out.
        ensures only { (rule : RuleTree) → ReadsAs text.now rule → Gives (λ r. r) result (Ok rule) }
        // The fault is the first one from the left, or memory ran out.
        ensures fault { IfErr result (λ fault. (fault ≡ NoMemory) ⊎ (rule_at text.now ≡ Err fault)) }
    {
        if text.len() > MAX_LEN {
            return Err(RuleError::TooLong);
        }
        let parts = parts_at(alloc, text.as_bytes())?;
        Ok(Rule {
            conditions: parts.conditions,
            eavesdrops: parts.eavesdrop.unwrap_or(false),
        })
    }

    /// The conditions, in the order of the text.
    pub fn conditions(&self) -> &[Condition]
        ensures value { result.now ≡ self.now.conditions }
        // At most one condition asks for a sender.
        ensures one_sender { has_one_sender self.now.conditions ≡ true }
        // The sender that a condition asks for is a bus name.
        ensures sender_names { have_sender_names self.now.conditions ≡ true }
        // Each byte of a value is below 256.
        ensures bytes { All (λ c. AreBytes (value_of c)) self.now.conditions }
        // The weight is bounded, since the text has at most 1,024 bytes.
        ensures light { weight_of self.now ≤ 41992 }
    {
        &self.conditions
    }

    /// Whether the text has `eavesdrop='true'`.
    pub fn eavesdrops(&self) -> bool
        ensures { result ≡ self.now.eavesdrops }
    {
        self.eavesdrops
    }

    /// The same conditions, of messages to others too.
    pub fn eavesdropping(self) -> Rule
        ensures { result ≡ record self { eavesdrops = true } }
    {
        Rule {
            conditions: self.conditions,
            eavesdrops: true,
        }
    }

    /// Whether the rule holds of a message. `owns` says whether the message's sender is the primary owner of the rule's
    /// sender name.
    pub fn holds(&self, view: &View<'_>, owns: bool) -> bool
        ensures { (m : Message) (owned : List ℕ → Bool) → Valid view.now m → Agrees self.now owned owns → (IsTrue result ↔ Holds self.now m owned) }
    {
        is_offered(view, self.eavesdrops) && all_hold(self.conditions.as_slice(), view, owns)
    }

    /// The well-known name whose owner decides whether the rule holds, if it asks for one as the sender. The bus's own
    /// name isn't one.
    pub fn sender_name(&self) -> Option<&str>
        ensures { option_map (λ name. name.now) result ≡ sender_name_of self.now }
    {
        first_owned_name(self.conditions.as_slice())
    }

    /// A bound on the length of the rule's program, in instructions: 8, and for each condition 24 and the bytes of its
    /// value, and for an `argNpath` 16 for each `/` of it.
    pub fn weight(&self) -> u64
        ensures { result ≡ weight_of self.now }
    {
        weight_of(self.conditions.as_slice())
    }
}

impl PartialEq for Rule {
    ghost use Rattle.match_rule.specs.RuleTree.{rule_eq};
    ghost use Rattle.match_rule.specs.Equality.{rules_partial};

    ghost eq = { rule_eq };

    ghost laws = { rules_partial };

    /// Rules are equal where they have the same set of conditions, in whatever order, and the same eavesdropping.
    fn eq(&self, other: &Rule) -> bool {
        are_among(self.conditions.as_slice(), other.conditions.as_slice())
            && are_among(other.conditions.as_slice(), self.conditions.as_slice())
            && self.eavesdrops == other.eavesdrops
    }
}

impl Eq for Rule {
    ghost use Rattle.match_rule.specs.Equality.{rules_equiv};

    ghost laws = { rules_equiv };
}
