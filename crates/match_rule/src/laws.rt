// What is true of every rule.

ghost use Rattle.std.specs.Prelude.{◌≡◌, ◌↔◌, ℕ, Bool, List, true};
ghost use Rattle.message_view.specs.Message.{Message};
ghost use Rattle.match_rule.specs.RuleTree.{RuleTree, AreSame, rule_eq};
ghost use Rattle.match_rule.specs.Grammar.{ReadsAs};
ghost use Rattle.match_rule.specs.Holds.{Holds};
ghost use Rattle.match_rule.specs.FixedTexts.{fixed_texts, texts_of, AreFound};

/// A text reads as at most one rule.
pub fn one_reading()
    ensures { (text : List ℕ) (rule other : RuleTree) → ReadsAs text rule → ReadsAs text other → rule ≡ other }
{}

/// Rules are equal exactly where they have the same conditions, in whatever order, and the same eavesdropping.
pub fn equal_as_sets()
    ensures { (rule other : RuleTree) → (rule_eq rule other ≡ true) ↔ AreSame rule other }
{}

/// A message of which a rule holds has each text that the rule fixes by equality.
pub fn found_where_it_holds()
    ensures { (rule : RuleTree) (m : Message) (owned : List ℕ → Bool) → Holds rule m owned → AreFound (fixed_texts rule) (texts_of m) }
{}
