// What reasons say together.

ghost use Rattle.std.specs.Prelude.{◌≡◌, ◌↔◌, ℕ, Bool, List, []};
ghost use Rattle.message_view.specs.Message.{Message};
ghost use Rattle.match_rule.specs.RuleTree.{RuleTree};
ghost use Rattle.match_rule.specs.Holds.{Holds};
ghost use Rattle.rule_reasons.specs.Reasons.{AreAllReasons};

/// There is no reason exactly where the rule holds.
pub fn no_reason_where_it_holds()
    ensures { (rule : RuleTree) (m : Message) (owns : Bool) (lines : List (List ℕ)) → AreAllReasons rule m owns lines → ((lines ≡ []) ↔ Holds rule m (λ name. owns)) }
{}
