// The conditions of rules.

ghost use Rattle.std.specs.Prelude.{◌≡◌};
ghost use Rattle.match_rule.specs.Condition.{key_of, value_of};
ghost use Rattle.match_rule.specs.RuleTree.{are_among};

use crate::text::Text;
use match_key::{Key, KindName, Relation, Source};

/// One thing that a rule asks of a message: a kind, a sender, or that the text at a source stands in a relation to a
/// value (D-Bus Specification, "Match Rules").
#[derive(Debug, Drop)]
pub enum Condition {
    Kind(KindName),
    Sender(Text),
    Compares(Source, Relation, Text),
}

impl Condition {
    /// The key that a part of a rule's text has for this condition.
    pub fn key(&self) -> Key
        ensures { result ≡ key_of self.now }
    {
        match self {
            Condition::Kind(_) => Key::Kind,
            Condition::Sender(_) => Key::Sender,
            Condition::Compares(source, relation, _) => Key::Compares(*source, *relation),
        }
    }

    /// The text that it compares with; of a kind it is the kind's word.
    pub fn value(&self) -> &str
        ensures { result.now ≡ value_of self.now }
    {
        match self {
            Condition::Kind(kind) => kind.word(),
            Condition::Sender(name) => name.as_str(),
            Condition::Compares(_, _, value) => value.as_str(),
        }
    }
}

impl PartialEq for Condition {
    ghost use Rattle.match_rule.specs.Condition.{condition_eq};
    ghost use Rattle.match_rule.specs.Equality.{conditions_partial};

    ghost eq = { condition_eq };

    ghost laws = { conditions_partial };

    fn eq(&self, other: &Condition) -> bool {
        self.key() == other.key() && self.value() == other.value()
    }
}

impl Eq for Condition {
    ghost use Rattle.match_rule.specs.Equality.{conditions_equiv};

    ghost laws = { conditions_equiv };
}

/// Whether each condition is among the others.
pub(crate) fn are_among(conditions: &[Condition], others: &[Condition]) -> bool
    ensures { result ≡ are_among conditions.now others.now }
{
    conditions
        .iter()
        .all(|condition| others.contains(condition))
}
