// How large a program for a rule may become.

ghost use Rattle.std.specs.Prelude.{◌≡◌, ◌+◌, ◌≤◌, sum_by};
ghost use Rattle.match_rule.specs.RuleTree.{slashes, relation_weight, condition_weight};

use crate::condition::Condition;
use match_key::Relation;

/// How many `/` a text has.
fn slashes(text: &str) -> u64
    ensures { result ≡ slashes text.now }
{
    let mut count = 0u64;
    for byte in text.as_bytes() {
        if *byte == b'/' {
            count += 1;
        }
    }
    count
}

/// What a relation adds to the weight of a value: for an `argNpath` 16 for each `/` of it.
fn relation_weight(relation: Relation, value: &str) -> u64
    requires { relation_weight relation value.now ≤ 41984 }
    ensures { result ≡ relation_weight relation value.now }
{
    match relation {
        Relation::NestedPath => 16 * slashes(value),
        Relation::Equal | Relation::PathNamespace | Relation::NameNamespace => 0,
    }
}

/// What a condition weighs: 24, the bytes of its value, and what its relation adds.
fn condition_weight(condition: &Condition) -> u64
    requires { condition_weight condition.now ≤ 41984 }
    ensures { result ≡ condition_weight condition.now }
{
    let plain = 24 + condition.value().len() as u64;
    match condition {
        Condition::Compares(_, relation, value) => {
            plain + relation_weight(*relation, value.as_str())
        }
        _ => plain,
    }
}

/// What a rule of these conditions weighs.
pub(crate) fn weight_of(conditions: &[Condition]) -> u64
    requires { 8 + sum_by condition_weight conditions.now ≤ 41992 }
    ensures { result ≡ 8 + sum_by condition_weight conditions.now }
{
    let mut weight = 8u64;
    for condition in conditions {
        weight += condition_weight(condition);
    }
    weight
}
