// What filters weigh.

ghost use Rattle.std.specs.Prelude.{◌≡◌, ◌*◌, ◌≤◌, length, map, min};
ghost use Rattle.filter.specs.FilterTree.{list_of};
ghost use Rattle.filter.specs.Filters.{tree_of};
ghost use Rattle.filter.specs.Tokens.{begins_with};
ghost use Rattle.filter.specs.Weights.{is_owned_name, asks_owner, text_weight, slashes, scope_weight, arg_weight, number_weight, test_weight, tests_weight, sum_weight, weight_of};

use crate::filter::Filter;
use crate::test::{NumberRelation, NumberSource, Scope, Test, TextField, TextRelation, TextSource};

/// The name of the bus itself.
const BUS_NAME: &str = "org.freedesktop.DBus";

/// Whether a name is one that a connection owns and that no message's SENDER field has: neither a unique name nor that of
/// the bus.
fn is_owned_name(name: &str) -> bool
    ensures { result ≡ is_owned_name name.now }
{
    match name.as_bytes() {
        [b':', ..] => false,
        _ => name != BUS_NAME,
    }
}

/// Whether a test asks who owns a name.
fn asks_owner(source: TextSource, relation: TextRelation, text: &str) -> bool
    ensures { result ≡ asks_owner source relation text.now }
{
    match (source, relation) {
        (TextSource::Field(TextField::Sender), TextRelation::Equal | TextRelation::Unequal) => {
            is_owned_name(text)
        }
        _ => false,
    }
}

fn text_weight(source: TextSource, relation: TextRelation, text: &str) -> u64
    ensures { result ≡ text_weight source relation text.now }
{
    if asks_owner(source, relation, text) {
        8
    } else {
        text.len() as u64 + 24
    }
}

/// How many `/` a text has.
fn slashes(text: &str) -> u64
    ensures count { result ≡ slashes text.now }
    ensures few { result ≤ length text.now }
{
    let mut count = 0u64;
    for byte in text.as_bytes() {
        if *byte == b'/' {
            count += 1;
        }
    }
    count
}

fn scope_weight(scope: Scope, text: &str) -> u64
    ensures { result ≡ min (scope_weight scope text.now) u64.MAX }
{
    let plain = text.len() as u64 + 24;
    match scope {
        Scope::ArgPath(_) => slashes(text).saturating_mul(16).saturating_add(plain),
        Scope::PathNamespace | Scope::ArgNamespace(_) => plain,
    }
}

fn number_weight(source: NumberSource, relation: NumberRelation) -> u64
    ensures { result ≡ number_weight source relation }
{
    match (source, relation) {
        (
            NumberSource::Arg(_),
            NumberRelation::Less
            | NumberRelation::AtMost
            | NumberRelation::Greater
            | NumberRelation::AtLeast,
        ) => 96,
        (NumberSource::Arg(_), _) => 64,
        _ => 8,
    }
}

fn test_weight(test: &Test) -> u64
    ensures { result ≡ min (test_weight test.now) u64.MAX }
{
    match test {
        Test::Truth(_, _, _) => 16,
        Test::Text(source, relation, text) => text_weight(*source, *relation, text.as_str()),
        Test::Within(scope, _, text) => scope_weight(*scope, text.as_str()),
        Test::Number(source, relation, _) => number_weight(*source, *relation),
        _ => 8,
    }
}

/// The weight of all tests of a filter.
#[cycle(weight)]
fn tests_weight(filter: &Filter) -> u64
    ensures { result ≡ min (tests_weight (tree_of filter.now)) u64.MAX }
{
    match filter {
        Filter::Test(test) => test_weight(test),
        Filter::All(filters) => sum_weight(filters.as_slice()),
        Filter::Any(filters) => sum_weight(filters.as_slice()),
        Filter::Not(filter) => tests_weight(filter),
    }
}

/// The weight of all tests of filters.
#[cycle(weight)]
fn sum_weight(filters: &[Filter]) -> u64
    ensures { result ≡ min (sum_weight (list_of (map tree_of filters.now))) u64.MAX }
{
    let mut sum = 0u64;
    for filter in filters {
        sum = sum.saturating_add(tests_weight(filter));
    }
    sum
}

impl Filter {
    /// What the filter weighs, up to the greatest number: 8, and the weight of each test.
    pub fn weight(&self) -> u64
        ensures { result ≡ min (weight_of (tree_of self.now)) u64.MAX }
    {
        tests_weight(self).saturating_add(8)
    }
}
