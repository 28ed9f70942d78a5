// The conditions of a rule that are left to test, where a message has the texts that the rule fixes and its envelope
// fits.
ghost use Rattle.std.specs.Prelude.{◌≡◌, option_map};
ghost use Rattle.rule_compile.specs.Tested.{is_fixed, fixed_field, fixed_source, fixed_text, is_left, is_tested, eavesdrops_in};

use match_rule::{Condition, Field, Relation, Rule, Source};

/// Whether a text is fixed.
fn is_fixed(fixed: Option<&str>, text: &str) -> bool
    ensures { result ≡ is_fixed (option_map (λ text. text.now) fixed.entry) text.now }
{
    match fixed {
        None => false,
        Some(other) => other == text,
    }
}

/// The text that a rule fixes of a header field.
fn fixed_field(rule: &Rule, field: Field) -> Option<&str>
    ensures { option_map (λ text. text.now) result ≡ fixed_field rule.now field }
{
    match field {
        Field::Interface => rule.interface(),
        Field::Member => rule.member(),
        Field::Path => rule.path(),
        Field::Destination => None,
    }
}

/// The text that a rule fixes of a source.
fn fixed_source(rule: &Rule, source: Source) -> Option<&str>
    ensures { option_map (λ text. text.now) result ≡ fixed_source rule.now source }
{
    match source {
        Source::Header(field) => fixed_field(rule, field),
        Source::Arg(n) => { if n.number() == 0 { rule.arg0() } else { None } }
    }
}

/// The text that a rule fixes of a source: only equality fixes one.
fn fixed_text(rule: &Rule, relation: Relation, source: Source) -> Option<&str>
    ensures { option_map (λ text. text.now) result ≡ fixed_text rule.now relation source }
{
    match relation {
        Relation::Equal => fixed_source(rule, source),
        Relation::PathNamespace | Relation::NameNamespace | Relation::NestedPath => None,
    }
}

/// Whether a condition of a rule is left to test, where a message has the texts that the rule fixes and its envelope
/// fits.
fn is_left(rule: &Rule, condition: &Condition) -> bool
    ensures { result ≡ is_left rule.now condition.now }
{
    match condition {
        Condition::Compares(source, relation, value) => {
            !is_fixed(fixed_text(rule, *relation, *source), value.as_str())
        }
        Condition::Kind(_) | Condition::Sender(_) => !condition.is_of_envelope(),
    }
}

/// Which conditions a program tests: all, or those that a rule leaves to test.
#[derive(Clone, Copy)]
pub(crate) enum Tested<'a> {
    All,
    Left(&'a Rule),
}

impl<'a> Tested<'a> {
    /// Whether a condition is tested.
    pub(crate) fn has(self, condition: &Condition) -> bool
        ensures { result ≡ is_tested self.entry condition.now }
    {
        match self {
            Tested::All => true,
            Tested::Left(rule) => is_left(rule, condition),
        }
    }

    /// Whether the program may leave the destination untested: of a rule that eavesdrops, and of what is left of one.
    pub(crate) fn eavesdrops(self, eavesdrops: bool) -> bool
        ensures { result ≡ eavesdrops_in self.entry eavesdrops }
    {
        match self {
            Tested::All => eavesdrops,
            Tested::Left(_) => true,
        }
    }
}
