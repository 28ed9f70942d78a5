// What the parts of a rule's text said so far.

ghost use Rattle.std.specs.Prelude.{◌≡◌, OnOk, IfErr, None, []};
ghost use Rattle.std.specs.List.{list_any};
ghost use Rattle.match_key.specs.declared.error.RuleError.TheVariants.{NoMemory};
ghost use Rattle.match_key.specs.Key.{is_twice, is_path_twice};
ghost use Rattle.match_rule.specs.Condition.{key_of, has_key, has_path};
ghost use Rattle.match_rule.specs.Reading.{own_key};
ghost use Rattle.match_rule.specs.Gathering.{terms_of, conditions_with, eavesdrop_with};

use crate::condition::Condition;
use crate::term::Term;
use match_key::{Key, RuleError};
use std::alloc::Global;

/// The conditions so far, and what a part said of eavesdropping.
#[derive(Debug, Drop)]
pub(crate) struct Parts {
    pub(crate) conditions: Vec<Condition>,
    pub(crate) eavesdrop: Option<bool>,
}

/// Whether a rule with one of the conditions may not have the key.
fn any_is_twice(conditions: &[Condition], key: Key) -> bool
    ensures { result ≡ list_any (λ c. is_twice (key_of c) key) conditions.now }
{
    conditions
        .iter()
        .any(|condition| condition.key().is_twice(key))
}

/// Whether one of the conditions and the key are about a path and its namespace.
fn any_is_path_twice(conditions: &[Condition], key: Key) -> bool
    ensures { result ≡ list_any (λ c. is_path_twice (key_of c) key) conditions.now }
{
    conditions
        .iter()
        .any(|condition| condition.key().is_path_twice(key))
}

impl Parts {
    /// No part.
    pub(crate) fn new(alloc: Global) -> Self
        ensures conditions { result.conditions.items ≡ [] }
        ensures eavesdrop { result.eavesdrop ≡ None }
    {
        Parts {
            conditions: Vec::new(alloc),
            eavesdrop: None,
        }
    }

    /// Whether a part has the key, or one that a rule may not have beside it.
    #[tactic(auto, using(crate::proofs::KeptParts::asked_keys))]
    fn has_key(&self, key: Key) -> bool
        ensures { result ≡ has_key key (terms_of self.now.conditions.items self.now.eavesdrop) }
    {
        self.eavesdrop.is_some() && Key::Eavesdrop.is_twice(key)
            || any_is_twice(self.conditions.as_slice(), key)
    }

    /// Whether a part has `path_namespace` and the key is `path`, or the other way round.
    #[tactic(auto, using(crate::proofs::KeptParts::asked_paths))]
    fn has_path(&self, key: Key) -> bool
        ensures { result ≡ has_path key (terms_of self.now.conditions.items self.now.eavesdrop) }
    {
        any_is_path_twice(self.conditions.as_slice(), key)
    }

    /// A key that a rule may have beside those of the parts.
    pub(crate) fn own_key(&self, key: Key) -> Result<Key, RuleError>
        ensures { result ≡ own_key (terms_of self.now.conditions.items self.now.eavesdrop) key }
    {
        if self.has_key(key) {
            Err(RuleError::KeyTwice)
        } else if self.has_path(key) {
            Err(RuleError::PathTwice)
        } else {
            Ok(key)
        }
    }

    /// Adds what one more part says.
    pub(crate) fn add(&mut self, term: Term) -> Result<(), RuleError>
        ensures conditions { OnOk result (self.new.conditions.items ≡ conditions_with self.old.conditions.items term) }
        ensures eavesdrop { OnOk result (self.new.eavesdrop ≡ eavesdrop_with self.old.eavesdrop term) }
        ensures memory { IfErr result (λ fault. fault ≡ NoMemory) }
    {
        match term {
            Term::Asks(condition) => self.conditions.push(condition)?,
            Term::Eavesdrop(flag) => self.eavesdrop = Some(flag),
        }
        Ok(())
    }
}
