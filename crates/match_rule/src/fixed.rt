// The texts that a rule fixes by equality.

ghost use Rattle.std.specs.Prelude.{◌≡◌, option_map};
ghost use Rattle.match_rule.specs.FixedTexts.{value_in, first_text, member_asked, interface_asked, path_asked, arg0_asked, fixed_texts};

use crate::condition::Condition;
use crate::rule::Rule;
use crate::sender::is_owned_name;
use match_key::{ArgNumber, Field, Key, Relation, Source};
use std::marker::Model;

/// A text, or none, for each of the keys `member`, `interface`, `path`, `sender` and `arg0`, by which an index looks rules
/// up. A sender is one that messages have in their SENDER field: a unique name, or that of the bus.
#[derive(Debug, Drop)]
pub struct FixedTexts<'a> {
    pub member: Option<&'a str>,
    pub interface: Option<&'a str>,
    pub path: Option<&'a str>,
    pub sender: Option<&'a str>,
    pub arg0: Option<&'a str>,
}

impl<'a> Model for FixedTexts<'a> {
    ghost use Rattle.std.specs.Prelude.{option_map};
    ghost use Rattle.match_rule.specs.FixedTexts as fixed;

    ghost Value = { fixed.FixedTexts };

    ghost view = { λ t. record { member = option_map (λ text. text.now) t.member; interface = option_map (λ text. text.now) t.interface; path = option_map (λ text. text.now) t.path; sender = option_map (λ text. text.now) t.sender; arg0 = option_map (λ text. text.now) t.arg0 } };
}

impl<'a> FixedTexts<'a> {
    ghost use Rattle.match_rule.specs.FixedTexts.{no_texts};
    ghost use Rattle.match_rule.specs.PutTexts.{with_text, with_fixed};

    /// No texts.
    pub fn none() -> Self
        ensures { result ≡ no_texts }
    {
        FixedTexts {
            member: None,
            interface: None,
            path: None,
            sender: None,
            arg0: None,
        }
    }

    /// Puts in the text that a source has to equal.
    fn put_text(&mut self, source: Source, text: &'a str)
        ensures { self.new ≡ with_text source text.entry.now self.old }
    {
        match source {
            Source::Header(Field::Member) => self.member = Some(text),
            Source::Header(Field::Interface) => self.interface = Some(text),
            Source::Header(Field::Path) => self.path = Some(text),
            Source::Header(Field::Destination) => {}
            Source::Arg(n) => {
                if n.number() == 0 {
                    self.arg0 = Some(text);
                }
            }
        }
    }

    /// Puts in the text that a condition fixes, if it fixes one.
    fn put(&mut self, condition: &'a Condition)
        ensures { self.new ≡ with_fixed condition.entry.now self.old }
    {
        match condition {
            Condition::Compares(source, Relation::Equal, value) => {
                self.put_text(*source, value.as_str());
            }
            Condition::Compares(
                _,
                Relation::PathNamespace | Relation::NameNamespace | Relation::NestedPath,
                _,
            ) => {}
            Condition::Sender(name) => {
                if !is_owned_name(name.as_str()) {
                    self.sender = Some(name.as_str());
                }
            }
            Condition::Kind(_) => {}
        }
    }
}

/// The value of the first condition with a key.
pub(crate) fn first_value(conditions: &[Condition], key: Key) -> Option<&str>
    ensures { option_map (λ text. text.now) result ≡ first_text (value_in key) conditions.now }
{
    for condition in conditions {
        if condition.key() == key {
            return Some(condition.value());
        }
    }
    None
}

impl Rule {
    /// The texts that the rule fixes: of each key that of its first condition with that key. All five are found in one
    /// walk over the conditions.
    #[tactic(auto, using(crate::proofs::PutFixed::put_first))]
    pub fn fixed_texts(&self) -> FixedTexts<'_>
        ensures { result ≡ fixed_texts self.now }
    {
        let conditions = self.conditions();
        let mut texts = FixedTexts::none();
        for place in (0..conditions.len()).rev() {
            texts.put(&conditions[place]);
        }
        texts
    }

    /// The member name that the rule asks for, if it asks for one.
    pub fn member(&self) -> Option<&str>
        ensures { option_map (λ text. text.now) result ≡ member_asked self.now }
    {
        first_value(
            self.conditions(),
            Key::Compares(Source::Header(Field::Member), Relation::Equal),
        )
    }

    /// The interface name that the rule asks for, if it asks for one.
    pub fn interface(&self) -> Option<&str>
        ensures { option_map (λ text. text.now) result ≡ interface_asked self.now }
    {
        first_value(
            self.conditions(),
            Key::Compares(Source::Header(Field::Interface), Relation::Equal),
        )
    }

    /// The object path that the rule asks for, if it asks for one; a path namespace isn't one.
    pub fn path(&self) -> Option<&str>
        ensures { option_map (λ text. text.now) result ≡ path_asked self.now }
    {
        first_value(self.conditions(), Key::path())
    }

    /// The text that the rule asks for as argument 0, if it asks for one.
    pub fn arg0(&self) -> Option<&str>
        ensures { option_map (λ text. text.now) result ≡ arg0_asked self.now }
    {
        first_value(
            self.conditions(),
            Key::Compares(Source::Arg(ArgNumber::first()), Relation::Equal),
        )
    }
}
