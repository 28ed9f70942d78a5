// The entries of the bus.

use crate::attachment::Attachment;
use crate::rule_program::RuleProgram;
use match_rule::Rule;
use message_view::View;
use std::alloc::AllocError;

/// What decides whether an entry's connection gets a message.
#[derive(Drop)]
pub enum Filter {
    Rule(RuleProgram),
    Attached(Attachment),
}

impl Filter {
    ghost use Rattle.std.specs.Prelude.{◌≡◌, ◌↔◌, IfOk, IsTrue, option_map};
    ghost use Rattle.message_view.specs.Message.{Message};
    ghost use Rattle.message_view.specs.Valid.{Valid};
    ghost use Rattle.entry_table.specs.Envelopes.{FilterFits};
    ghost use Rattle.entry_table.specs.Entries.{is_rule, is_attached, rule_of};
    ghost use Rattle.entry_table.specs.TextKeys.{shape_of};
    ghost use Rattle.entry_table.specs.EntryTexts.{lookup_texts};

    /// The same filter once more, without a copy.
    pub fn share(&self) -> Result<Filter, AllocError>
        ensures { IfOk result (λ filter. filter ≡ self.now) }
    {
        match self {
            Filter::Rule(program) => Ok(Filter::Rule(program.share()?)),
            Filter::Attached(program) => Ok(Filter::Attached(program.share()?)),
        }
    }

    /// Which texts it is looked up by.
    pub(crate) fn shape(&self) -> u16
        ensures { result ≡ shape_of (lookup_texts self.now) }
    {
        match self {
            Filter::Rule(compiled) => compiled.shape(),
            Filter::Attached(program) => program.shape(),
        }
    }

    /// Whether a message's envelope is as it asks: an attached program asks nothing of it.
    pub fn fits_envelope(&self, view: &View<'_>) -> bool
        ensures { (m : Message) → Valid view.now m → (IsTrue result ↔ FilterFits self.now m) }
    {
        match self {
            Filter::Rule(compiled) => compiled.fits_envelope(view),
            Filter::Attached(_) => true,
        }
    }

    /// Whether it is a rule that equals this one.
    pub(crate) fn is_rule(&self, rule: &Rule) -> bool
        ensures { result ≡ is_rule rule.now self.now }
    {
        match self {
            Filter::Rule(compiled) => *compiled.rule() == *rule,
            Filter::Attached(_) => false,
        }
    }

    /// The rule, unless it is an attached program.
    pub fn rule(&self) -> Option<&Rule>
        ensures { option_map (λ rule. rule.now) result ≡ rule_of self.now }
    {
        match self {
            Filter::Rule(compiled) => Some(compiled.rule()),
            Filter::Attached(_) => None,
        }
    }

    /// Whether it is an attached program.
    pub(crate) fn is_attached(&self) -> bool
        ensures { result ≡ is_attached self.now }
    {
        match self {
            Filter::Rule(_) => false,
            Filter::Attached(_) => true,
        }
    }
}

/// A connection's wish for messages.
#[derive(Drop)]
pub struct Entry {
    pub id: u32,
    pub connection: u64,
    pub filter: Filter,
}
