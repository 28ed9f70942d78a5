// Named facts, appended as a dictionary of variants.

ghost use Rattle.std.specs.Prelude.{◌≡◌, ◌++◌, length};
ghost use Rattle.signature.specs.DataType.{basic, dict, variant};
ghost use Rattle.message_value.specs.declared.order.Order.TheVariants.{Little};
ghost use Rattle.message_value.specs.Value.{text, entries};
ghost use Rattle.message_value.specs.Spelling.{entry_bytes, entries_bytes, value_bytes};
ghost use Rattle.message_build.specs.Growing.{Appends};
ghost use Rattle.message_build.specs.NamedFacts.{fact_value, fact_entries};

use crate::appending::{
    ENTRY_ALIGNMENT, align, push_number, push_signature, push_string, push_word,
};
use crate::arguments::complete;
use crate::body_state::BodyState;
use crate::builder::Builder;
use crate::error::BuildError;
use crate::strings::set_word;
use message_value::Order;
use std::alloc::AllocError;

/// A value of an `a{sv}`.
#[derive(Clone, Copy, Debug)]
pub enum Fact<'a> {
    /// Of type `u`.
    Number(u32),
    /// Of type `s`.
    Text(&'a str),
}

/// An entry of an `a{sv}`.
#[derive(Clone, Copy, Debug)]
pub struct NamedFact<'a> {
    pub name: &'a str,
    pub fact: Fact<'a>,
}

/// Appends a fact as a variant.
fn push_fact(bytes: &mut Vec<u8>, fact: Fact<'_>) -> Result<(), AllocError>
    ensures { Appends result bytes.old.items bytes.new.items (value_bytes Little (length bytes.old.items) variant (fact_value fact.entry)) }
{
    match fact {
        Fact::Number(n) => {
            push_signature(bytes, b"u")?;
            push_number(bytes, n)
        }
        Fact::Text(string) => {
            push_signature(bytes, b"s")?;
            push_string(bytes, Order::Little, string.as_bytes())
        }
    }
}

/// Appends a fact under its name as a dict entry, with the zeros before it.
fn push_named(bytes: &mut Vec<u8>, named: &NamedFact<'_>) -> Result<(), AllocError>
    ensures { Appends result bytes.old.items bytes.new.items (entry_bytes Little (length bytes.old.items) 115 variant (text named.now.name.now) (fact_value named.now.fact)) }
{
    align(bytes, ENTRY_ALIGNMENT)?;
    push_string(bytes, Order::Little, named.name.as_bytes())?;
    push_fact(bytes, named.fact)
}

/// Appends the entries one after the other.
fn push_entries(bytes: &mut Vec<u8>, facts: &[NamedFact<'_>]) -> Result<(), AllocError>
    ensures { Appends result bytes.old.items bytes.new.items (entries_bytes Little (length bytes.old.items) 115 variant (fact_entries facts.now)) }
{
    for named in facts {
        push_named(bytes, named)?;
    }
    Ok(())
}

/// Appends a dictionary of facts as a value, with the zeros before it.
fn push_facts(bytes: &mut Vec<u8>, facts: &[NamedFact<'_>]) -> Result<(), AllocError>
    ensures { Appends result bytes.old.items bytes.new.items (value_bytes Little (length bytes.old.items) (dict 115 variant) (entries (fact_entries facts.now))) }
{
    align(bytes, 4)?;
    let at = bytes.len();
    push_word(bytes, Order::Little, 0)?;
    align(bytes, ENTRY_ALIGNMENT)?;
    let first = bytes.len();
    push_entries(bytes, facts)?;
    let len = bytes.len() - first;
    set_word(bytes, at, Order::Little, len);
    Ok(())
}

impl<'a> Builder<'a> {
    ghost use Rattle.message_build.specs.Adding.{Adds, with_argument};

    /// Adds a dictionary of facts under their names, an `a{sv}`.
    ///
    /// # Errors
    ///
    /// `NoMemory`, and then nothing is added.
    pub fn arg_facts(&mut self, facts: &[NamedFact<'_>]) -> Result<(), BuildError>
        ensures { Adds result self.old self.new (with_argument self.old (dict 115 variant) (entries (fact_entries facts.now))) }
    {
        if !self.body_state.takes_arguments() {
            self.body_state = BodyState::Spoiled;
            return Ok(());
        }
        let len = self.body.len();
        let pushed = push_facts(&mut self.body, facts);
        complete(pushed, &mut self.body, len, &mut self.signature, b"a{sv}")?;
        self.body_state = BodyState::Arguments;
        Ok(())
    }
}
