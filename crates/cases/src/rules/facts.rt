// What a rule is made of.

use super::matches::SLOT;
use super::texts::read;
use case_files::{Fields, Judge, LineError};
use match_rule::{Field, Key, Relation, Rule, Source};
use rule_compile::{CompileError, compile};
use std::alloc::{AllocError, Global};
use std::fmt::Write;

/// What is asked, and the text of a rule. `conditions` are the rule's, each with its key and its value; `sender` is the
/// well-known name that it asks for, or `none`; `weight` is a number; `program` is `ok` where it has one.
pub(crate) struct Facts;

impl Judge for Facts {
    const INPUTS: usize = 2;

    fn came(&self, alloc: Global, inputs: &Fields) -> Result<String, LineError> {
        let asked = inputs.text(0)?;
        let rule = read(alloc, inputs.text(1)?)?;
        let mut words = String::new(alloc);
        push_fact(alloc, &mut words, asked, &rule)?;
        Ok(words)
    }
}

fn push_fact(alloc: Global, words: &mut String, asked: &str, rule: &Rule) -> Result<(), LineError> {
    match asked {
        "conditions" => push_conditions(words, rule)?,
        "sender" => words.push_str(rule.sender_name().unwrap_or("none"))?,
        "weight" => {
            let weight = rule.weight();
            write!(words, "{weight}")?;
        }
        "program" => words.push_str(program(alloc, rule)?)?,
        _ => return Err(LineError::Unreadable),
    }
    Ok(())
}

fn push_conditions(words: &mut String, rule: &Rule) -> Result<(), AllocError> {
    for condition in rule.conditions() {
        if !words.is_empty() {
            words.push_str(", ")?;
        }
        push_key(words, condition.key())?;
        let value = condition.value();
        write!(words, " '{value}'")?;
    }
    Ok(())
}

fn push_key(words: &mut String, key: Key) -> Result<(), AllocError> {
    match key {
        Key::Kind => words.push_str("type"),
        Key::Sender => words.push_str("sender"),
        Key::Eavesdrop => words.push_str("eavesdrop"),
        Key::Compares(source, relation) => {
            push_source(words, source)?;
            words.push_str(suffix(relation))
        }
    }
}

fn push_source(words: &mut String, source: Source) -> Result<(), AllocError> {
    match source {
        Source::Header(Field::Interface) => words.push_str("interface"),
        Source::Header(Field::Member) => words.push_str("member"),
        Source::Header(Field::Path) => words.push_str("path"),
        Source::Header(Field::Destination) => words.push_str("destination"),
        Source::Arg(n) => {
            let n = n.number();
            write!(words, "arg{n}")
        }
    }
}

/// The suffix that the word of a key has after its source, by the key's relation.
fn suffix(relation: Relation) -> &'static str {
    match relation {
        Relation::Equal => "",
        Relation::PathNamespace => "_namespace",
        Relation::NameNamespace => "namespace",
        Relation::NestedPath => "path",
    }
}

fn program(alloc: Global, rule: &Rule) -> Result<&'static str, LineError> {
    let slot = rule.sender_name().map(|_| SLOT);
    match compile(alloc, rule, slot) {
        Ok(_) => Ok("ok"),
        Err(CompileError::TooLong) => Ok("TooLong"),
        Err(CompileError::NoMemory) => Err(LineError::NoMemory),
    }
}
