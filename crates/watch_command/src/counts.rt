// How many messages each of some rules takes.

ghost use Rattle.std.specs.Prelude.{◌≡◌, ◌++◌, IfOk, OnOk, string_bytes};
ghost use Rattle.watch_command.specs.Counts.{count_line, count_lines};
ghost use Rattle.watch_command.specs.CountedRules.{text_counts};

use crate::criteria::rule_holds;
use crate::owners::Owners;
use match_rule::Rule;
use message_view::View;
use std::alloc::{AllocError, Global};
use std::fmt::Write;

/// A rule with its text, and how many messages it took.
#[derive(Drop)]
pub(crate) struct CountedRule {
    pub(crate) text: String,
    pub(crate) rule: Rule,
    pub(crate) count: u64,
}

/// How many messages each of some rules took, and how many none took.
#[derive(Drop)]
pub(crate) struct Counts {
    pub(crate) rules: Vec<CountedRule>,
    pub(crate) untaken: u64,
}

impl CountedRule {
    /// Counts a message if the rule holds of it, and answers whether it does.
    fn take(&mut self, view: &View<'_>, owners: &Owners) -> bool {
        let holds = rule_holds(&self.rule, view, owners);
        if holds {
            self.count = self.count.saturating_add(1);
        }
        holds
    }
}

impl Counts {
    ghost use Rattle.std.specs.Prelude.{◌≡◌, IfOk, string_bytes};
    ghost use Rattle.watch_command.specs.Counts.{count_report};
    ghost use Rattle.watch_command.specs.CountedRules.{text_counts};

    /// Counts a message for each rule that holds of it.
    pub(crate) fn take(&mut self, view: &View<'_>, owners: &Owners) {
        let mut is_taken = false;
        for rule in self.rules.iter_mut() {
            if rule.take(view, owners) {
                is_taken = true;
            }
        }
        if !is_taken {
            self.untaken = self.untaken.saturating_add(1);
        }
    }

    /// A line for each rule, with how many messages it took before it, and last how many none took.
    pub(crate) fn report(&self, alloc: Global) -> Result<String, AllocError>
        ensures { IfOk result (λ text. string_bytes text ≡ count_report (text_counts self.now.rules.items) self.now.untaken) }
    {
        let mut text = lines_of(alloc, &self.rules)?;
        put_line(&mut text, self.untaken, "by no rule")?;
        Ok(text)
    }
}

/// A line for each rule.
fn lines_of(alloc: Global, rules: &[CountedRule]) -> Result<String, AllocError>
    ensures { IfOk result (λ text. string_bytes text ≡ count_lines (text_counts rules.now)) }
{
    let mut text = String::new(alloc);
    for rule in rules {
        put_line(&mut text, rule.count, rule.text.as_str())?;
    }
    Ok(text)
}

fn put_line(text: &mut String, count: u64, name: &str) -> Result<(), AllocError>
    ensures { OnOk result (string_bytes text.new ≡ string_bytes text.old ++ count_line count name.now) }
{
    write!(text, "{count} {name}\n")
}
