// What the published state has of each connection, as it is told to whoever looks into the bus. It takes memory.

ghost use Rattle.std.specs.Prelude.{◌≡◌, false, IfOk, length};
ghost use Rattle.entry_table.specs.Entries.{is_attached};
ghost use Rattle.program_table.specs.History.{after};
ghost use Rattle.passes.specs.Census.{AreRulesOf, IsPushed};

use crate::control::Control;
use entry_table::{Entry, Filter, RuleProgram};
use program_table::{BusState, Connection};
use published::BusBrand;
use routing::Mailbox;
use std::alloc::{AllocError, Global};
use std::sync::Wait;

/// Adds the rule of an entry that has one.
fn push_rule(rules: &mut Vec<RuleProgram>, entry: &Entry) -> Result<(), AllocError>
    requires { is_attached entry.now.filter ≡ false }
    ensures { IfOk result (λ _. IsPushed entry.now.filter rules.old.items rules.new.items) }
{
    if let Filter::Rule(program) = &entry.filter {
        rules.push(program.share()?)?;
    }
    Ok(())
}

/// The rules of a connection, the oldest first.
fn rules_in<M: Mailbox>(
    state: &BusState<M>,
    alloc: Global,
    connection: u64,
) -> Result<Vec<RuleProgram>, AllocError>
    ensures { IfOk result (λ rules. AreRulesOf connection state.now.registrations.entries rules.items) }
{
    let mut rules: Vec<RuleProgram> = Vec::new(alloc);
    let mut last = 0;
    'rules: while let Some(entry) = state.next_rule(connection, last) {
        push_rule(&mut rules, entry)?;
        last = entry.id;
    }
    Ok(rules)
}

impl<B: BusBrand, M: Mailbox, R: Wait + Drop> Control<B, M, R> {
    /// The connections by rising number.
    pub fn connections(&self) -> &[Connection<M>]
        ensures { result.now ≡ (after self.now.history).connections }
    {
        self.state().connections()
    }

    /// How many rules and attached programs there are, of all connections.
    pub fn entry_count(&self) -> usize
        ensures { result ≡ length (after self.now.history).registrations.entries }
    {
        self.state().entry_count()
    }

    /// The rules of a connection, the oldest first.
    pub fn rules_of(&self, alloc: Global, connection: u64) -> Result<Vec<RuleProgram>, AllocError>
        ensures { IfOk result (λ rules. AreRulesOf connection (after self.now.history).registrations.entries rules.items) }
    {
        rules_in(self.state(), alloc, connection)
    }
}
