// The calls that are given a text or a program, which is read before anything is asked of the state.

ghost use Rattle.std.specs.Prelude.{◌≡◌, ◌⊎◌, ◌<◌, true, MatchResult, IfOk};
ghost use Rattle.bpf_code.specs.declared.instruction.Ins.{Ins};
ghost use Rattle.program_table.specs.History.{after};
ghost use Rattle.passes.specs.Readings.{AddsMatch, AddsRule, RemovesMatch, Attaches};
ghost use Rattle.passes.specs.Compiling.{Compiles};

use crate::control::Control;
use crate::error::BusError;
use crate::pass::Pass;
use bpf_code::Ins;
use bpf_verify::verify;
use entry_table::{AskedTexts, Attachment, RuleProgram};
use match_rule::Rule;
use program_table::{Command, Reply};
use published::BusBrand;
use routing::Mailbox;
use std::alloc::Global;
use std::sync::Wait;
use summary::Edition;

impl<B: BusBrand, M: Mailbox, R: Wait + Drop> Control<B, M, R> {
    /// Adds an entry with a rule (AddMatch).
    pub fn add_match(
        &mut self,
        alloc: Global,
        pass: &mut Pass<B, M>,
        text: &str,
    ) -> Result<Reply, BusError>
        ensures { AddsMatch text.now pass.old self.old result pass.new self.new }
    {
        match Rule::read(alloc, text) {
            Ok(rule) => self.add_rule(alloc, pass, rule),
            Err(fault) => Err(BusError::of_text(fault)),
        }
    }

    // Adds a rule. A refusal by the state is named before the length of the rule's program.
    fn add_rule(
        &mut self,
        alloc: Global,
        pass: &mut Pass<B, M>,
        rule: Rule,
    ) -> Result<Reply, BusError>
        ensures { AddsRule rule pass.old self.old result pass.new self.new }
    {
        self.admit(pass)?;
        let connection = pass.connection();
        match self.compile_for(alloc, connection, rule) {
            Ok(program) => self.publish(pass, Command::AddRule(connection, program)),
            Err(error) => Err(pass.refuse(error)),
        }
    }

    // The rule with its program, for the slot that the state gives to its sender name.
    fn compile_for(
        &self,
        alloc: Global,
        connection: u64,
        rule: Rule,
    ) -> Result<RuleProgram, BusError>
        ensures { Compiles (after self.now.history) connection rule result }
    {
        match self.state().rule_slot(connection, &rule) {
            Ok(slot) => match RuleProgram::compile(alloc, rule, slot) {
                Ok(program) => {
                    // The contract of `slot` says that the slot fits the rule.
                    let _ = program.slot();
                    Ok(program)
                }
                Err(error) => Err(BusError::of_compiling(error)),
            },
            Err(refusal) => Err(BusError::of(refusal)),
        }
    }

    /// Takes away the oldest entry with an equal rule (RemoveMatch).
    pub fn remove_match(
        &mut self,
        alloc: Global,
        pass: &mut Pass<B, M>,
        text: &str,
    ) -> Result<Reply, BusError>
        ensures { RemovesMatch text.now pass.old self.old result pass.new self.new }
    {
        match Rule::read(alloc, text) {
            Ok(rule) => {
                let connection = pass.connection();
                self.command(pass, Command::RemoveRule(connection, rule))
            }
            Err(fault) => Err(BusError::of_text(fault)),
        }
    }

    /// Attaches a program that reads images of this edition, of the messages with these texts.
    pub fn attach(
        &mut self,
        alloc: Global,
        pass: &mut Pass<B, M>,
        edition: Edition,
        program: Vec<Ins>,
        asked: AskedTexts,
    ) -> Result<Reply, BusError>
        ensures { Attaches edition program.items asked pass.old self.old result pass.new self.new }
    {
        let program = match verify(program) {
            Ok(program) => program,
            Err((fault, _)) => return Err(BusError::Program(fault)),
        };
        match Attachment::new(alloc, edition, program, asked) {
            Ok(attachment) => {
                let connection = pass.connection();
                self.command(pass, Command::Attach(connection, attachment))
            }
            Err(_) => Err(BusError::NoMemory),
        }
    }
}
