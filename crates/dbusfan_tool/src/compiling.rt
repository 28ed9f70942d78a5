// `compile RULE`.

ghost use Rattle.std.specs.Prelude.{◌≡◌, ◌⊎◌, ℕ, List, Result, Ok, Err, IfOk, IfErr, string_bytes};
ghost use Rattle.bpf_code.specs.Program.{WellFormed};
ghost use Rattle.rule_compile.specs.Compiled.{IsCompiled, IsRefusal};
ghost use Rattle.command_line.specs.declared.error.Fault.{Fault};
ghost use Rattle.rule_compile.specs.declared.error.CompileError.{CompileError};
ghost use Rattle.match_rule.specs.RuleTree.{RuleTree};
ghost use Rattle.match_rule.specs.Grammar.{ReadsAs};
ghost use Rattle.dbusfan_tool.specs.Compiling.{Compiles, IsRuleFault, slot_for, fault_of_compile};
ghost use Rattle.dbusfan_tool.specs.Answer.{said_of, saying, failing};
ghost use Rattle.dbusfan_tool.specs.Views.{said_by};

use crate::answer::Answer;
use bpf_text::print;
use bpf_verify::Verified;
use command_line::Fault;
use match_rule::{Rule, RuleError};
use rule_compile::{CompileError, compile};
use std::alloc::Global;

/// The slot of a rule's well-known sender.
pub(crate) const SENDER_SLOT: u16 = 0;

/// The text of the rule's program, or the first fault.
pub(crate) fn answer(alloc: Global, rule: &str) -> Answer
    ensures { ((found : Result (List ℕ) Fault) × Compiles rule.now found × (said_by result ≡ said_of saying found))
        ⊎ (said_by result ≡ failing Fault.Memory) }
{
    match compile_text(alloc, rule) {
        Ok(text) => Answer::Text(text),
        Err(fault) => Answer::Fault(fault),
    }
}

fn compile_text(alloc: Global, rule: &str) -> Result<String, Fault>
    ensures found { IfOk result (λ text. Compiles rule.now (Ok (string_bytes text))) }
    ensures fault { IfErr result (λ fault. Compiles rule.now (Err fault) ⊎ (fault ≡ Fault.Memory)) }
{
    let program = rule_program(alloc, rule)?;
    let text = print(alloc, program.code())?;
    Ok(text)
}

/// The program of the rule that a text spells, or the first fault.
pub(crate) fn rule_program(alloc: Global, rule: &str) -> Result<Verified, Fault>
    ensures found { IfOk result (λ program. (tree : RuleTree) × ReadsAs rule.now tree × IsCompiled tree (slot_for tree) program) }
    ensures fault { IfErr result (λ fault. IsRuleFault rule.now fault ⊎ (fault ≡ Fault.Memory)) }
{
    let rule = Rule::read(alloc, rule)?;
    let program = program_of(alloc, &rule)?;
    Ok(program)
}

/// The program of a rule, or what it means for a command that there is none.
pub(crate) fn program_of(alloc: Global, rule: &Rule) -> Result<Verified, Fault>
    ensures compiled { IfOk result (λ program. IsCompiled rule.now (slot_for rule.now) program) }
    ensures refused { IfErr result (λ fault. (error : CompileError) × IsRefusal rule.now error × (fault ≡ fault_of_compile error)) }
{
    match compile_rule(alloc, rule) {
        Ok(program) => Ok(program),
        Err(error) => Err(fault_of(error)),
    }
}

fn compile_rule(alloc: Global, rule: &Rule) -> Result<Verified, CompileError>
    ensures compiled { IfOk result (λ program. IsCompiled rule.now (slot_for rule.now) program) }
    ensures refused { IfErr result (IsRefusal rule.now) }
{
    let slot = match rule.sender_name() {
        Some(_) => Some(SENDER_SLOT),
        None => None,
    };
    compile(alloc, rule, slot)
}

fn fault_of(error: CompileError) -> Fault
    ensures { result ≡ fault_of_compile error }
{
    match error {
        CompileError::TooLong => Fault::Rule(RuleError::TooLong),
        CompileError::NoMemory => Fault::Memory,
    }
}
