// Rules as accepted programs.
ghost use Rattle.std.specs.Prelude.{◌≡◌, IfOk, IfErr};
ghost use Rattle.bpf_code.specs.Program.{WellFormed};
ghost use Rattle.rule_compile.specs.Compiled.{IsSlotOf, IsCompiled, IsRefusal};
ghost use Rattle.rule_compile.specs.Rest.{IsRest};
ghost use Rattle.rule_compile.specs.Tested.{tested_of};

use crate::error::CompileError;
use crate::ranking::rule_code;
use crate::rest::Tested;
use bpf_code::Ins;
use bpf_verify::{Verified, verify};
use match_rule::Rule;
use std::alloc::Global;

/// A well-formed program, which is accepted.
fn verified_program(program: Vec<Ins>) -> Verified
    requires { WellFormed program.items }
    ensures { result ≡ program.items }
{
    match verify(program) {
        Ok(verified) => verified,
        Err(_) => unreachable!(),
    }
}

/// The program of those conditions of a rule that are tested.
fn compile_tested(
    alloc: Global,
    rule: &Rule,
    slot: Option<u16>,
    tested: Tested<'_>,
) -> Result<Verified, CompileError>
    requires { IsSlotOf slot rule.now }
    ensures compiled { IfOk result (λ program. IsCompiled (tested_of tested.entry rule.now) slot program) }
    ensures refused { IfErr result (IsRefusal rule.now) }
{
    let slot = slot.unwrap_or(0);
    let code = rule_code(alloc, slot, rule.conditions(), rule.eavesdrops(), tested)?;
    let program = code.lower(alloc)?;
    Ok(verified_program(program))
}

/// The program of a rule, for images of edition 2: its verdict is nonzero exactly where the rule holds of the message
/// (D-Bus Specification, "Match Rules"). A rule that asks for an owned name as the sender has a slot, whose bit in the
/// image tells whether the sender owns the name. It is `TooLong` only where the rule weighs more than 4,096, and
/// `NoMemory` where memory was refused.
pub fn compile(alloc: Global, rule: &Rule, slot: Option<u16>) -> Result<Verified, CompileError>
    requires { IsSlotOf slot rule.now }
    ensures compiled { IfOk result (λ program. IsCompiled rule.now slot program) }
    ensures refused { IfErr result (IsRefusal rule.now) }
{
    compile_tested(alloc, rule, slot, Tested::All)
}

/// The program of what is left of a rule, for images of edition 2 of messages that have the texts which the rule fixes,
/// as they have where they were looked up by these texts, and whose envelope fits: its verdict is nonzero exactly where
/// the rule holds of such a message. The slot and the errors are those of `compile`.
pub fn compile_rest(alloc: Global, rule: &Rule, slot: Option<u16>) -> Result<Verified, CompileError>
    requires { IsSlotOf slot rule.now }
    ensures rest { IfOk result (λ program. IsRest rule.now slot program) }
    ensures refused { IfErr result (IsRefusal rule.now) }
{
    compile_tested(alloc, rule, slot, Tested::Left(rule))
}
