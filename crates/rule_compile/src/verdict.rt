// The verdict of a rule's text on a message.
ghost use Rattle.std.specs.Prelude.{◌≡◌, ◌<◌, IfOk, IfErr};
ghost use Rattle.match_rule.specs.RuleTree.{sender_name_of};
ghost use Rattle.rule_compile.specs.RuleVerdict.{slot_if_asked, DecidesText, IsUndecided};

use crate::compiling::compile;
use crate::error::CompileError;
use crate::headline::outcome_on;
use bpf_machine::Outcome;
use match_rule::{Rule, RuleError};
use message_view::View;
use std::alloc::Global;
use summary::{Edition, Slots};

/// Why a text has no verdict.
#[derive(Clone, Copy, Debug, PartialEq, Eq)]
pub enum VerdictError {
    /// It doesn't read as a rule.
    Rule(RuleError),
    /// Its rule isn't compiled.
    Program(CompileError),
}

impl From<RuleError> for VerdictError {
    ghost use Rattle.rule_compile.specs.declared.verdict.VerdictError.TheVariants.{Rule};

    ghost from_gives = { λ fault error. error ≡ Rule fault };

    fn from(fault: RuleError) -> VerdictError {
        VerdictError::Rule(fault)
    }
}

impl From<CompileError> for VerdictError {
    ghost use Rattle.rule_compile.specs.declared.verdict.VerdictError.TheVariants.{Program};

    ghost from_gives = { λ refused error. error ≡ Program refused };

    fn from(refused: CompileError) -> VerdictError {
        VerdictError::Program(refused)
    }
}

fn slot_of(rule: &Rule, slot: u16) -> Option<u16>
    ensures { result ≡ slot_if_asked (sender_name_of rule.now) slot }
{
    match rule.sender_name() {
        Some(_) => Some(slot),
        None => None,
    }
}

/// Reads a rule, compiles it, and runs its program on the image of a message, of edition 2. The verdict is nonzero exactly
/// where the rule that the text reads as holds of the message (D-Bus Specification, "Match Rules"). `slot` is that of the
/// well-known name that the rule asks for as the sender, if it does: it is among `owned` exactly where the message's
/// sender owns that name.
pub fn verdict_of_text(
    alloc: Global,
    text: &str,
    slot: u16,
    view: &View<'_>,
    owned: &Slots,
) -> Result<Outcome, VerdictError>
    requires { slot < 1024 }
    ensures decided { IfOk result (λ outcome. DecidesText text.now slot view.now owned.now outcome.verdict outcome.steps) }
    ensures fault { IfErr result (IsUndecided text.now) }
{
    let rule = Rule::read(alloc, text)?;
    let slot = slot_of(&rule, slot);
    let program = compile(alloc, &rule, slot)?;
    Ok(outcome_on(&program, view, owned, Edition::Two))
}
