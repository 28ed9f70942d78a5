// Rules with their programs.

ghost use Rattle.std.specs.Prelude.{◌≡◌, ◌↔◌, IfErr, IsTrue};
ghost use Rattle.message_view.specs.Message.{Message};
ghost use Rattle.message_view.specs.Valid.{Valid};
ghost use Rattle.match_rule.specs.Envelope.{EnvelopeFits};
ghost use Rattle.rule_compile.specs.Compiled.{IsSlotOf, IsRefusal};
ghost use Rattle.entry_table.specs.RuleHints.{rule_texts};
ghost use Rattle.entry_table.specs.TextKeys.{shape_of};

use crate::lookup_texts::LookupTexts;
use bpf_verify::Verified;
use match_rule::Rule;
use message_view::View;
use rule_compile::{CompileError, compile, compile_rest};
use std::alloc::{AllocError, Global};
use std::marker::Model;
use std::sync::Arc;

/// The weight up to which a rule is never too long: it bounds the length of the rule's program in instructions.
const MAX_SURE_WEIGHT: u64 = 4096;

/// A rule, its slot, and the program of what is left of it beside the texts that it fixes and what it asks of the
/// envelope.
#[derive(Drop)]
struct Parts {
    rule: Rule,
    slot: Option<u16>,
    rest: Verified,
}

/// A rule and what runs of it, for images of edition 2. Shares are of one value. A message that was looked up has the
/// texts which the rule fixes, and its envelope is seen without an image, so that the program tests only what is left of
/// the rule: nothing, where the rule asks for such texts and for the envelope alone. The program of the whole rule isn't
/// kept: contracts see the one that `compile` lowers. Which texts the rule is looked up by is asked of each entry of a list
/// that a message is looked up in, so it is kept here, where no share has to be followed.
#[derive(Drop)]
pub struct RuleProgram {
    parts: Arc<Parts>,
    shape: u16,
}

impl Model for RuleProgram {
    ghost use Rattle.entry_table.specs.CompiledRule.{CompiledRule, IsFit};
    ghost use Rattle.entry_table.specs.RuleHints.{AreHints};
    ghost use Rattle.entry_table.specs.WholeProgram.{whole_program};
    ghost use Rattle.rule_compile.specs.Rest.{IsRest};

    ghost Value = { CompiledRule };

    ghost view = { λ p. record { rule = p.parts.value.rule; slot = p.parts.value.slot; program = whole_program p.parts.value.rule p.parts.value.slot } };

    ghost invariant = { λ p. IsFit (record { rule = p.parts.value.rule; slot = p.parts.value.slot; program = whole_program p.parts.value.rule p.parts.value.slot }) × IsRest p.parts.value.rule p.parts.value.slot p.parts.value.rest × AreHints p.parts.value.rule p.shape };
}

/// Refuses a rule whose program would be too long. That program isn't run, so a rule is compiled to it only if its weight
/// leaves the length open.
fn check_length(alloc: Global, rule: &Rule, slot: Option<u16>) -> Result<(), CompileError>
    requires { IsSlotOf slot rule.now }
    ensures { IfErr result (IsRefusal rule.now) }
{
    if rule.weight() > MAX_SURE_WEIGHT {
        compile(alloc, rule, slot)?;
    }
    Ok(())
}

impl RuleProgram {
    ghost use Rattle.std.specs.Prelude.{IfOk};
    ghost use Rattle.rule_compile.specs.Rest.{IsRest};
    ghost use Rattle.entry_table.specs.CompiledRule.{IsFit};

    /// Compiles what runs of a rule. A slot is given exactly where the rule asks for an owned name as the sender.
    ///
    /// # Errors
    ///
    /// `TooLong` only where the rule weighs more than 4,096, and `NoMemory` where memory was refused.
    pub fn compile(
        alloc: Global,
        rule: Rule,
        slot: Option<u16>,
    ) -> Result<RuleProgram, CompileError>
        requires { IsSlotOf slot rule }
        ensures rule { IfOk result (λ compiled. compiled.rule ≡ rule) }
        ensures slot { IfOk result (λ compiled. compiled.slot ≡ slot) }
        ensures refused { IfErr result (IsRefusal rule) }
    {
        check_length(alloc, &rule, slot)?;
        let rest = compile_rest(alloc, &rule, slot)?;
        // What its contract says of conditions makes the rule's program fit.
        let _ = rule.conditions();
        let shape = LookupTexts::of_rule(&rule).shape();
        let parts = Parts { rule, slot, rest };
        Ok(RuleProgram {
            parts: Arc::new(alloc, parts)?,
            shape,
        })
    }

    /// The same rule once more, without a copy.
    pub fn share(&self) -> Result<RuleProgram, AllocError>
        ensures { IfOk result (λ compiled. compiled ≡ self.now) }
    {
        Ok(RuleProgram {
            parts: Arc::try_clone(&self.parts)?,
            shape: self.shape,
        })
    }

    /// The rule.
    pub fn rule(&self) -> &Rule
        ensures { result.now ≡ self.now.rule }
    {
        &self.parts.rule
    }

    /// The slot of the owned name that the rule asks for as the sender.
    pub fn slot(&self) -> Option<u16>
        ensures value { result ≡ self.now.slot }
        // There is one below 1,024 exactly where the rule asks for such a name.
        ensures fit { IsFit self.now }
    {
        self.parts.slot
    }

    /// Which texts the rule is looked up by.
    pub(crate) fn shape(&self) -> u16
        ensures { result ≡ shape_of (rule_texts self.now.rule) }
    {
        self.shape
    }

    /// Whether a message's envelope is as the rule asks.
    pub fn fits_envelope(&self, view: &View<'_>) -> bool
        ensures { (m : Message) → Valid view.now m → (IsTrue result ↔ EnvelopeFits self.now.rule m) }
    {
        self.parts.rule.fits_envelope(view)
    }

    /// The program of what is left of the rule where a message has the texts that the rule fixes and its envelope fits.
    pub fn rest(&self) -> &Verified
        // Its verdict on the image of such a message is nonzero exactly where the rule holds of the message.
        ensures { IsRest self.now.rule self.now.slot result.now }
    {
        &self.parts.rest
    }
}
