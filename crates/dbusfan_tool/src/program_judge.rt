// What judges messages.

ghost use Rattle.std.specs.Prelude.{◌≡◌, Bool, IfOk, option_map, string_bytes};
ghost use Rattle.bpf_code.specs.Steps.{Ends};
ghost use Rattle.message_view.specs.Message.{Message};
ghost use Rattle.message_view.specs.Valid.{Valid};
ghost use Rattle.summary.specs.Sets.{has_slot, IsSet};
ghost use Rattle.rule_compile.specs.Compiled.{IsCompiled};
ghost use Rattle.dbusfan_tool.specs.Compiling.{slot_for};
ghost use Rattle.filter.specs.Filters.{tree_of};
ghost use Rattle.filter_compile.specs.Compiled.{AgreeOn, IsCompiled as IsCompiledFilter};
ghost use Rattle.dbusfan_tool.specs.Judges.{Judge, by_rule, by_filter, by_program, rule_words, IsTraceIf, IsOutcome};
ghost use Rattle.dbusfan_tool.specs.Serving.{Serves, TellsOf};

use crate::compiling::SENDER_SLOT;
use crate::judgement::Judgement;
use crate::why::{Told, Why};
use crate::wording::Wording;
use bpf_machine::{Outcome, run};
use bpf_trace::push_trace;
use bpf_verify::Verified;
use filter::Filter;
use match_rule::Rule;
use message_view::View;
use std::alloc::{AllocError, Global};
use summary::{Edition, Image, Slots};

/// A program that judges messages, that of a rule or a filter or one of its own, with the slots that all senders own.
#[derive(Drop)]
pub(crate) struct ProgramJudge {
    program: Verified,
    slots: Slots,
    edition: Edition,
    pub(crate) words: Wording,
    why: Option<Why>,
    traces: bool,
}

/// How a run ended, and the lines of its steps where they are wanted.
#[derive(Drop)]
struct Ran {
    outcome: Outcome,
    trace: String,
}

impl ProgramJudge {
    /// The judge of a rule and its program. A text stands before each reason why the rule doesn't match, if reasons are
    /// wanted; and it is said how many messages are wanted, if only the nearest are.
    pub(crate) fn of_rule(
        program: Verified,
        rule: Rule,
        owns: bool,
        front: Option<&'static str>,
        nearest: Option<u64>,
    ) -> ProgramJudge
        ensures { IsCompiled rule (slot_for rule) program → Serves (by_rule rule owns (option_map (λ text. text.now) front.entry) nearest) result }
    {
        let owned = slots(owns);
        ProgramJudge {
            program,
            slots: owned,
            edition: Edition::Two,
            words: rule_words(nearest),
            why: Why::of_rule(rule, owns, front),
            traces: false,
        }
    }

    /// The judge of a filter and its program, where all senders own these slots. A text stands before each test, if it is to
    /// be said which tests hold.
    pub(crate) fn of_filter(
        program: Verified,
        slots: Slots,
        filter: Filter,
        owns: bool,
        front: Option<&'static str>,
    ) -> ProgramJudge
        ensures { IsCompiledFilter (tree_of filter) program → IsSet slots → AgreeOn (tree_of filter) (λ name. owns) slots → Serves (by_filter (tree_of filter) owns (option_map (λ text. text.now) front.entry)) result }
    {
        let edition = Edition::Two;
        ProgramJudge {
            program,
            slots,
            edition,
            words: Wording::OfRule,
            why: Why::of_filter(filter, owns, front),
            traces: false,
        }
    }

    /// The judge that a program is, for images of an edition, and whether its steps are wanted.
    pub(crate) fn of_program(program: Verified, edition: Edition, traces: bool) -> ProgramJudge
        ensures { Serves (by_program program edition traces) result }
    {
        let none = Slots::empty();
        ProgramJudge {
            program,
            slots: none,
            edition,
            words: Wording::OfProgram,
            why: None,
            traces,
        }
    }

    /// What it says of a message.
    pub(crate) fn judge(&self, alloc: Global, message: &View<'_>) -> Result<Judgement, AllocError>
        ensures { IfOk result (λ judgement. (judge : Judge) (m : Message) → Serves judge self.now → Valid message.now m → IsOutcome judge message.now judgement) }
    {
        let image = Image::new(message, &self.slots, self.edition);
        let ran = self.run(alloc, &image)?;
        let told = self.told(alloc, message)?;
        let Ran { outcome, trace } = ran;
        let Told { reasons, misses } = told;
        Ok(Judgement {
            verdict: outcome.verdict,
            steps: outcome.steps,
            reasons,
            misses,
            trace,
        })
    }

    /// How the program's run ends, and by which steps where they are wanted.
    fn run(&self, alloc: Global, image: &Image<'_>) -> Result<Ran, AllocError>
        ensures ends { IfOk result (λ ran. Ends self.now.program image.now ran.outcome.verdict ran.outcome.steps) }
        ensures traced { IfOk result (λ ran. IsTraceIf self.now.traces self.now.edition self.now.program image.now ran.outcome.verdict ran.outcome.steps (string_bytes ran.trace)) }
    {
        let mut trace = String::new(alloc);
        if self.traces {
            let outcome = push_trace(alloc, &mut trace, self.edition, &self.program, image)?;
            return Ok(Ran { outcome, trace });
        }
        let outcome = run(&self.program, image);
        Ok(Ran { outcome, trace })
    }

    /// What is told of a message, if anything is wanted.
    fn told(&self, alloc: Global, message: &View<'_>) -> Result<Told, AllocError>
        ensures { IfOk result (λ told. (m : Message) → Valid message.now m → TellsOf self.now.why m (string_bytes told.reasons) told.misses) }
    {
        match &self.why {
            Some(why) => why.told(alloc, message),
            None => Ok(Told {
                reasons: String::new(alloc),
                misses: 0,
            }),
        }
    }
}

/// What is said of messages, of which only this many are wanted if it is said.
fn rule_words(nearest: Option<u64>) -> Wording
    ensures { result ≡ rule_words nearest }
{
    match nearest {
        Some(count) => Wording::OfNearest(count),
        None => Wording::OfRule,
    }
}

/// The slot of the rule's well-known sender, where the message's sender owns it.
fn slots(owns: bool) -> Slots
    ensures set { IsSet result }
    ensures owned { has_slot result 0 ≡ owns }
{
    let mut slots = Slots::empty();
    if owns {
        slots.insert(SENDER_SLOT);
    }
    slots
}
