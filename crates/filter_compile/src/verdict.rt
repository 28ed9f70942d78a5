// The verdict of a filter's text on a message.
ghost use Rattle.std.specs.Prelude.{IfOk, IfErr};
ghost use Rattle.filter_compile.specs.FilterVerdict.{DecidesFilter, IsUndecided};

use crate::compiling::compile;
use crate::error::CompileError;
use bpf_machine::Outcome;
use filter::{Filter, FilterError};
use message_view::View;
use rule_compile::outcome_on;
use std::alloc::Global;
use summary::{Edition, Slots};

/// Why a text has no verdict.
#[derive(Clone, Copy, Debug, PartialEq, Eq)]
pub enum VerdictError {
    /// It doesn't read as a filter.
    Filter(FilterError),
    /// Its filter isn't compiled.
    Program(CompileError),
}

impl From<FilterError> for VerdictError {
    ghost use Rattle.std.specs.Prelude.{◌≡◌};
    ghost use Rattle.filter_compile.specs.declared.verdict.VerdictError.TheVariants as verdicts;

    ghost from_gives = { λ fault error. error ≡ verdicts.Filter fault };

    fn from(fault: FilterError) -> VerdictError {
        VerdictError::Filter(fault)
    }
}

impl From<CompileError> for VerdictError {
    ghost use Rattle.std.specs.Prelude.{◌≡◌};
    ghost use Rattle.filter_compile.specs.declared.verdict.VerdictError.TheVariants as verdicts;

    ghost from_gives = { λ refused error. error ≡ verdicts.Program refused };

    fn from(refused: CompileError) -> VerdictError {
        VerdictError::Program(refused)
    }
}

/// Reads a filter, compiles it, and runs its program on the image of a message, of edition 2. The verdict is nonzero
/// exactly where the filter that the text reads as holds of the message. The slot of a name that the filter asks for is
/// the name's place among those that it asks for, in the text's order; it is among `owned` exactly where the message's
/// sender owns that name.
pub fn verdict_of_filter(
    alloc: Global,
    text: &str,
    view: &View<'_>,
    owned: &Slots,
) -> Result<Outcome, VerdictError>
    ensures decided { IfOk result (λ outcome. DecidesFilter text.now view.now owned.now outcome.verdict outcome.steps) }
    ensures fault { IfErr result (IsUndecided text.now) }
{
    let filter = Filter::read(alloc, text)?;
    let program = compile(alloc, &filter)?;
    Ok(outcome_on(&program, view, owned, Edition::Two))
}
