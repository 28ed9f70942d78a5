// A run, step by step.

ghost use Rattle.std.specs.Prelude.{◌≡◌, ◌++◌, ℕ, List, IfOk, string_bytes};
ghost use Rattle.bpf_code.specs.Steps.{Ends};
ghost use Rattle.bpf_trace.specs.Traces.{IsTrace};

use crate::configuration::{Next, first};
use crate::line::push_line;
use crate::step::step;
use bpf_machine::{Outcome, run};
use bpf_verify::Verified;
use std::alloc::{AllocError, Global};
use summary::{Edition, Image};

/// Runs a program over an image, and adds a line for each step: the instruction, with the label of its place; A, X and the
/// scratch words that are set, all before the step; and what it reads of the image.
///
/// # Errors
///
/// Memory was refused.
pub fn push_trace(
    alloc: Global,
    text: &mut String,
    edition: Edition,
    program: &Verified,
    image: &Image<'_>,
) -> Result<Outcome, AllocError>
    ensures ends { IfOk result (λ outcome. Ends program.now image.now outcome.verdict outcome.steps) }
    ensures traces { IfOk result (λ outcome. (lines : List ℕ) × IsTrace edition program.now image.now outcome.verdict outcome.steps lines × (string_bytes text.new ≡ string_bytes text.old ++ lines)) }
{
    let outcome = run(program, image);
    let mut at = first();
    'steps: for _ in 0..outcome.steps {
        push_line(alloc, text, edition, program.code(), image, &at)?;
        match step(program, image, &at) {
            Some(Next::Goes(next)) => at = next,
            Some(Next::Stops(_)) => return Ok(outcome),
            None => return Ok(outcome),
        }
    }
    Ok(outcome)
}
