// What it costs to find the recipients of a message.

ghost use Rattle.std.specs.Prelude.{◌≡◌, ◌+◌, ◌<◌, ℕ, List, MatchOption};
ghost use Rattle.bpf_code.specs.Steps.{Ends};
ghost use Rattle.program_table.specs.Answers.{max_entries};

use bpf_machine::{constant_verdict, run};
use bpf_verify::Verified;
use summary::Image;

/// What it cost to find the recipients of a message: how many programs were run, and how many instructions they performed
/// together. Contracts don't see the instructions.
#[derive(Clone, Copy, Debug, PartialEq, Eq)]
pub struct Cost {
    pub runs: u32,
    pub steps: u64,
}

impl Cost {
    /// No program was run.
    pub(crate) fn none() -> Cost
        ensures { result.runs ≡ 0 }
    {
        Cost { runs: 0, steps: 0 }
    }

    /// Counts a run of this many steps.
    fn count(&mut self, steps: u32)
        requires { self.old.runs < max_entries }
        ensures { self.new.runs ≡ self.old.runs + 1 }
    {
        self.runs += 1;
        self.steps = self.steps.wrapping_add(u64::from(steps));
    }

    /// Runs a program over an image, and gives its verdict.
    pub(crate) fn run(&mut self, program: &Verified, image: &Image<'_>) -> u32
        requires { self.old.runs < max_entries }
        ensures counted { self.new.runs ≡ self.old.runs + 1 }
        ensures ends { (steps : ℕ) × Ends program.now image.now result steps }
    {
        let outcome = run(program, image);
        self.count(outcome.steps);
        outcome.verdict
    }

    /// Runs a program that returns a constant at once, over whatever image, and gives its verdict. Another program isn't
    /// run.
    pub(crate) fn run_constant(&mut self, program: &Verified) -> Option<u32>
        requires { self.old.runs < max_entries }
        ensures { MatchOption result (self.new ≡ self.old) (λ verdict. (self.new.runs ≡ self.old.runs + 1) × ((image : List ℕ) → (steps : ℕ) × Ends program.now image verdict steps)) }
    {
        let verdict = constant_verdict(program)?;
        self.count(1);
        Some(verdict)
    }
}
