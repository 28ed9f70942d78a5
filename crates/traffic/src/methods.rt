// What is counted of calls, by method.

use crate::times::Times;
use std::alloc::{AllocError, Global};

/// What became of a call, and how long that took, in nanoseconds.
#[derive(Clone, Copy)]
pub enum Outcome {
    Returned(u64),
    Failed(u64),
    Unanswered,
    /// Its caller wants no answer.
    OneWay,
}

/// How many calls a method had, how many of them were answered by an error, or by nobody, and how long answers took.
#[derive(Drop)]
pub struct MethodCounts {
    pub calls: u64,
    pub errors: u64,
    pub unanswered: u64,
    pub times: Times,
}

impl MethodCounts {
    ghost use Rattle.std.specs.Prelude.{◌≡◌, ℕ, OnOk};
    ghost use Rattle.traffic.specs.Methods.{no_calls, Counts};

    /// No calls, which takes no memory.
    pub fn new(alloc: Global) -> MethodCounts
        ensures { result ≡ no_calls }
    {
        MethodCounts {
            calls: 0,
            errors: 0,
            unanswered: 0,
            times: Times::new(alloc),
        }
    }

    /// Counts a call.
    ///
    /// # Errors
    ///
    /// Memory was refused.
    pub fn take(&mut self, outcome: Outcome) -> Result<(), AllocError>
        ensures { OnOk result (Counts outcome self.old self.new) }
    {
        self.calls = self.calls.saturating_add(1);
        match outcome {
            Outcome::Returned(time) => self.times.add(time),
            Outcome::Failed(time) => {
                self.errors = self.errors.saturating_add(1);
                self.times.add(time)
            }
            Outcome::Unanswered => {
                self.unanswered = self.unanswered.saturating_add(1);
                Ok(())
            }
            Outcome::OneWay => Ok(()),
        }
    }
}
