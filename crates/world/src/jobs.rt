// The open jobs by number.

ghost use Rattle.std.specs.Prelude.{◌≡◌, [], Some, None, OnOk, OnErr, MatchOption, IsSomeAnd};
ghost use Rattle.world.specs.OpenJobs.{job_of};
ghost use Rattle.world.specs.Steps.{opened_job, SetsJob, SameJobs, HasPart, LacksPart};

use crate::job::Job;
use arrayvec::ArrayVec;
use std::alloc::{AllocError, Global};
use std::collections::BTreeMap;
use std::marker::Model;

/// The open jobs by number.
#[derive(Drop)]
pub(crate) struct Jobs {
    jobs: BTreeMap<u64, Job>,
}

impl Model for Jobs {
    ghost use Rattle.std.specs.Prelude.{ℕ, List};
    ghost use Rattle.world.specs.OpenJobs.{OpenJob};

    ghost Value = { List (ℕ × OpenJob) };

    ghost view = { λ j. j.jobs.entries };
}

impl Jobs {
    pub(crate) fn new(alloc: Global) -> Jobs
        ensures { result ≡ [] }
    {
        Jobs {
            jobs: BTreeMap::new(alloc),
        }
    }

    /// Opens a job of this number.
    pub(crate) fn begin(
        &mut self,
        number: u64,
        recipients: ArrayVec<u64, 4096>,
    ) -> Result<(), AllocError>
        ensures ok { OnOk result (SetsJob number (Some (opened_job recipients.items)) self.old self.new) }
        ensures err { OnErr result (self.new ≡ self.old) }
    {
        self.jobs.insert(number, Job::new(recipients))?;
        Ok(())
    }

    /// The recipients of an open job in a part that was not asked for before.
    pub(crate) fn take_part(&mut self, number: u64, part: u32) -> Option<ArrayVec<u64, 4096>>
        ensures { MatchOption result (LacksPart (job_of number self.old) part × SameJobs self.old self.new) (λ numbers. HasPart number part self.old self.new numbers.items) }
    {
        self.jobs.get_mut(&number)?.take_part(part)
    }

    /// Ends a job, and answers its recipients.
    pub(crate) fn end(&mut self, number: u64) -> Option<ArrayVec<u64, 4096>>
        ensures recipients { MatchOption result (job_of number self.old ≡ None) (λ numbers. IsSomeAnd (job_of number self.old) (λ job. numbers.items ≡ job.recipients)) }
        ensures ends { SetsJob number None self.old self.new }
    {
        let job = self.jobs.remove(&number)?;
        Some(job.into_recipients())
    }
}
