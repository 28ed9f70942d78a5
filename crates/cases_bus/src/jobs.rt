// Jobs: broadcasts whose recipients were found, and that have not ended.

use std::alloc::{AllocError, Global};
use std::collections::BTreeMap;

/// How many parts the recipients of a job are divided into.
const PARTS: u64 = 16;

/// The recipients of a broadcast, and which of their parts were asked for.
#[derive(Drop)]
struct Job {
    recipients: Vec<u64>,
    is_done: [bool; PARTS as usize],
}

impl Job {
    /// Whether there is a part of this number, from 1, that was not asked for before. It was asked for then.
    fn take(&mut self, part: u64) -> bool {
        if part == 0 || part > PARTS {
            return false;
        }
        let index = part as usize - 1;
        let is_new = !self.is_done[index];
        self.is_done[index] = true;
        is_new
    }

    /// The recipients in a part: those whose number leaves one less than the part's when divided by the number of
    /// parts.
    fn part(&self, alloc: Global, part: u64) -> Result<Vec<u64>, AllocError> {
        let mut numbers = Vec::new(alloc);
        for number in &self.recipients {
            if *number % PARTS + 1 == part {
                numbers.push(*number)?;
            }
        }
        Ok(numbers)
    }
}

/// The open jobs, by the numbers of the events that began them.
#[derive(Drop)]
pub(crate) struct Jobs {
    alloc: Global,
    jobs: BTreeMap<u64, Job>,
}

impl Jobs {
    pub(crate) fn new(alloc: Global) -> Jobs {
        Jobs {
            alloc,
            jobs: BTreeMap::new(alloc),
        }
    }

    /// A job of this number is open from now on.
    pub(crate) fn begin(&mut self, number: u64, recipients: &[u64]) -> Result<(), AllocError> {
        let job = Job {
            recipients: recipients.to_vec(self.alloc)?,
            is_done: [false; PARTS as usize],
        };
        self.jobs.insert(number, job)?;
        Ok(())
    }

    /// The recipients of a job in a part that was not asked for before.
    pub(crate) fn piece(&mut self, number: u64, part: u64) -> Result<Option<Vec<u64>>, AllocError> {
        let Some(job) = self.jobs.get_mut(&number) else {
            return Ok(None);
        };
        if !job.take(part) {
            return Ok(None);
        }
        Ok(Some(job.part(self.alloc, part)?))
    }

    /// The job ends: its recipients.
    pub(crate) fn end(&mut self, number: u64) -> Option<Vec<u64>> {
        let job = self.jobs.remove(&number)?;
        Some(job.recipients)
    }
}
