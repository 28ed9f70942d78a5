// Jobs: broadcasts that began and have not ended.

ghost use Rattle.std.specs.Prelude.{◌≡◌, ◌≤◌, true, false, length, MatchOption};
ghost use Rattle.world.specs.Jobs.{in_part};
ghost use Rattle.world.specs.Steps.{opened_job, is_free_in, with_part};

use arrayvec::ArrayVec;
use std::marker::Model;

/// How many parts the recipients of a job are divided into.
const PARTS: usize = 16;

/// The recipients of a broadcast, and which of their parts were asked for.
#[derive(Drop)]
pub(crate) struct Job {
    recipients: ArrayVec<u64, 4096>,
    parts_done: [bool; PARTS],
}

impl Model for Job {
    ghost use Rattle.world.specs.OpenJobs.{OpenJob};

    ghost Value = { OpenJob };

    ghost view = { λ job. record { recipients = job.recipients.items; parts_done = job.parts_done } };
}

impl Job {
    pub(crate) fn new(recipients: ArrayVec<u64, 4096>) -> Job
        ensures { result ≡ opened_job recipients.items }
    {
        Job {
            recipients,
            parts_done: [false; PARTS],
        }
    }

    /// The recipients in a part, from 1, if it was not asked for before. From then on it was.
    pub(crate) fn take_part(&mut self, part: u32) -> Option<ArrayVec<u64, 4096>>
        ensures { MatchOption result ((is_free_in self.old part ≡ false) × (self.new ≡ self.old)) (λ numbers. (is_free_in self.old part ≡ true) × (self.new ≡ with_part part self.old) × (numbers.items ≡ in_part part self.old.recipients)) }
    {
        let index = (part as usize).checked_sub(1)?;
        if index >= PARTS || self.parts_done[index] {
            return None;
        }
        self.parts_done[index] = true;
        Some(in_part(self.recipients.as_slice(), part))
    }

    /// All recipients.
    pub(crate) fn into_recipients(self) -> ArrayVec<u64, 4096>
        ensures { result.items ≡ self.recipients }
    {
        self.recipients
    }
}

/// The numbers that leave `part - 1` when divided by the number of parts.
fn in_part(numbers: &[u64], part: u32) -> ArrayVec<u64, 4096>
    requires few { length numbers.now ≤ 4096 }
    requires part { 1 ≤ part }
    ensures { result.items ≡ in_part part numbers.now }
{
    let mut found = ArrayVec::new();
    for number in numbers {
        if *number % PARTS as u64 == u64::from(part - 1) {
            found.push(*number);
        }
    }
    found
}
