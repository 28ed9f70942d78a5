// The messages of a capture that a rule misses by the fewest conditions.

ghost use Rattle.std.specs.Prelude.{◌≡◌, ◌≤◌, ◌++◌, OnOk, length, take, string_bytes};
ghost use Rattle.dbusfan_tool.specs.Nearest.{put_near, near_lines};
ghost use Rattle.dbusfan_tool.specs.Places.{place_of, kept_with, kept_outcome};

use crate::finding::Finding;
use crate::judgement::Judgement;
use std::alloc::AllocError;
use std::fmt::Write;
use std::marker::Model;

/// A message that a rule doesn't hold of: its number, how many reasons there are, and their text.
#[derive(Drop)]
pub(crate) struct NearMiss {
    number: u64,
    misses: usize,
    reasons: String,
}

impl Model for NearMiss {
    ghost use Rattle.std.specs.Prelude.{string_bytes};
    ghost use Rattle.dbusfan_tool.specs.Nearest.{Near};

    ghost Value = { Near };

    ghost view = { λ miss. record { number = miss.number; misses = miss.misses; reasons = string_bytes miss.reasons } };
}

impl NearMiss {
    ghost use Rattle.std.specs.Prelude.{◌≡◌, ◌++◌, OnOk, string_bytes};
    ghost use Rattle.dbusfan_tool.specs.Nearest.{near_of, near_line};

    fn of(number: u64, outcome: Judgement) -> NearMiss
        ensures { result ≡ near_of number outcome }
    {
        NearMiss {
            number,
            misses: outcome.misses,
            reasons: outcome.reasons,
        }
    }

    fn misses(&self) -> usize
        ensures { result ≡ self.now.misses }
    {
        self.misses
    }

    /// Writes its line at the end of a text.
    fn put_line(&self, text: &mut String) -> Result<(), AllocError>
        ensures { OnOk result (string_bytes text.new ≡ string_bytes text.old ++ near_line self.now) }
    {
        let number = self.number;
        write!(text, "{number} no match")?;
        text.push_str(self.reasons.as_str())?;
        text.push_str("\n")
    }
}

/// The place after those that have as few reasons or fewer.
fn place_of(nearest: &[NearMiss], misses: usize) -> usize
    ensures value { result ≡ place_of misses nearest.now }
    ensures few { result ≤ length nearest.now }
{
    for (place, other) in nearest.iter().enumerate() {
        if misses < other.misses() {
            return place;
        }
    }
    nearest.len()
}

/// Puts a message after those that have as few reasons or fewer, and keeps the first `count`.
fn put_near(nearest: &mut Vec<NearMiss>, count: u64, miss: NearMiss) -> Result<(), AllocError>
    ensures { OnOk result (nearest.new.items ≡ take count (put_near miss nearest.old.items)) }
{
    let place = place_of(nearest, miss.misses());
    nearest.insert(place, miss)?;
    nearest.truncate(count as usize);
    Ok(())
}

fn keep_outcome(
    nearest: &mut Vec<NearMiss>,
    count: u64,
    number: u64,
    outcome: Judgement,
) -> Result<(), AllocError>
    ensures { OnOk result (nearest.new.items ≡ kept_outcome count nearest.old.items number outcome) }
{
    if outcome.verdict == 0 {
        put_near(nearest, count, NearMiss::of(number, outcome))
    } else {
        Ok(())
    }
}

/// Keeps a packet's message if it is one of the `count` nearest so far.
pub(crate) fn keep(
    nearest: &mut Vec<NearMiss>,
    count: u64,
    number: u64,
    finding: Finding,
) -> Result<(), AllocError>
    ensures { OnOk result (nearest.new.items ≡ kept_with count nearest.old.items number finding) }
{
    match finding {
        Finding::Judged(outcome) => keep_outcome(nearest, count, number, outcome),
        Finding::Cut | Finding::NoMessage(_) => Ok(()),
    }
}

/// Writes the lines of messages at the end of a text.
pub(crate) fn put_near_lines(text: &mut String, nearest: &[NearMiss]) -> Result<(), AllocError>
    ensures { OnOk result (string_bytes text.new ≡ string_bytes text.old ++ near_lines nearest.now) }
{
    for miss in nearest {
        miss.put_line(text)?;
    }
    Ok(())
}
