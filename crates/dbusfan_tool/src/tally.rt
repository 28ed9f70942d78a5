// What is found of a capture so far.

ghost use Rattle.std.specs.Prelude.{◌≡◌, ◌⊎◌, ◌+◌, ◌++◌, ℕ, Bool, List, [], ◌∷◌, IfOk, OnOk, string_bytes, if◌then◌else◌};
ghost use Rattle.command_line.specs.Output.{Puts, PutsParts};
ghost use Rattle.dbusfan_tool.specs.declared.finding.Finding.{Finding};
ghost use Rattle.dbusfan_tool.specs.declared.wording.Wording.{Wording};
ghost use Rattle.command_line.specs.declared.output.Output.{Output};
ghost use Rattle.dbusfan_tool.specs.Answer.{after_lines, failing};
ghost use Rattle.dbusfan_tool.specs.Findings.{judged_count, accepted_count};
ghost use Rattle.dbusfan_tool.specs.Reports.{verdict_line, note_line, said_of_capture};
ghost use Rattle.dbusfan_tool.specs.Places.{kept_by};
ghost use Rattle.dbusfan_tool.specs.Tallies.{IsTally};
ghost use Rattle.dbusfan_tool.specs.Views.{said_by};

use crate::answer::Answer;
use crate::finding::Finding;
use crate::nearest::{NearMiss, keep, put_near_lines};
use crate::report::{capture_status, put_last_line, put_note_line, put_notes, put_verdict_line};
use crate::wording::Wording;
use captures::CaptureError;
use command_line::{Fault, Output, Writer};
use std::alloc::{AllocError, Global};

/// What is found of a capture so far.
#[derive(Drop)]
pub(crate) struct Tally {
    words: Wording,
    /// Whether a line is wanted for each message, and those that aren't written yet.
    each: bool,
    lines: String,
    /// What standard error is to get of the packets that are passed over.
    notes: String,
    packets: u64,
    judged: u64,
    accepted: u64,
    passed_over: u64,
    /// The messages that a rule misses by the fewest conditions, if they are wanted.
    nearest: Vec<NearMiss>,
}

impl Tally {
    /// Of no packet.
    pub(crate) fn new(alloc: Global, words: Wording, each: bool) -> Tally
        ensures none { IsTally words each result [] [] 0 }
        ensures written { string_bytes result.lines ≡ [] }
    {
        Tally {
            words,
            each,
            lines: String::new(alloc),
            notes: String::new(alloc),
            packets: 0,
            judged: 0,
            accepted: 0,
            passed_over: 0,
            nearest: Vec::new(alloc),
        }
    }

    /// Takes what is found of the next packet.
    pub(crate) fn take(&mut self, finding: Finding) -> Result<(), AllocError>
        ensures { OnOk result ((words : Wording) (each : Bool) (written : List ℕ) (found : List Finding) (passed : ℕ) → IsTally words each self.old written found passed
            → IsTally words each self.new written (found ++ finding ∷ []) passed) }
    {
        let number = one_more(self.packets)?;
        self.put_texts(number, &finding)?;
        self.count(&finding)?;
        self.keep(number, finding)?;
        self.packets = number;
        Ok(())
    }

    /// Puts the lines of a packet after those of the packets before.
    fn put_texts(&mut self, number: u64, finding: &Finding) -> Result<(), AllocError>
        ensures lines { OnOk result (string_bytes self.new.lines ≡ string_bytes self.old.lines ++ (if self.old.each then verdict_line self.old.words number finding.now else [])) }
        ensures notes { OnOk result (string_bytes self.new.notes ≡ string_bytes self.old.notes ++ note_line number finding.now) }
        ensures same { self.new ≡ record self.old { lines = self.new.lines; notes = self.new.notes } }
    {
        put_note_line(&mut self.notes, number, finding)?;
        if !self.each {
            return Ok(());
        }
        put_verdict_line(&mut self.lines, self.words, number, finding)
    }

    /// Counts the message that was judged, if one was, and whether it is accepted.
    fn count(&mut self, finding: &Finding) -> Result<(), AllocError>
        ensures { OnOk result (self.new ≡ record self.old { judged = self.old.judged + judged_count (finding.now ∷ []); accepted = self.old.accepted + accepted_count (finding.now ∷ []) }) }
    {
        if let Finding::Judged(outcome) = finding {
            self.judged = one_more(self.judged)?;
            if outcome.verdict != 0 {
                self.accepted = one_more(self.accepted)?;
            }
        }
        Ok(())
    }

    /// Keeps a message that is one of the nearest so far, if they are wanted.
    fn keep(&mut self, number: u64, finding: Finding) -> Result<(), AllocError>
        ensures nearest { OnOk result (self.new.nearest.items ≡ kept_by self.old.words self.old.nearest.items number finding) }
        ensures same { self.new ≡ record self.old { nearest = self.new.nearest } }
    {
        match self.words {
            Wording::OfNearest(count) => keep(&mut self.nearest, count, number, finding),
            Wording::OfRule | Wording::OfProgram => Ok(()),
        }
    }

    /// Counts a packet of another link type.
    pub(crate) fn pass_over(&mut self) -> Result<(), AllocError>
        ensures { OnOk result ((words : Wording) (each : Bool) (written : List ℕ) (found : List Finding) (passed : ℕ) → IsTally words each self.old written found passed
            → IsTally words each self.new written found (passed + 1)) }
    {
        self.passed_over = one_more(self.passed_over)?;
        Ok(())
    }

    /// Writes the lines that aren't written yet.
    pub(crate) fn put_lines<O: Writer>(&mut self, out: &mut Output<O>)
        ensures put { (before : Output O) (written : List ℕ) → PutsParts O.takes O.flushes O.may_fail before out.old written
            → PutsParts O.takes O.flushes O.may_fail before out.new (written ++ string_bytes self.old.lines) }
        ensures same { (words : Wording) (each : Bool) (written : List ℕ) (found : List Finding) (passed : ℕ) → IsTally words each self.old written found passed
            → IsTally words each self.new (written ++ string_bytes self.old.lines) found passed }
        ensures none_left { string_bytes self.new.lines ≡ [] }
    {
        if self.lines.is_empty() {
            return;
        }
        out.put(self.lines.as_bytes());
        self.lines.clear();
    }

    /// What is said at the end of a capture, which may have a fault, once all lines are written.
    pub(crate) fn answer(self, fault: Option<CaptureError>) -> Answer
        ensures { (words : Wording) (each : Bool) (written : List ℕ) (found : List Finding) (passed : ℕ) → IsTally words each self written found passed → string_bytes self.lines ≡ []
            → (after_lines written (said_by result) ≡ said_of_capture words each (record { findings = found; passed_over = passed; fault = fault })) ⊎ (said_by result ≡ failing Fault.Memory) }
    {
        match self.report(fault) {
            Ok(report) => report,
            Err(_) => Answer::Fault(Fault::Memory),
        }
    }

    fn report(self, fault: Option<CaptureError>) -> Result<Answer, AllocError>
        ensures { IfOk result (λ answer. (words : Wording) (each : Bool) (written : List ℕ) (found : List Finding) (passed : ℕ) → IsTally words each self written found passed → string_bytes self.lines ≡ []
            → after_lines written (said_by answer) ≡ said_of_capture words each (record { findings = found; passed_over = passed; fault = fault })) }
    {
        let Tally {
            words,
            each,
            lines,
            notes,
            judged,
            accepted,
            passed_over,
            nearest,
            ..
        } = self;
        let mut output = lines;
        put_near_lines(&mut output, &nearest)?;
        put_last_line(&mut output, words, each, accepted, judged)?;
        let mut errors = notes;
        put_notes(&mut errors, passed_over, fault)?;
        let status = capture_status(fault, accepted);
        Ok(Answer::Report {
            output,
            notes: errors,
            status,
        })
    }
}

/// The number after another. One that 64 bits don't hold is taken for want of memory.
fn one_more(count: u64) -> Result<u64, AllocError>
    ensures { IfOk result (λ next. next ≡ count + 1) }
{
    count.checked_add(1).ok_or(AllocError)
}
