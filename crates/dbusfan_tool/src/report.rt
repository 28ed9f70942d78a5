// How it is said what is found of messages.

ghost use Rattle.std.specs.Prelude.{◌≡◌, ◌⊎◌, ◌++◌, IfOk, OnOk, string_bytes};
ghost use Rattle.dbusfan_tool.specs.Reports.{match_line, match_word, outcome_line, trace_lines, said_of_outcome, judged_line, verdict_line, note_line, count_line, summary_line, last_line, passed_over_line, capture_line, capture_status};
ghost use Rattle.dbusfan_tool.specs.Answer.{failing};
ghost use Rattle.dbusfan_tool.specs.Views.{said_by};

use crate::answer::Answer;
use crate::finding::Finding;
use crate::judgement::Judgement;
use crate::wording::Wording;
use captures::CaptureError;
use command_line::Fault;
use std::alloc::{AllocError, Global};
use std::fmt::Write;

/// What is said of a message alone.
pub(crate) fn answer_of_outcome(alloc: Global, words: Wording, outcome: &Judgement) -> Answer
    ensures { (said_by result ≡ said_of_outcome words outcome.now) ⊎ (said_by result ≡ failing Fault.Memory) }
{
    let mut output = String::new(alloc);
    match put_told(&mut output, words, outcome) {
        Ok(()) => Answer::Report {
            output,
            notes: String::new(alloc),
            status: if outcome.verdict == 0 { 1 } else { 0 },
        },
        Err(_) => Answer::Fault(Fault::Memory),
    }
}

/// Writes the lines of the steps, and what is said of the message.
fn put_told(text: &mut String, words: Wording, outcome: &Judgement) -> Result<(), AllocError>
    ensures { OnOk result (string_bytes text.new ≡ string_bytes text.old ++ (trace_lines words outcome.now ++ outcome_line words outcome.now)) }
{
    put_trace(text, words, outcome)?;
    put_outcome(text, words, outcome)
}

fn put_trace(text: &mut String, words: Wording, outcome: &Judgement) -> Result<(), AllocError>
    ensures { OnOk result (string_bytes text.new ≡ string_bytes text.old ++ trace_lines words outcome.now) }
{
    match words {
        Wording::OfRule | Wording::OfNearest(_) => Ok(()),
        Wording::OfProgram => text.push_str(outcome.trace.as_str()),
    }
}

fn put_outcome(text: &mut String, words: Wording, outcome: &Judgement) -> Result<(), AllocError>
    ensures { OnOk result (string_bytes text.new ≡ string_bytes text.old ++ outcome_line words outcome.now) }
{
    let verdict = outcome.verdict;
    let steps = outcome.steps;
    match words {
        Wording::OfRule | Wording::OfNearest(_) => {
            put_match(text, verdict != 0, outcome.reasons.as_str())
        }
        Wording::OfProgram => write!(text, "verdict {verdict} steps {steps}\n"),
    }
}

fn match_word(holds: bool) -> &'static str
    ensures { result.now ≡ match_word holds }
{
    if holds { "match" } else { "no match" }
}

fn put_match(text: &mut String, holds: bool, reasons: &str) -> Result<(), AllocError>
    ensures { OnOk result (string_bytes text.new ≡ string_bytes text.old ++ match_line holds reasons.now) }
{
    text.push_str(match_word(holds))?;
    text.push_str(reasons)?;
    text.push_str("\n")
}

/// Writes the line of a packet on standard output at the end of a text.
pub(crate) fn put_verdict_line(
    text: &mut String,
    words: Wording,
    number: u64,
    finding: &Finding,
) -> Result<(), AllocError>
    ensures { OnOk result (string_bytes text.new ≡ string_bytes text.old ++ verdict_line words number finding.now) }
{
    match finding {
        Finding::Judged(outcome) => put_judged_line(text, words, number, outcome),
        Finding::Cut | Finding::NoMessage(_) => Ok(()),
    }
}

fn put_judged_line(
    text: &mut String,
    words: Wording,
    number: u64,
    outcome: &Judgement,
) -> Result<(), AllocError>
    ensures { OnOk result (string_bytes text.new ≡ string_bytes text.old ++ judged_line words number outcome.now) }
{
    match words {
        Wording::OfNearest(_) => Ok(()),
        Wording::OfRule | Wording::OfProgram => {
            put_trace(text, words, outcome)?;
            write!(text, "{number} ")?;
            put_outcome(text, words, outcome)
        }
    }
}

/// Writes the line of a packet on standard error at the end of a text.
pub(crate) fn put_note_line(
    text: &mut String,
    number: u64,
    finding: &Finding,
) -> Result<(), AllocError>
    ensures { OnOk result (string_bytes text.new ≡ string_bytes text.old ++ note_line number finding.now) }
{
    match finding {
        Finding::Judged(_) => Ok(()),
        Finding::Cut => write!(text, "dbusfan: packet Cut at {number}\n"),
        Finding::NoMessage(fault) => write!(text, "dbusfan: message {fault} at {number}\n"),
    }
}

/// Writes the line after those of the messages at the end of a text.
pub(crate) fn put_last_line(
    text: &mut String,
    words: Wording,
    each: bool,
    accepted: u64,
    judged: u64,
) -> Result<(), AllocError>
    ensures { OnOk result (string_bytes text.new ≡ string_bytes text.old ++ last_line words each accepted judged) }
{
    if each {
        put_count(text, words, accepted, judged)
    } else {
        put_summary(text, words, accepted, judged)
    }
}

fn put_summary(
    text: &mut String,
    words: Wording,
    accepted: u64,
    judged: u64,
) -> Result<(), AllocError>
    ensures { OnOk result (string_bytes text.new ≡ string_bytes text.old ++ summary_line words accepted judged) }
{
    match words {
        Wording::OfRule | Wording::OfNearest(_) => put_match(text, accepted != 0, ""),
        Wording::OfProgram => put_count(text, words, accepted, judged),
    }
}

fn put_count(
    text: &mut String,
    words: Wording,
    accepted: u64,
    judged: u64,
) -> Result<(), AllocError>
    ensures { OnOk result (string_bytes text.new ≡ string_bytes text.old ++ count_line words accepted judged) }
{
    match words {
        Wording::OfRule | Wording::OfNearest(_) => {
            write!(text, "{accepted} of {judged} match\n")
        }
        Wording::OfProgram => write!(text, "{accepted} of {judged} accepted\n"),
    }
}

/// Writes at the end of a text what is said of all packets: how many of other link types were passed over, and the fault.
pub(crate) fn put_notes(
    text: &mut String,
    passed_over: u64,
    fault: Option<CaptureError>,
) -> Result<(), AllocError>
    ensures { OnOk result (string_bytes text.new ≡ string_bytes text.old ++ passed_over_line passed_over ++ capture_line fault) }
{
    put_passed_over(text, passed_over)?;
    put_fault(text, fault)
}

fn put_passed_over(text: &mut String, count: u64) -> Result<(), AllocError>
    ensures { OnOk result (string_bytes text.new ≡ string_bytes text.old ++ passed_over_line count) }
{
    if count == 0 {
        return Ok(());
    }
    write!(text, "dbusfan: packets of other link types: {count}\n")
}

fn put_fault(text: &mut String, fault: Option<CaptureError>) -> Result<(), AllocError>
    ensures { OnOk result (string_bytes text.new ≡ string_bytes text.old ++ capture_line fault) }
{
    match fault {
        Some(fault) => write!(text, "dbusfan: capture {fault}\n"),
        None => Ok(()),
    }
}

/// The status that a capture is answered with.
pub(crate) fn capture_status(fault: Option<CaptureError>, accepted: u64) -> u8
    ensures { result ≡ capture_status fault accepted }
{
    if fault.is_some() {
        return 2;
    }
    if accepted == 0 { 1 } else { 0 }
}
