// What is said of a file.

ghost use Rattle.std.specs.Prelude.{◌≡◌, ◌⊎◌, ◌||◌, ◌≤◌, ℕ, Bool, true, false, List, length, IfOk, IfErr};
ghost use Rattle.captures.specs.Beginnings.{is_capture};
ghost use Rattle.command_line.specs.Files.{Broken};
ghost use Rattle.command_line.specs.Output.{PutsParts};
ghost use Rattle.dbusfan_tool.specs.Judges.{Judge};
ghost use Rattle.dbusfan_tool.specs.Serving.{Serves};
ghost use Rattle.dbusfan_tool.specs.FileJudgements.{SaysOfFile};
ghost use Rattle.dbusfan_tool.specs.CaptureSteps.{so_far};
ghost use Rattle.dbusfan_tool.specs.FirstBytes.{IsSure, FindsMessage, FailsToRead};
ghost use Rattle.dbusfan_tool.specs.Views.{SaysAfter};

use crate::answer::Answer;
use crate::beginning::Beginning;
use crate::capturing::judge_capture;
use crate::judgement::Judgement;
use crate::program_judge::ProgramJudge;
use crate::report::answer_of_outcome;
use captures::is_capture;
use command_line::{Fault, Files, Output, Writer, decode};
use message_view::View;
use std::alloc::Global;

/// What a judge says of the message in a file, or of the messages of the capture that it is. The lines of a capture's
/// messages are written as they are found.
pub(crate) fn answer<F: Files, O: Writer>(
    alloc: Global,
    program_judge: &ProgramJudge,
    file: &str,
    each: bool,
    files: &mut F,
    out: &mut Output<O>,
) -> Answer
    ensures { (judge : Judge) → Serves judge program_judge.now → (written : List ℕ) × PutsParts O.takes O.flushes O.may_fail out.old out.new written
        × SaysAfter (SaysOfFile (λ content. F.gives files.old file.now content files.new) judge each) written result }
{
    let beginning = match begin(alloc, file, each, files) {
        Ok(beginning) => beginning,
        Err(fault) => return Answer::Fault(fault),
    };
    if is_taken(each, &beginning.bytes) {
        return capture_answer(alloc, program_judge, each, files, beginning, out);
    }
    match outcome(alloc, program_judge, files, beginning) {
        Ok(outcome) => answer_of_outcome(alloc, program_judge.words, &outcome),
        Err(fault) => Answer::Fault(fault),
    }
}

/// Whether a file that begins so is taken for a capture.
fn is_taken(each: bool, bytes: &[u8]) -> bool
    ensures { result ≡ (each || is_capture bytes.now) }
{
    each || is_capture(bytes)
}

/// Opens a file, and reads its first bytes unless it is taken for a capture anyway.
fn begin<F: Files>(alloc: Global, file: &str, each: bool, files: &mut F) -> Result<Beginning, Fault>
    ensures found { IfOk result (λ beginning. F.gives files.old file.now (so_far beginning.is_open beginning.bytes.items) files.new × (each ≡ false → IsSure beginning)) }
    ensures fault { IfErr result (FailsToRead (λ content. F.gives files.old file.now content files.new)) }
{
    files.open(file)?;
    if each {
        return Ok(Beginning {
            bytes: Vec::new(alloc),
            is_open: true,
        });
    }
    let beginning = Beginning::read(alloc, files)?;
    Ok(beginning)
}

fn capture_answer<F: Files, O: Writer>(
    alloc: Global,
    program_judge: &ProgramJudge,
    each: bool,
    files: &mut F,
    beginning: Beginning,
    out: &mut Output<O>,
) -> Answer
    ensures { (judge : Judge) (before : F) (name : List ℕ) → Serves judge program_judge.now → F.gives before name (so_far beginning.is_open beginning.bytes.items) files.old
        → (each || is_capture beginning.bytes.items) ≡ true → (each ≡ false → IsSure beginning)
        → (written : List ℕ) × PutsParts O.takes O.flushes O.may_fail out.old out.new written
        × SaysAfter (SaysOfFile (λ content. F.gives before name content files.new) judge each) written result }
{
    match judge_capture(alloc, program_judge, each, files, beginning, out) {
        Ok(end) => end.tally.answer(end.fault),
        Err(fault) => Answer::Fault(fault),
    }
}

/// What a judge says of the message that a file has as hexadecimal text.
fn outcome<F: Files>(
    alloc: Global,
    program_judge: &ProgramJudge,
    files: &mut F,
    beginning: Beginning,
) -> Result<Judgement, Fault>
    ensures { (judge : Judge) (before : F) (name : List ℕ) → Serves judge program_judge.now → F.gives before name (so_far beginning.is_open beginning.bytes.items) files.old
        → is_capture beginning.bytes.items ≡ false → IsSure beginning
        → FindsMessage (λ content. F.gives before name content files.new) judge result }
{
    let text = beginning.read_rest(files)?;
    let bytes = decode(alloc, &text)?;
    let message = View::read(&bytes)?;
    let outcome = program_judge.judge(alloc, &message)?;
    Ok(outcome)
}
