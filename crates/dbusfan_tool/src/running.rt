// `run PROGRAM FILE [--edition 1|2] [--each] [--trace]`.

ghost use Rattle.std.specs.Prelude.{◌≡◌, ◌⊎◌, ℕ, List};
ghost use Rattle.command_line.specs.CommandRow.{to_run};
ghost use Rattle.command_line.specs.Files.{MadeReads};
ghost use Rattle.command_line.specs.Output.{PutsParts};
ghost use Rattle.dbusfan_tool.specs.Tool.{Tool};
ghost use Rattle.dbusfan_tool.specs.Views.{SaysAfter};

use crate::answer::Answer;
use crate::file_judging;
use crate::program::verified_file;
use crate::program_judge::ProgramJudge;
use command_line::{Files, Output, Writer};
use std::alloc::Global;
use summary::Edition;

/// What the program in a file says of the message in another, or of the messages of the capture in it, or the first fault.
/// With `trace` the steps are told too.
pub(crate) fn answer<F: Files, O: Writer>(
    alloc: Global,
    program: &str,
    file: &str,
    edition: Edition,
    each: bool,
    trace: bool,
    files: &mut F,
    out: &mut Output<O>,
) -> Answer
    ensures { (written : List ℕ) × PutsParts O.takes O.flushes O.may_fail out.old out.new written
        × SaysAfter (Tool (MadeReads F.gives files.old files.new) (to_run program.now file.now edition each trace)) written result }
{
    match verified_file(alloc, program, files) {
        Ok(program) => {
            let program_judge = ProgramJudge::of_program(program, edition, trace);
            file_judging::answer(alloc, &program_judge, file, each, files, out)
        }
        Err(fault) => Answer::Fault(fault),
    }
}
