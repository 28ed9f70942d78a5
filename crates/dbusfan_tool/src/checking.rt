// `check FILE`.

ghost use Rattle.std.specs.Prelude.{◌≡◌, ◌⊎◌, Err};
ghost use Rattle.dbusfan_tool.specs.Program.{Checks};
ghost use Rattle.dbusfan_tool.specs.Tool.{Tool};
ghost use Rattle.command_line.specs.CommandRow.{to_check};
ghost use Rattle.command_line.specs.Files.{MadeReads};
ghost use Rattle.dbusfan_tool.specs.Answer.{failing};
ghost use Rattle.dbusfan_tool.specs.Views.{said_by};

use crate::answer::Answer;
use crate::program;
use command_line::{Fault, Files};
use std::alloc::Global;

/// How many instructions the program in the file has, if it is accepted, or the first fault.
pub(crate) fn answer<F: Files>(alloc: Global, file: &str, files: &mut F) -> Answer
    ensures { Tool (MadeReads F.gives files.old files.new) (to_check file.now) (said_by result)
        ⊎ (said_by result ≡ failing Fault.Memory) }
{
    let count = match count_of_file(alloc, file, files) {
        Ok(count) => count,
        Err(fault) => return Answer::Fault(fault),
    };
    match format!(in alloc; "ok {count}\n") {
        Ok(text) => Answer::Text(text),
        Err(_) => Answer::Fault(Fault::Memory),
    }
}

fn count_of_file<F: Files>(alloc: Global, file: &str, files: &mut F) -> Result<usize, Fault>
    ensures { Checks (λ content. F.gives files.old file.now content files.new) result ⊎ (result ≡ Err Fault.Memory) }
{
    let verified = program::verified_file(alloc, file, files)?;
    Ok(verified.code().len())
}
