// `asm FILE`.

ghost use Rattle.std.specs.Prelude.{◌≡◌, ◌⊎◌, ◌++◌, ℕ, List, Ok, Err, IfOk, IfErr, OnOk, string_bytes};
ghost use Rattle.dbusfan_tool.specs.Listing.{listing_line, listing_of};
ghost use Rattle.dbusfan_tool.specs.Program.{Assembles};
ghost use Rattle.dbusfan_tool.specs.Tool.{Tool};
ghost use Rattle.command_line.specs.CommandRow.{to_asm};
ghost use Rattle.command_line.specs.Files.{MadeReads};
ghost use Rattle.dbusfan_tool.specs.Answer.{failing};
ghost use Rattle.dbusfan_tool.specs.Views.{said_by};

use crate::answer::Answer;
use crate::program;
use bpf_code::{Ins, bytes_of};
use command_line::{Fault, Files};
use std::alloc::{AllocError, Global};

/// The byte form of the program in the file, or the first fault.
pub(crate) fn answer<F: Files>(alloc: Global, file: &str, files: &mut F) -> Answer
    ensures { Tool (MadeReads F.gives files.old files.new) (to_asm file.now) (said_by result)
        ⊎ (said_by result ≡ failing Fault.Memory) }
{
    match assemble_file(alloc, file, files) {
        Ok(text) => Answer::Text(text),
        Err(fault) => Answer::Fault(fault),
    }
}

fn assemble_file<F: Files>(alloc: Global, file: &str, files: &mut F) -> Result<String, Fault>
    ensures found { IfOk result (λ text. (program : List Ins) × Assembles (λ content. F.gives files.old file.now content files.new) (Ok program) × (string_bytes text ≡ listing_of program)) }
    ensures fault { IfErr result (λ fault. Assembles (λ content. F.gives files.old file.now content files.new) (Err fault) ⊎ (fault ≡ Fault.Memory)) }
{
    let program = program::read(alloc, file, files)?;
    let text = listing(alloc, &program)?;
    Ok(text)
}

/// One instruction a line.
fn listing(alloc: Global, program: &[Ins]) -> Result<String, AllocError>
    ensures { IfOk result (λ text. string_bytes text ≡ listing_of program.now) }
{
    let mut text = String::new(alloc);
    for ins in program {
        put_line(alloc, &mut text, ins)?;
    }
    Ok(text)
}

/// Writes the line of an instruction at the end.
fn put_line(alloc: Global, text: &mut String, ins: &Ins) -> Result<(), AllocError>
    ensures { OnOk result (string_bytes text.new ≡ string_bytes text.old ++ listing_line ins.now) }
{
    let bytes = bytes_of(ins);
    let digits = hex::encode(alloc, bytes.as_slice())?;
    text.push_str(digits.as_str())?;
    text.push_str("\n")?;
    Ok(())
}
