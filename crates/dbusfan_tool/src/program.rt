// The file of a program.

ghost use Rattle.std.specs.Prelude.{◌≡◌, ◌⊎◌, Ok, Err, IfOk, IfErr};
ghost use Rattle.bpf_code.specs.Program.{WellFormed};
ghost use Rattle.dbusfan_tool.specs.Program.{Assembles, Checks};

use bpf_code::Ins;
use bpf_text::assemble_bytes;
use bpf_verify::{Verified, verify};
use command_line::{Fault, Files};
use std::alloc::Global;

/// The program that a file's text names, or the first fault.
pub(crate) fn read<F: Files>(alloc: Global, file: &str, files: &mut F) -> Result<Vec<Ins>, Fault>
    ensures found { IfOk result (λ program. Assembles (λ content. F.gives files.old file.now content files.new) (Ok program.items)) }
    ensures fault { IfErr result (λ fault. Assembles (λ content. F.gives files.old file.now content files.new) (Err fault) ⊎ (fault ≡ Fault.Memory)) }
{
    let text = files.read(alloc, file)?;
    let program = assemble_bytes(alloc, &text)?;
    Ok(program)
}

/// The program in a file, if it is accepted, or the first fault.
pub(crate) fn verified_file<F: Files>(
    alloc: Global,
    file: &str,
    files: &mut F,
) -> Result<Verified, Fault>
    ensures found { IfOk result (λ program. Assembles (λ content. F.gives files.old file.now content files.new) (Ok program) × WellFormed program) }
    ensures fault { IfErr result (λ fault. Checks (λ content. F.gives files.old file.now content files.new) (Err fault) ⊎ (fault ≡ Fault.Memory)) }
{
    let program = read(alloc, file, files)?;
    match verify(program) {
        Ok(verified) => Ok(verified),
        Err((fault, _)) => Err(Fault::Program(fault)),
    }
}
