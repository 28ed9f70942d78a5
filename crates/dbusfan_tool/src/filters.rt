// `match --filter EXPR FILE [--owns] [--each] [--why]` and `compile --filter EXPR`.

ghost use Rattle.std.specs.Prelude.{◌≡◌, ◌⊎◌, ℕ, List, Result, Ok, Err, IfOk, IfErr, option_map, string_bytes};
ghost use Rattle.command_line.specs.CommandRow.{to_match_filter};
ghost use Rattle.command_line.specs.Files.{MadeReads};
ghost use Rattle.command_line.specs.Output.{PutsParts};
ghost use Rattle.command_line.specs.declared.error.Fault.{Fault};
ghost use Rattle.filter.specs.FilterTree.{FilterTree};
ghost use Rattle.filter.specs.Filters.{tree_of};
ghost use Rattle.filter.specs.Grammar.{ReadsAs};
ghost use Rattle.filter_compile.specs.Compiled.{AgreeOn, IsCompiled, IsRefusal};
ghost use Rattle.filter_compile.specs.declared.error.CompileError.{CompileError};
ghost use Rattle.summary.specs.Sets.{IsSet};
ghost use Rattle.dbusfan_tool.specs.Answer.{said_of, saying, failing};
ghost use Rattle.dbusfan_tool.specs.Compiling.{CompilesFilter, IsFilterFault, fault_of_filter_compile};
ghost use Rattle.dbusfan_tool.specs.Judges.{by_filter};
ghost use Rattle.dbusfan_tool.specs.Serving.{Serves};
ghost use Rattle.dbusfan_tool.specs.Tool.{Tool};
ghost use Rattle.dbusfan_tool.specs.Views.{said_by, SaysAfter};

use crate::answer::Answer;
use crate::file_judging;
use crate::matching::front_of;
use crate::program_judge::ProgramJudge;
use bpf_text::print;
use bpf_verify::Verified;
use command_line::{Fault, Files, Output, Writer};
use filter::Filter;
use filter_compile::{CompileError, compile};
use filter_reasons::slots_of;
use std::alloc::Global;
use summary::Slots;

/// Whether the filter matches the message in the file, or messages of the capture in it, or the first fault.
pub(crate) fn match_answer<F: Files, O: Writer>(
    alloc: Global,
    expression: &str,
    file: &str,
    owns: bool,
    each: bool,
    why: bool,
    files: &mut F,
    out: &mut Output<O>,
) -> Answer
    ensures { (written : List ℕ) × PutsParts O.takes O.flushes O.may_fail out.old out.new written
        × SaysAfter (Tool (MadeReads F.gives files.old files.new) (to_match_filter expression.now file.now owns each why)) written result }
{
    match filter_judge(alloc, expression, owns, front_of(why, each)) {
        Ok(judge) => file_judging::answer(alloc, &judge, file, each, files, out),
        Err(fault) => Answer::Fault(fault),
    }
}

/// The text of the filter's program, or the first fault.
pub(crate) fn compile_answer(alloc: Global, expression: &str) -> Answer
    ensures { ((found : Result (List ℕ) Fault) × CompilesFilter expression.now found × (said_by result ≡ said_of saying found))
        ⊎ (said_by result ≡ failing Fault.Memory) }
{
    match compile_text(alloc, expression) {
        Ok(text) => Answer::Text(text),
        Err(fault) => Answer::Fault(fault),
    }
}

fn compile_text(alloc: Global, expression: &str) -> Result<String, Fault>
    ensures found { IfOk result (λ text. CompilesFilter expression.now (Ok (string_bytes text))) }
    ensures fault { IfErr result (λ fault. CompilesFilter expression.now (Err fault) ⊎ (fault ≡ Fault.Memory)) }
{
    let filter = Filter::read(alloc, expression)?;
    let program = program_of(alloc, &filter)?;
    let text = print(alloc, program.code())?;
    Ok(text)
}

/// The judge of the filter that an expression spells, or the first fault.
fn filter_judge(
    alloc: Global,
    expression: &str,
    owns: bool,
    front: Option<&'static str>,
) -> Result<ProgramJudge, Fault>
    ensures found { IfOk result (λ judge. (tree : FilterTree) × ReadsAs expression.now tree × Serves (by_filter tree owns (option_map (λ text. text.now) front.entry)) judge) }
    ensures fault { IfErr result (λ fault. IsFilterFault expression.now fault ⊎ (fault ≡ Fault.Memory)) }
{
    let filter = Filter::read(alloc, expression)?;
    let program = program_of(alloc, &filter)?;
    let slots = owned_slots(alloc, &filter, owns)?;
    Ok(ProgramJudge::of_filter(program, slots, filter, owns, front))
}

/// The program of a filter, or what it means for a command that there is none.
fn program_of(alloc: Global, filter: &Filter) -> Result<Verified, Fault>
    ensures compiled { IfOk result (λ program. IsCompiled (tree_of filter.now) program) }
    ensures refused { IfErr result (λ fault. (error : CompileError) × IsRefusal (tree_of filter.now) error × (fault ≡ fault_of_filter_compile error)) }
{
    match compile(alloc, filter) {
        Ok(program) => Ok(program),
        Err(error) => Err(fault_of(error)),
    }
}

/// The slots of all names that a filter asks for, where the sender owns them, and else none.
fn owned_slots(alloc: Global, filter: &Filter, owns: bool) -> Result<Slots, Fault>
    ensures owned { IfOk result (λ slots. IsSet slots × AgreeOn (tree_of filter.now) (λ name. owns) slots) }
    ensures refused { IfErr result (λ fault. (error : CompileError) × IsRefusal (tree_of filter.now) error × (fault ≡ fault_of_filter_compile error)) }
{
    match slots_of(alloc, filter, owns) {
        Ok(slots) => Ok(slots),
        Err(error) => Err(fault_of(error)),
    }
}

fn fault_of(error: CompileError) -> Fault
    ensures { result ≡ fault_of_filter_compile error }
{
    match error {
        CompileError::TooHeavy => Fault::HeavyFilter,
        CompileError::NoMemory => Fault::Memory,
    }
}
