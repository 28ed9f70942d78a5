// Filters as accepted programs.
ghost use Rattle.std.specs.Prelude.{◌≡◌, ◌≤◌, IfOk, IfErr, length};
ghost use Rattle.bpf_code.specs.Program.{WellFormed};
ghost use Rattle.jump_islands.specs.Source.{AreWellMade};
ghost use Rattle.filter.specs.Filters.{tree_of};
ghost use Rattle.filter.specs.Weights.{weight_of};
ghost use Rattle.filter_compile.specs.Compiled.{IsCompiled, IsRefusal};
ghost use Rattle.filter_compile.specs.FilterCode.{program_code};
ghost use Rattle.filter_compile.specs.Names.{names_of};

use crate::code::Code;
use crate::error::CompileError;
use crate::exits::Exits;
use crate::names::Names;
use crate::test_bytes::have_bytes;
use crate::tree::put_filter;
use bpf_code::Ins;
use bpf_verify::{Verified, verify};
use filter::Filter;
use jump_islands::SourceProgram;
use std::alloc::{AllocError, Global};

/// The greatest weight of a filter that is compiled.
const MAX_WEIGHT: u64 = 4096;

/// A well-formed program, which is accepted.
fn verified_program(program: Vec<Ins>) -> Verified
    requires { WellFormed program.items }
    ensures { result ≡ program.items }
{
    match verify(program) {
        Ok(verified) => verified,
        Err(_) => unreachable!(),
    }
}

/// The program of a filter, before it is lowered.
fn program_code(
    alloc: Global,
    names: &Names<'_>,
    filter: &Filter,
) -> Result<SourceProgram, AllocError>
    requires names { length names.now ≤ 512 }
    requires weight { weight_of (tree_of filter.now) ≤ 4096 }
    ensures value { IfOk result (λ code. code ≡ program_code names.now (tree_of filter.now)) }
    ensures made { IfOk result AreWellMade }
{
    let mut code = Code::verdicts(alloc)?;
    let exits = Exits { holds: 2, fails: 1 };
    let entry = put_filter(&mut code, names, filter, exits)?;
    code.finish(entry)
}

/// The program of a filter that isn't too heavy.
fn compile_light(alloc: Global, filter: &Filter) -> Result<Verified, CompileError>
    requires weight { weight_of (tree_of filter.now) ≤ 4096 }
    ensures compiled { IfOk result (λ program. IsCompiled (tree_of filter.now) program) }
    ensures refused { IfErr result (IsRefusal (tree_of filter.now)) }
{
    have_bytes(filter);
    let names = Names::of(alloc, filter)?;
    let code = program_code(alloc, &names, filter)?;
    let program = code.lower(alloc)?;
    Ok(verified_program(program))
}

/// The program of a filter, for images of edition 2: its verdict is nonzero exactly where the filter holds of the message.
/// The slot of a name that it asks for is the name's place among `names_of`, from 0; its bit in the image tells whether the
/// sender owns the name. It is `TooHeavy` only where the filter weighs more than 4,096, and `NoMemory` where memory was
/// refused.
pub fn compile(alloc: Global, filter: &Filter) -> Result<Verified, CompileError>
    ensures compiled { IfOk result (λ program. IsCompiled (tree_of filter.now) program) }
    ensures refused { IfErr result (IsRefusal (tree_of filter.now)) }
{
    if filter.weight() > MAX_WEIGHT {
        return Err(CompileError::TooHeavy);
    }
    compile_light(alloc, filter)
}
