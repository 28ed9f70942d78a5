ghost use Rattle.std.specs.Prelude.{◌≡◌, ◌⊎◌, Ok, Err, IfOk, IfErr};
ghost use Rattle.bpf_code.specs.declared.error.CodeError.TheVariants.{NoMemory};
ghost use Rattle.bpf_text.specs.Source.{distance, goes_by, parts_by, resolve};
ghost use Rattle.bpf_text.specs.Sketches.{program_in};
ghost use Rattle.bpf_text.specs.Views.{row_view, sketch_view};

use crate::draft::Draft;
use crate::named_labels::Labels;
use crate::operands::Targets;
use crate::row::{Jumps, LabelIns};
use bpf_code::{CodeError, Ins, Op};
use std::alloc::Global;

/// How many instructions a jump at a place passes over, where its label names an instruction ahead.
#[tactic(auto, unfolding(crate::specs::Source::distance))]
fn distance_to(labels: &Labels<'_>, count: usize, place: usize, name: &[u8]) -> Option<usize>
    ensures { result ≡ distance labels.now count place name.now }
{
    let to = labels.place_of(name)?;
    if place < to && to < count {
        Some(to - place - 1)
    } else {
        None
    }
}

/// A jump that is always taken.
fn always(line: usize, op: Op, distance: Option<usize>) -> Result<Ins, CodeError>
    ensures { result ≡ goes_by line op distance }
{
    let Some(distance) = distance else {
        return Err(CodeError::Label(line));
    };
    if distance < 1 << 32 {
        Ok(Ins {
            code: op.code(),
            jt: 0,
            jf: 0,
            k: distance as u32,
        })
    } else {
        Err(CodeError::FarJump(line))
    }
}

/// A conditional jump.
fn either(
    line: usize,
    op: Op,
    k: u32,
    first: Option<usize>,
    second: Option<usize>,
) -> Result<Ins, CodeError>
    ensures { result ≡ parts_by line op k first second }
{
    let Some(first) = first else {
        return Err(CodeError::Label(line));
    };
    let Some(second) = second else {
        return Err(CodeError::Label(line));
    };
    if first < 256 && second < 256 {
        Ok(Ins {
            code: op.code(),
            jt: first as u8,
            jf: second as u8,
            k,
        })
    } else {
        Err(CodeError::FarJump(line))
    }
}

/// The instruction of a row at a place and on a line.
#[tactic(auto, unfolding(crate::specs::Source::resolve))]
fn resolve_row(
    labels: &Labels<'_>,
    count: usize,
    place: usize,
    line: usize,
    row: &LabelIns,
) -> Result<Ins, CodeError>
    ensures { result ≡ resolve labels.now count place line (row_view row.now) }
{
    match row.jumps {
        Jumps::Stays => Ok(Ins {
            code: row.op.code(),
            jt: 0,
            jf: 0,
            k: row.k,
        }),
        Jumps::Goes(name) => always(line, row.op, distance_to(labels, count, place, name)),
        Jumps::Parts(Targets::One(first)) => {
            either(
                line,
                row.op,
                row.k,
                distance_to(labels, count, place, first),
                Some(0),
            )
        }
        Jumps::Parts(Targets::Both(first, second)) => {
            let first = distance_to(labels, count, place, first);
            let second = distance_to(labels, count, place, second);
            either(line, row.op, row.k, first, second)
        }
    }
}

/// The program of a draft, or the fault of its first line that has one.
pub(crate) fn program(alloc: Global, draft: &Draft) -> Result<Vec<Ins>, CodeError>
    ensures found { IfOk result (λ program. program_in (sketch_view draft.now) ≡ Ok program.items) }
    ensures fault { IfErr result (λ e. (e ≡ NoMemory) ⊎ (program_in (sketch_view draft.now) ≡ Err e)) }
{
    let mut program = Vec::new(alloc);
    for (index, noted) in draft.lines.iter().enumerate() {
        if noted.again {
            return Err(CodeError::Label(index + 1));
        }
        if let Some(row) = &noted.row {
            let ins = resolve_row(&draft.labels, draft.count, program.len(), index + 1, row)?;
            program.push(ins)?;
        }
    }
    Ok(program)
}
