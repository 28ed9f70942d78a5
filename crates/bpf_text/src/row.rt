ghost use Rattle.std.specs.Prelude.{◌≡◌};
ghost use Rattle.std.specs.Option.{option_map};
ghost use Rattle.bpf_text.specs.Rows.{plain as plain_row, is_absent, row_of};
ghost use Rattle.bpf_text.specs.LineReading.{row_after, statement_of};
ghost use Rattle.bpf_text.specs.Views.{operands_view, row_view};

use crate::lexis::{is_spaced, over, word};
use crate::mnemonic::Mnemonic;
use crate::operands::{Operands, Targets, read_operands};
use bpf_code::{Op, Operand, Width};

/// The labels that an instruction jumps to.
#[derive(Clone, Copy)]
pub(crate) enum Jumps<'a> {
    Stays,
    Goes(&'a [u8]),
    Parts(Targets<'a>),
}

/// An instruction whose targets are labels.
#[derive(Clone, Copy)]
pub(crate) struct LabelIns<'a> {
    pub(crate) op: Op,
    pub(crate) k: u32,
    pub(crate) jumps: Jumps<'a>,
}

/// An instruction without a jump.
fn plain<'a>(op: Op, k: u32) -> Option<LabelIns<'a>>
    ensures { option_map row_view result ≡ plain_row op k }
{
    Some(LabelIns {
        op,
        k,
        jumps: Jumps::Stays,
    })
}

/// The instruction that a mnemonic with its operands names.
fn make_row<'a>(mnemonic: Mnemonic, operands: Operands<'a>) -> Option<LabelIns<'a>>
    ensures { option_map row_view result ≡ row_of mnemonic (operands_view operands.entry) }
{
    match (mnemonic, operands) {
        (Mnemonic::Load(Width::Word), Operands::Number(k)) => plain(Op::LoadConstant, k),
        (Mnemonic::Load(Width::Word), Operands::Scratch(k)) => plain(Op::LoadScratch, k),
        (Mnemonic::Load(Width::Word), Operands::Length) => plain(Op::LoadLength, 0),
        (Mnemonic::Load(width), Operands::Place(k)) => plain(Op::LoadImage(width), k),
        (Mnemonic::Load(width), Operands::Indexed(k)) => plain(Op::LoadIndexed(width), k),
        (Mnemonic::LoadX, Operands::Number(k)) => plain(Op::IndexConstant, k),
        (Mnemonic::LoadX, Operands::Scratch(k)) => plain(Op::IndexScratch, k),
        (Mnemonic::LoadX, Operands::Length) => plain(Op::IndexLength, 0),
        (Mnemonic::LoadHeader, Operands::Header(k)) => plain(Op::IndexHeader, k),
        (Mnemonic::Store, Operands::Scratch(k)) => plain(Op::StoreA, k),
        (Mnemonic::StoreIndex, Operands::Scratch(k)) => plain(Op::StoreX, k),
        (Mnemonic::Compute(f), Operands::Number(k)) => plain(Op::Compute(f, Operand::Constant), k),
        (Mnemonic::Compute(f), Operands::Name(name)) if name == b"x".as_slice() => {
            plain(Op::Compute(f, Operand::Index), 0)
        }
        (Mnemonic::Negation, Operands::Absent) => plain(Op::Negate, 0),
        (Mnemonic::Always, Operands::Name(label)) => {
            Some(LabelIns {
                op: Op::Jump,
                k: 0,
                jumps: Jumps::Goes(label),
            })
        }
        (Mnemonic::When(test), Operands::NumberTo(k, targets)) => {
            Some(LabelIns {
                op: Op::Branch(test, Operand::Constant),
                k,
                jumps: Jumps::Parts(targets),
            })
        }
        (Mnemonic::When(test), Operands::NameTo(name, targets)) if name == b"x".as_slice() => {
            Some(LabelIns {
                op: Op::Branch(test, Operand::Index),
                k: 0,
                jumps: Jumps::Parts(targets),
            })
        }
        (Mnemonic::Return, Operands::Number(k)) => plain(Op::ReturnConstant, k),
        (Mnemonic::Return, Operands::Name(name)) if name == b"a".as_slice() => plain(
            Op::ReturnA,
            0,
        ),
        (Mnemonic::ToIndex, Operands::Absent) => plain(Op::IndexFromA, 0),
        (Mnemonic::FromIndex, Operands::Absent) => plain(Op::LoadFromX, 0),
        _ => None,
    }
}

/// Whether there are no operands.
fn is_none(operands: Operands) -> bool
    ensures { result ≡ is_absent (operands_view operands.entry) }
{
    match operands {
        Operands::Absent => true,
        _ => false,
    }
}

/// The instruction of a mnemonic and the bytes after it.
#[tactic(auto, unfolding(crate::specs::LineReading::row_after))]
fn read_row<'a>(name: &[u8], rest: &'a [u8]) -> Option<LabelIns<'a>>
    ensures { option_map row_view result ≡ row_after name.now rest.now }
{
    let mnemonic = Mnemonic::of(name)?;
    let operands = read_operands(rest)?;
    if is_none(operands) || is_spaced(rest) {
        make_row(mnemonic, operands)
    } else {
        None
    }
}

/// The instruction of a line after its labels, if there is one; `None` where the bytes aren't of the form.
#[tactic(auto, unfolding(crate::specs::LineReading::statement_of))]
pub(crate) fn statement(bytes: &[u8]) -> Option<Option<LabelIns<'_>>>
    ensures { option_map (λ row. option_map row_view row) result ≡ statement_of bytes.now }
{
    let Some((name, rest)) = word(bytes) else {
        return if over(bytes) { Some(None) } else { None };
    };
    let row = read_row(name, rest)?;
    Some(Some(row))
}
