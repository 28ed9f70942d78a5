ghost use Rattle.std.specs.Prelude.{◌≡◌, ◌<◌, ◌≤◌, ℕ, length, Some, None, MatchOption};
ghost use Rattle.bpf_verify.specs.FirstFault.{FineBefore, IsFirstFault, IsFault, own_fault, row_fault};
ghost use Rattle.std.specs.Prelude.{IsTrue, ◌↔◌};
ghost use Rattle.std.specs.Option.{IsSomeAnd};
ghost use Rattle.bpf_code.specs.Table.{op_of};
ghost use Rattle.bpf_code.specs.Program.{IsReturn};

use crate::error::VerifyError;
use bpf_code::{Arithmetic, Ins, Op, Operand};

/// The fault of an instruction by itself.
fn fault_at(len: usize, place: usize, ins: &Ins) -> Option<VerifyError>
    requires { place < 4096 }
    ensures { result ≡ own_fault len place ins.now }
{
    let Some(op) = Op::of(ins.code) else {
        return Some(VerifyError::Code(place));
    };
    let k = ins.k;
    match op {
        Op::Compute(Arithmetic::Div | Arithmetic::Mod, Operand::Constant) if k == 0 => {
            Some(VerifyError::ZeroDivisor(place))
        }
        Op::Compute(Arithmetic::ShiftLeft | Arithmetic::ShiftRight, Operand::Constant) if k >= 32 =>
            { Some(VerifyError::Shift(place)) }
        Op::LoadScratch | Op::IndexScratch | Op::StoreA | Op::StoreX if k >= 16 => {
            Some(VerifyError::Scratch(place))
        }
        Op::Jump if place + 1 + k as usize >= len => Some(VerifyError::Jump(place)),
        Op::Branch(_, _)
            if place + 1 + ins.jt as usize >= len || place + 1 + ins.jf as usize >= len => {
            Some(VerifyError::Jump(place))
        }
        Op::LoadImage(_) if k >= 0xfffff000 => Some(VerifyError::Ancillary(place)),
        _ => None,
    }
}

/// The first fault of an instruction by itself.
pub(crate) fn first_fault(code: &[Ins]) -> Option<VerifyError>
    requires some { 0 < length code.now }
    requires few { length code.now ≤ 4096 }
    ensures { MatchOption result (FineBefore code.now (length code.now)) (IsFault code.now) }
{
    for place in 0..code.len() {
        let found = fault_at(code.len(), place, &code[place]);
        if let Some(fault) = found {
            return Some(fault);
        }
    }
    None
}

/// Whether an instruction ends the program.
pub(crate) fn is_return(ins: &Ins) -> bool
    ensures { IsTrue result ↔ IsSomeAnd (op_of ins.now.code) (λ op. IsReturn op ins.now) }
{
    match Op::of(ins.code) {
        Some(Op::ReturnConstant | Op::ReturnA) => true,
        _ => false,
    }
}
