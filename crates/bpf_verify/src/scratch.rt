ghost use Rattle.std.specs.Prelude.{◌≡◌, ◌<◌, ◌≤◌, ◌+◌, ◌-◌, ℕ, length, IsTrue, ◌↔◌, MatchOption, slice_index};
ghost use Rattle.std.specs.Int.{bit_at};
ghost use Rattle.bpf_code.specs.Flow.{At, Reads};
ghost use Rattle.bpf_verify.specs.FirstFault.{FineBefore, IsFirstUnset, ReadsUnset};
ghost use Rattle.bpf_verify.specs.Masks.{AreBelow, mask_after, merge_into_successors, merge_at};
ghost use Rattle.bpf_code.specs.Program.{IsReturn, IsScratchFine};

use bpf_code::{Ins, Op};

/// Whether an instruction reads a word that the mask doesn't have.
fn is_unset(op: Op, ins: &Ins, mask: u16) -> bool
    requires { IsScratchFine op ins.now }
    ensures { IsTrue result ↔ (Reads ins.now.k op ins.now × (bit_at mask ins.now.k ≡ 0)) }
{
    match op {
        Op::LoadScratch | Op::IndexScratch => (mask >> ins.k) & 1 == 0,
        _ => false,
    }
}

/// The mask after an instruction.
fn after(op: Op, ins: &Ins, mask: u16) -> u16
    requires { IsScratchFine op ins.now }
    ensures { result ≡ mask_after op ins.now mask }
{
    match op {
        Op::StoreA | Op::StoreX => mask | 1 << ins.k,
        _ => mask,
    }
}

/// One way leads to a place with this mask.
fn meet(masks: &mut [u16], to: usize, mask: u16)
    requires { to < length masks.old }
    ensures { masks.new ≡ merge_at masks.old to mask }
{
    masks[to] &= mask;
}

/// Hands the mask after an instruction to its successors.
fn hand_on(masks: &mut [u16], place: usize, op: Op, ins: &Ins, mask: u16)
    requires { AreBelow (length masks.old) place op ins.now }
    ensures { masks.new ≡ merge_into_successors place op ins.now mask masks.old }
{
    match op {
        Op::Jump => meet(masks, place + 1 + ins.k as usize, mask),
        Op::Branch(_, _) => {
            meet(masks, place + 1 + ins.jt as usize, mask);
            meet(masks, place + 1 + ins.jf as usize, mask);
        }
        Op::ReturnConstant | Op::ReturnA => {}
        _ => meet(masks, place + 1, mask),
    }
}

/// The first place at which some path reads an unset word.
pub(crate) fn first_unset(code: &[Ins]) -> Option<usize>
    requires few { length code.now ≤ 4096 }
    requires fine { FineBefore code.now (length code.now) }
    requires last { At code.now (length code.now - 1) IsReturn }
    ensures { MatchOption result ((place : ℕ) → ¬ ReadsUnset code.now place) (IsFirstUnset code.now) }
{
    let mut masks = [0xffffu16; 4096];
    meet(&mut masks, 0, 0);
    for place in 0..code.len() {
        let ins = &code[place];
        let Some(op) = Op::of(ins.code) else {
            unreachable!()
        };
        let mask = masks[place];
        if is_unset(op, ins, mask) {
            return Some(place);
        }
        let mask = after(op, ins, mask);
        hand_on(&mut masks, place, op, ins, mask);
    }
    None
}
