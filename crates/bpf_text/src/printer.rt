ghost use Rattle.std.specs.Prelude.{◌≡◌, ◌<◌, ◌≤◌, ◌⊎◌, ◌↔◌, ◌^◌, ℕ, List, length, string_bytes, Ok, Err, IfOk, IfErr, OnOk, All};
ghost use Rattle.bpf_code.specs.Table.{op_of};
ghost use Rattle.bpf_code.specs.declared.instruction.Ins.{Ins};
ghost use Rattle.bpf_text.specs.Printing.{jumps_by, is_target, leaves, text_of, IsPrintFault};
ghost use Rattle.bpf_text.specs.Source.{SourceText};
ghost use Rattle.bpf_text.specs.Used.{with_unused_zero, IsInRange};

use crate::spelling::put_line;
use bpf_code::{CodeError, Ins, Op};
use std::alloc::Global;

/// Whether an instruction at a place jumps to this one.
fn jumps_to(to: usize, place: usize, ins: &Ins) -> bool
    requires { place < 2 ^ 63 }
    ensures { result ≡ jumps_by to place ins.now (op_of ins.now.code) }
{
    match Op::of(ins.code) {
        Some(Op::Jump) => to == place + 1 + ins.k as usize,
        Some(Op::Branch(_, _)) => to == place + 1 + ins.jt as usize
            || to == place + 1 + ins.jf as usize,
        _ => false,
    }
}

/// Whether some jump of a program leads to a place.
fn is_jumped_to(to: usize, program: &[Ins]) -> bool
    ensures { result ≡ is_target to 0 program.now }
{
    for (place, ins) in program.iter().enumerate() {
        if jumps_to(to, place, ins) {
            return true;
        }
    }
    false
}

/// Whether an instruction is a jump that leaves a program of this length.
fn jumps_out(len: usize, place: usize, op: Op, ins: &Ins) -> bool
    requires { place < 2 ^ 63 }
    ensures { result ≡ leaves len place op ins.now }
{
    match op {
        Op::Jump => place + 1 + ins.k as usize >= len,
        Op::Branch(_, _) => place + 1 + ins.jt as usize >= len
            || place + 1 + ins.jf as usize >= len,
        _ => false,
    }
}

/// Each field of an instruction has its width.
fn has_widths(ins: &Ins)
    ensures { IsInRange ins.now }
{
    let _jt = ins.jt;
    let _jf = ins.jf;
    let _k = ins.k;
}

/// Prints the lines of a program, or finds the fault of the lowest place that has one.
fn print_lines(alloc: Global, program: &[Ins]) -> Result<String, CodeError>
    ensures found { IfOk result (λ text. text_of program.now ≡ Ok (string_bytes text)) }
    ensures widths { OnOk result (All IsInRange program.now) }
    ensures few { length program.now < 2 ^ 64 }
    ensures fault { IfErr result (λ e. (e ≡ CodeError.NoMemory) ⊎ (text_of program.now ≡ Err e)) }
{
    let mut out = String::new(alloc);
    for (place, ins) in program.iter().enumerate() {
        has_widths(ins);
        let Some(op) = Op::of(ins.code) else {
            return Err(CodeError::Code(place));
        };
        if jumps_out(program.len(), place, op, ins) {
            return Err(CodeError::Label(place));
        }
        put_line(
            &mut out,
            place as u64,
            is_jumped_to(place, program),
            op,
            ins,
        )?;
    }
    Ok(out)
}

/// The text of a program: one instruction a line, each ended by LF. A line that a jump leads to begins with
/// the label `L` and its place.
///
/// # Errors
///
/// Of the lowest place that has a fault: its code has no row, or its jump leaves the program.
pub fn print(alloc: Global, program: &[Ins]) -> Result<String, CodeError>
    ensures found { IfOk result (λ text. text_of program.now ≡ Ok (string_bytes text)) }
    ensures source { IfOk result (λ text. SourceText (string_bytes text) (with_unused_zero program.now)) }
    ensures fault { IfErr result (IsPrintFault program.now) }
{
    print_lines(alloc, program)
}

/// The text of a program names that program and no other, with 0 in each field that its rows don't use.
pub fn reads_back()
    ensures used { (program other : List Ins) (text : List ℕ) → All IsInRange program → length program < 2 ^ 64 → text_of program ≡ Ok text → (SourceText text other ↔ (other ≡ with_unused_zero program)) }
    ensures same { (program other : List Ins) (text : List ℕ) → All IsInRange program → length program < 2 ^ 64 → with_unused_zero program ≡ program → text_of program ≡ Ok text → (SourceText text other ↔ (other ≡ program)) }
{}
