// What one instruction does.

ghost use Rattle.std.specs.Prelude.{◌≡◌, ◌<◌, if◌then◌else◌, option_map};
ghost use Rattle.bpf_code.specs.Effects.{or_finish, result_of, index_operand, passes, branch, effect_of, SetA};
ghost use Rattle.bpf_code.specs.Loads.{load};
ghost use Rattle.bpf_code.specs.Program.{IsConstantFine};
ghost use Rattle.bpf_trace.specs.Views.{state_of, effect_by, IsAmountFine};

use crate::configuration::{Configuration, word_of};
use bpf_code::{Arithmetic, Ins, Op, Operand, Test, Width};
use summary::Image;

/// What an instruction does: A, X or a scratch word gets a value, some instructions are skipped, or the run ends.
#[derive(Clone, Copy)]
pub(crate) enum Effect {
    SetA(u32),
    SetX(u32),
    SetWord(u32),
    Skip(u32),
    Finish(u32),
}

/// What a load reads, unless a byte of it lies outside of the image.
pub(crate) fn load(image: &Image<'_>, width: Width, at: u64) -> Option<u32>
    ensures { result ≡ load width image.now at }
{
    match width {
        Width::Word => image.word(at),
        Width::Half => image.half(at),
        Width::Byte => image.byte(at),
    }
}

/// A gets a value, or the run ends where there is none.
fn set_a(value: Option<u32>) -> Effect
    ensures { effect_by result ≡ or_finish SetA value }
{
    match value {
        Some(value) => Effect::SetA(value),
        None => Effect::Finish(0),
    }
}

/// A or the operand, as a computation changes it; none at a division by 0.
fn result_of(arithmetic: Arithmetic, a: u32, operand: u32) -> Option<u32>
    requires { IsAmountFine arithmetic operand }
    ensures { result ≡ result_of arithmetic a operand }
{
    match arithmetic {
        Arithmetic::Add => Some(a.wrapping_add(operand)),
        Arithmetic::Sub => Some(a.wrapping_sub(operand)),
        Arithmetic::Mul => Some(a.wrapping_mul(operand)),
        Arithmetic::Div if operand == 0 => None,
        Arithmetic::Div => Some(a / operand),
        Arithmetic::Or => Some(a | operand),
        Arithmetic::And => Some(a & operand),
        Arithmetic::ShiftLeft => Some(a.wrapping_shl(operand)),
        Arithmetic::ShiftRight => Some(a >> operand),
        Arithmetic::Mod if operand == 0 => None,
        Arithmetic::Mod => Some(a % operand),
        Arithmetic::Xor => Some(a ^ operand),
    }
}

/// X as the operand of a computation.
fn index_operand(arithmetic: Arithmetic, x: u32) -> u32
    ensures value { result ≡ index_operand arithmetic x }
    ensures fine { IsAmountFine arithmetic result }
{
    match arithmetic {
        Arithmetic::ShiftLeft | Arithmetic::ShiftRight => x % 32,
        _ => x,
    }
}

/// Whether a test holds.
fn passes(test: Test, a: u32, operand: u32) -> bool
    ensures { result ≡ passes test a operand }
{
    match test {
        Test::Equal => a == operand,
        Test::Above => a > operand,
        Test::AtLeast => a >= operand,
        Test::SharesBit => a & operand != 0,
    }
}

/// The way of a conditional jump.
fn branch(holds: bool, ins: &Ins) -> Effect
    ensures { effect_by result ≡ branch holds ins.now }
{
    let distance = if holds { ins.jt } else { ins.jf };
    Effect::Skip(u32::from(distance))
}

/// What an instruction does at a configuration, if it does anything.
pub(crate) fn effect_of(op: Op, ins: &Ins, image: &Image<'_>, at: &Configuration) -> Option<Effect>
    requires { IsConstantFine op ins.now }
    ensures { option_map effect_by result ≡ effect_of op ins.now image.now at.now.a at.now.x ((state_of at.now).words ins.now.k) }
{
    let k = ins.k;
    let effect = match op {
        Op::LoadConstant => Effect::SetA(k),
        Op::LoadImage(width) => set_a(load(image, width, u64::from(k))),
        Op::LoadIndexed(width) => set_a(load(image, width, u64::from(at.x) + u64::from(k))),
        Op::LoadScratch => return word_of(at, k).map(Effect::SetA),
        Op::LoadLength => Effect::SetA(image.len() as u32),
        Op::IndexConstant => Effect::SetX(k),
        Op::IndexScratch => return word_of(at, k).map(Effect::SetX),
        Op::IndexLength => Effect::SetX(image.len() as u32),
        Op::IndexHeader => match image.byte(u64::from(k)) {
            Some(byte) => Effect::SetX(4 * (byte % 16)),
            None => Effect::Finish(0),
        },
        Op::StoreA => Effect::SetWord(at.a),
        Op::StoreX => Effect::SetWord(at.x),
        Op::Compute(arithmetic, Operand::Constant) => {
            return result_of(arithmetic, at.a, k).map(Effect::SetA);
        }
        Op::Compute(arithmetic, Operand::Index) => {
            set_a(result_of(arithmetic, at.a, index_operand(arithmetic, at.x)))
        }
        Op::Negate => Effect::SetA(0u32.wrapping_sub(at.a)),
        Op::Jump => Effect::Skip(k),
        Op::Branch(test, Operand::Constant) => branch(passes(test, at.a, k), ins),
        Op::Branch(test, Operand::Index) => branch(passes(test, at.a, at.x), ins),
        Op::ReturnConstant => Effect::Finish(k),
        Op::ReturnA => Effect::Finish(at.a),
        Op::IndexFromA => Effect::SetX(at.a),
        Op::LoadFromX => Effect::SetA(at.x),
    };
    Some(effect)
}
