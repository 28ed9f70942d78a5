ghost use Rattle.std.specs.Prelude.{◌≡◌, ◌<◌, ◌^◌, ◌++◌, string_bytes, decimal, OnOk, IfErr};
ghost use Rattle.bpf_code.specs.declared.error.CodeError.TheVariants.{NoMemory};
ghost use Rattle.bpf_text.specs.Printing.{load_word, arithmetic_word, test_word, word_of, operand_text, targets_text, instruction_text, label_text, line_text};

use bpf_code::{Arithmetic, CodeError, Ins, Op, Operand, Test, Width};
use itoa::Buffer;

fn load_name(width: Width) -> &'static str
    ensures { result.now ≡ load_word width }
{
    match width {
        Width::Word => "ld",
        Width::Half => "ldh",
        Width::Byte => "ldb",
    }
}

fn arithmetic_name(arithmetic: Arithmetic) -> &'static str
    ensures { result.now ≡ arithmetic_word arithmetic }
{
    match arithmetic {
        Arithmetic::Add => "add",
        Arithmetic::Sub => "sub",
        Arithmetic::Mul => "mul",
        Arithmetic::Div => "div",
        Arithmetic::Or => "or",
        Arithmetic::And => "and",
        Arithmetic::ShiftLeft => "lsh",
        Arithmetic::ShiftRight => "rsh",
        Arithmetic::Mod => "mod",
        Arithmetic::Xor => "xor",
    }
}

fn test_name(test: Test) -> &'static str
    ensures { result.now ≡ test_word test }
{
    match test {
        Test::Equal => "jeq",
        Test::Above => "jgt",
        Test::AtLeast => "jge",
        Test::SharesBit => "jset",
    }
}

/// The mnemonic.
fn name(op: Op) -> &'static str
    ensures { result.now ≡ word_of op }
{
    match op {
        Op::LoadConstant | Op::LoadScratch | Op::LoadLength => "ld",
        Op::LoadImage(width) | Op::LoadIndexed(width) => load_name(width),
        Op::IndexConstant | Op::IndexScratch | Op::IndexLength => "ldx",
        Op::IndexHeader => "ldxb",
        Op::StoreA => "st",
        Op::StoreX => "stx",
        Op::Compute(arithmetic, _) => arithmetic_name(arithmetic),
        Op::Negate => "neg",
        Op::Jump => "ja",
        Op::Branch(test, _) => test_name(test),
        Op::ReturnConstant | Op::ReturnA => "ret",
        Op::IndexFromA => "tax",
        Op::LoadFromX => "txa",
    }
}

/// Writes a text at the end.
fn put(out: &mut String, text: &str) -> Result<(), CodeError>
    ensures ok { OnOk result (string_bytes out.new ≡ string_bytes out.old ++ text.now) }
    ensures only { IfErr result (λ e. e ≡ NoMemory) }
{
    out.push_str(text)?;
    Ok(())
}

/// Writes a decimal number between two texts.
fn put_number(out: &mut String, before: &str, number: u64, after: &str) -> Result<(), CodeError>
    ensures ok { OnOk result (string_bytes out.new ≡ string_bytes out.old ++ (before.now ++ decimal number ++ after.now)) }
    ensures only { IfErr result (λ e. e ≡ NoMemory) }
{
    let mut buffer = Buffer::new();
    put(out, before)?;
    put(out, buffer.format(number))?;
    put(out, after)
}

/// Writes the operand but for the labels of a jump.
fn put_operand(out: &mut String, op: Op, k: u64) -> Result<(), CodeError>
    ensures ok { OnOk result (string_bytes out.new ≡ string_bytes out.old ++ operand_text op k) }
    ensures only { IfErr result (λ e. e ≡ NoMemory) }
{
    match op {
        Op::LoadConstant
        | Op::IndexConstant
        | Op::Compute(_, Operand::Constant)
        | Op::Branch(_, Operand::Constant)
        | Op::ReturnConstant => put_number(out, " #", k, ""),
        Op::LoadImage(_) => put_number(out, " [", k, "]"),
        Op::LoadIndexed(_) => put_number(out, " [x+", k, "]"),
        Op::LoadScratch | Op::IndexScratch | Op::StoreA | Op::StoreX => put_number(
            out, " M[", k, "]",
        ),
        Op::IndexHeader => put_number(out, " 4*([", k, "]&0xf)"),
        Op::LoadLength | Op::IndexLength => put(out, " #len"),
        Op::Compute(_, Operand::Index) | Op::Branch(_, Operand::Index) => put(out, " x"),
        Op::ReturnA => put(out, " a"),
        Op::Negate | Op::Jump | Op::IndexFromA | Op::LoadFromX => Ok(()),
    }
}

/// Writes the labels of a jump at a place: `L` and the target's place.
fn put_targets(out: &mut String, place: u64, op: Op, ins: &Ins) -> Result<(), CodeError>
    requires { place < 2 ^ 63 }
    ensures ok { OnOk result (string_bytes out.new ≡ string_bytes out.old ++ targets_text place op ins.now) }
    ensures only { IfErr result (λ e. e ≡ NoMemory) }
{
    match op {
        Op::Jump => put_number(out, " L", place + 1 + u64::from(ins.k), ""),
        Op::Branch(_, _) => {
            put_number(out, ", L", place + 1 + u64::from(ins.jt), "")?;
            put_number(out, ", L", place + 1 + u64::from(ins.jf), "")
        }
        _ => Ok(()),
    }
}

/// Writes the label of a line that a jump leads to.
fn put_label(out: &mut String, place: u64, is_target: bool) -> Result<(), CodeError>
    ensures ok { OnOk result (string_bytes out.new ≡ string_bytes out.old ++ label_text place is_target) }
    ensures only { IfErr result (λ e. e ≡ NoMemory) }
{
    if is_target {
        put_number(out, "L", place, ": ")
    } else {
        Ok(())
    }
}

/// Writes an instruction at a place, as its line has it after the label.
///
/// # Errors
///
/// Memory was refused.
pub fn put_instruction(out: &mut String, place: u64, op: Op, ins: &Ins) -> Result<(), CodeError>
    requires { place < 2 ^ 63 }
    ensures ok { OnOk result (string_bytes out.new ≡ string_bytes out.old ++ instruction_text place op ins.now) }
    ensures only { IfErr result (λ e. e ≡ NoMemory) }
{
    put(out, name(op))?;
    put_operand(out, op, u64::from(ins.k))?;
    put_targets(out, place, op, ins)
}

/// Writes the line of an instruction.
#[tactic(auto, unfolding(crate::specs::Printing::line_text))]
pub(crate) fn put_line(
    out: &mut String,
    place: u64,
    is_target: bool,
    op: Op,
    ins: &Ins,
) -> Result<(), CodeError>
    requires { place < 2 ^ 63 }
    ensures ok { OnOk result (string_bytes out.new ≡ string_bytes out.old ++ line_text place is_target op ins.now) }
    ensures only { IfErr result (λ e. e ≡ NoMemory) }
{
    put_label(out, place, is_target)?;
    put_instruction(out, place, op, ins)?;
    put(out, "\n")
}
