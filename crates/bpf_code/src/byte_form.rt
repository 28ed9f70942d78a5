ghost use Rattle.std.specs.Prelude.{◌≡◌, ◌≢◌, ◌↔◌, ◌%◌, ◌⊎◌, length, IfOk, IfErr, IsErrOf};
ghost use Rattle.bpf_code.specs.Bytes.{byte_form, ins_bytes};

use crate::error::CodeError;
use crate::instruction::Ins;
use std::alloc::Global;

/// The instruction that eight bytes spell.
fn ins_of(bytes: [u8; 8]) -> Ins
    ensures { bytes ≡ ins_bytes result }
{
    let [code_low, code_high, jt, jf, k0, k1, k2, k3] = bytes;
    Ins {
        code: u16::from_le_bytes([code_low, code_high]),
        jt,
        jf,
        k: u32::from_le_bytes([k0, k1, k2, k3]),
    }
}

/// The eight bytes of an instruction: code, jt, jf and k, each with its lowest byte first.
pub fn bytes_of(ins: &Ins) -> [u8; 8]
    ensures { result ≡ ins_bytes ins.now }
{
    let [code_low, code_high] = ins.code.to_le_bytes();
    let [k0, k1, k2, k3] = ins.k.to_le_bytes();
    [code_low, code_high, ins.jt, ins.jf, k0, k1, k2, k3]
}

/// The program that bytes spell, eight an instruction: code, jt, jf and k, each with its lowest byte first.
/// Any code is decoded.
pub fn decode(alloc: Global, bytes: &[u8]) -> Result<Vec<Ins>, CodeError>
    ensures found { IfOk result (λ program. bytes.now ≡ byte_form program.items) }
    ensures length { IsErrOf result CodeError.Length ↔ (length bytes.now % 8 ≢ 0) }
    ensures only { IfErr result (λ e. (e ≡ CodeError.Length) ⊎ (e ≡ CodeError.NoMemory)) }
{
    let (groups, rest) = bytes.as_chunks::<8>();
    if !rest.is_empty() {
        return Err(CodeError::Length);
    }
    let mut program = Vec::with_capacity(alloc, groups.len())?;
    for group in groups {
        program.push(ins_of(*group))?;
    }
    Ok(program)
}

/// The bytes of a program.
pub fn encode(alloc: Global, program: &[Ins]) -> Result<Vec<u8>, CodeError>
    ensures found { IfOk result (λ bytes. bytes.items ≡ byte_form program.now) }
    ensures only { IfErr result (λ e. e ≡ CodeError.NoMemory) }
{
    let mut bytes = Vec::new(alloc);
    for ins in program {
        bytes.extend_from_slice(&bytes_of(ins))?;
    }
    Ok(bytes)
}
