ghost use Rattle.std.specs.Prelude.{◌≡◌, ◌↔◌, IsOk, IfOk, IfErr, MatchOption};
ghost use Rattle.bpf_verify.specs.FirstFault.{IsFault};
ghost use Rattle.bpf_code.specs.Program.{WellFormed};

use crate::error::VerifyError;
use crate::rows::{first_fault, is_return};
use crate::scratch::first_unset;
use bpf_code::Ins;
use std::marker::Model;

/// A program that was accepted.
#[derive(Drop)]
pub struct Verified {
    code: Vec<Ins>,
}

impl Model for Verified {
    ghost use Rattle.std.specs.Prelude.{List};
    ghost use Rattle.bpf_code.specs.declared.instruction.Ins.{Ins};
    ghost use Rattle.bpf_code.specs.Program.{WellFormed};

    ghost Value = { List Ins };

    ghost view = { λ v. v.code.items };

    ghost invariant = { λ v. WellFormed v.code.items };
}

impl Verified {
    /// The instructions.
    pub fn code(&self) -> &[Ins]
        ensures value { result.now ≡ self.now }
        ensures well_formed { WellFormed self.now }
    {
        self.code.as_slice()
    }
}

/// The fault that is named, if there is one.
fn fault_of(code: &[Ins]) -> Option<VerifyError>
    ensures { MatchOption result (WellFormed code.now) (IsFault code.now) }
{
    if code.is_empty() {
        return Some(VerifyError::Empty);
    }
    if code.len() > 4096 {
        return Some(VerifyError::TooMany);
    }
    let first = first_fault(code);
    if let Some(fault) = first {
        return Some(fault);
    }
    let last = code.len() - 1;
    if !is_return(&code[last]) {
        return Some(VerifyError::Last(last));
    }
    let unset = first_unset(code);
    if let Some(place) = unset {
        return Some(VerifyError::Unset(place));
    }
    None
}

/// Accepts a program, or hands it back with its fault.
pub fn verify(code: Vec<Ins>) -> Result<Verified, (VerifyError, Vec<Ins>)>
    ensures accepted { IsOk result ↔ WellFormed code.items }
    ensures same { IfOk result (λ v. v ≡ code.items) }
    ensures fault { IfErr result (λ e. IsFault code.items e.0) }
    ensures back { IfErr result (λ e. e.1 ≡ code) }
{
    let fault = fault_of(code.as_slice());
    match fault {
        None => Ok(Verified { code }),
        Some(fault) => Err((fault, code)),
    }
}
