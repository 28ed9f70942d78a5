ghost use Rattle.std.specs.Prelude.{◌≡◌, ◌<◌, [], ◌∷◌, ℕ, List, length, MatchOption, IfOk, IfErr};
ghost use Rattle.bpf_code.specs.declared.instruction.Ins.{Ins};
ghost use Rattle.bpf_code.specs.declared.error.CodeError.{CodeError};
ghost use Rattle.bpf_text.specs.Source.{lines_of, SourceText, IsTextFault};

use crate::draft::Draft;
use crate::line::add_line;
use crate::named_labels::Labels;
use crate::resolve::program;
use bpf_code::{CodeError, Ins};
use memchr::memchr;
use std::alloc::Global;

/// The first line of bytes without its LF, and the bytes after that LF; `None` where no LF ends the line.
fn split_line(bytes: &[u8]) -> (&[u8], Option<&[u8]>)
    ensures lines { MatchOption result.1 (lines_of bytes.now ≡ result.0.now ∷ []) (λ rest. lines_of bytes.now ≡ result.0.now ∷ lines_of rest.now) }
    ensures shorter { MatchOption result.1 (length result.0.now ≡ length bytes.now) (λ rest. length rest.now < length bytes.now) }
{
    match memchr(b'\n', bytes) {
        Some(end) => (&bytes[..end], Some(&bytes[end + 1..])),
        None => (bytes, None),
    }
}

/// The program that a text names: lines of labels, instructions and comments.
///
/// # Errors
///
/// Of a text that is none, the first line that isn't of the form; else of the first line that has a fault
/// its label, which is defined a second time or isn't the label of an instruction ahead of its jump, or its
/// jump, which is too far.
pub fn assemble(alloc: Global, text: &str) -> Result<Vec<Ins>, CodeError>
    ensures found { IfOk result (λ program. SourceText text.now program.items) }
    ensures fault { IfErr result (IsTextFault text.now) }
{
    assemble_bytes(alloc, text.as_bytes())
}

/// The program that bytes name as a text, which need not be UTF-8: a line with a byte that isn't ASCII isn't
/// of the form. Its errors are those of `assemble`.
pub fn assemble_bytes(alloc: Global, text: &[u8]) -> Result<Vec<Ins>, CodeError>
    ensures found { IfOk result (λ program. SourceText text.now program.items) }
    ensures fault { IfErr result (IsTextFault text.now) }
{
    let mut draft = Draft {
        labels: Labels::new(alloc),
        lines: Vec::new(alloc),
        count: 0,
    };
    let mut rest = text;
    let mut number = 1;
    'lines: loop {
        let (line, tail) = split_line(rest);
        add_line(&mut draft, line, number)?;
        let Some(next) = tail else {
            return program(alloc, &draft);
        };
        rest = next;
        number += 1;
    }
}

/// A text names at most one program, and a text that names one has no fault.
pub fn one_source()
    ensures program { (text : List ℕ) (p q : List Ins) → SourceText text p → SourceText text q → p ≡ q }
    ensures fault { (text : List ℕ) (p : List Ins) (e : CodeError) → SourceText text p → IsTextFault text e → e ≡ CodeError.NoMemory }
{}
