// The line of a step.

ghost use Rattle.std.specs.Prelude.{◌≡◌, ◌<◌, ◌≤◌, ◌^◌, ◌++◌, ℕ, replicate, OnOk, IfOk, string_bytes};
ghost use Rattle.bpf_trace.specs.Lines.{in_column, labelled_text, scratch_text, scratch_texts, registers_text, found_text, load_text, read_text, column_width, line_of, step_line};
ghost use Rattle.bpf_trace.specs.Views.{state_of};

use crate::configuration::{Configuration, WORDS, word_of};
use crate::effect::load;
use crate::image_words::push_place;
use crate::step::instruction_at;
use bpf_code::{Ins, Op, Width};
use bpf_text::put_instruction;
use std::alloc::{AllocError, Global};
use std::fmt::Write;
use summary::{Edition, Image};

/// How wide the column of the instructions is.
const COLUMN: usize = 32;

/// Adds blanks.
fn push_blanks(text: &mut String, count: usize) -> Result<(), AllocError>
    ensures { OnOk result (string_bytes text.new ≡ string_bytes text.old ++ replicate count 32) }
{
    for _ in 0..count {
        text.push(' ')?;
    }
    Ok(())
}

/// Adds a text in a column of this width.
fn push_in_column(text: &mut String, width: usize, word: &str) -> Result<(), AllocError>
    ensures { OnOk result (string_bytes text.new ≡ string_bytes text.old ++ in_column width word.now) }
{
    text.push_str(word)?;
    push_blanks(text, width.saturating_sub(word.len()))
}

/// An instruction, with the label of its place.
fn labelled(alloc: Global, place: usize, op: Op, ins: &Ins) -> Result<String, AllocError>
    requires { place < 2 ^ 63 }
    ensures { IfOk result (λ text. string_bytes text ≡ labelled_text place op ins.now) }
{
    let mut text = String::new(alloc);
    write!(text, "L{place}: ")?;
    match put_instruction(&mut text, place as u64, op, ins) {
        Ok(()) => Ok(text),
        Err(_) => Err(AllocError),
    }
}

/// Adds a scratch word, if it is set.
fn push_scratch(text: &mut String, k: u32, word: Option<u32>) -> Result<(), AllocError>
    ensures { OnOk result (string_bytes text.new ≡ string_bytes text.old ++ scratch_text k word) }
{
    match word {
        Some(value) => write!(text, " M[{k}]={value}"),
        None => Ok(()),
    }
}

/// Adds the scratch words that are set.
fn push_scratches(text: &mut String, at: &Configuration) -> Result<(), AllocError>
    ensures { OnOk result (string_bytes text.new ≡ string_bytes text.old ++ scratch_texts (state_of at.now).words 16) }
{
    for k in 0..WORDS {
        push_scratch(text, k, word_of(at, k))?;
    }
    Ok(())
}

/// Adds A, X and the scratch words that are set.
fn push_registers(text: &mut String, at: &Configuration) -> Result<(), AllocError>
    ensures { OnOk result (string_bytes text.new ≡ string_bytes text.old ++ registers_text (state_of at.now)) }
{
    let Configuration { a, x, .. } = *at;
    write!(text, " A={a} X={x}")?;
    push_scratches(text, at)
}

/// Adds what a load finds at a place.
fn push_found(
    text: &mut String,
    edition: Edition,
    width: Width,
    at: u64,
    found: Option<u32>,
) -> Result<(), AllocError>
    ensures { OnOk result (string_bytes text.new ≡ string_bytes text.old ++ found_text edition width at found) }
{
    match found {
        Some(value) => {
            write!(text, "  [{at}] = {value}")?;
            push_place(text, edition, width, at)
        }
        None => write!(text, "  [{at}] lies outside"),
    }
}

fn push_load(
    text: &mut String,
    edition: Edition,
    image: &Image<'_>,
    width: Width,
    at: u64,
) -> Result<(), AllocError>
    ensures { OnOk result (string_bytes text.new ≡ string_bytes text.old ++ load_text edition image.now width at) }
{
    push_found(text, edition, width, at, load(image, width, at))
}

/// Adds what an instruction reads of the image.
fn push_read(
    text: &mut String,
    edition: Edition,
    image: &Image<'_>,
    op: Op,
    ins: &Ins,
    x: u32,
) -> Result<(), AllocError>
    ensures { OnOk result (string_bytes text.new ≡ string_bytes text.old ++ read_text edition image.now op ins.now x) }
{
    let k = u64::from(ins.k);
    match op {
        Op::LoadImage(width) => push_load(text, edition, image, width, k),
        Op::LoadIndexed(width) => push_load(text, edition, image, width, u64::from(x) + k),
        Op::IndexHeader => push_load(text, edition, image, Width::Byte, k),
        _ => Ok(()),
    }
}

/// Adds the line of an instruction at a configuration.
fn push_row(
    alloc: Global,
    text: &mut String,
    edition: Edition,
    image: &Image<'_>,
    at: &Configuration,
    ins: &Ins,
    op: Op,
) -> Result<(), AllocError>
    requires { at.now.place < 2 ^ 63 }
    ensures { OnOk result (string_bytes text.new ≡ string_bytes text.old ++ line_of edition image.now (state_of at.now) ins.now op) }
{
    let instruction = labelled(alloc, at.place, op, ins)?;
    push_in_column(text, COLUMN, instruction.as_str())?;
    push_registers(text, at)?;
    push_read(text, edition, image, op, ins, at.x)?;
    text.push_str("\n")
}

/// Adds the line of the step that a program makes at a configuration.
pub(crate) fn push_line(
    alloc: Global,
    text: &mut String,
    edition: Edition,
    program: &[Ins],
    image: &Image<'_>,
    at: &Configuration,
) -> Result<(), AllocError>
    ensures { OnOk result (string_bytes text.new ≡ string_bytes text.old ++ step_line edition program.now image.now (state_of at.now)) }
{
    if at.place >= program.len() {
        return Ok(());
    }
    let ins = instruction_at(program, at.place);
    match Op::of(ins.code) {
        Some(op) => push_row(alloc, text, edition, image, at, ins, op),
        None => Ok(()),
    }
}
