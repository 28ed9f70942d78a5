// Messages that are built.

use super::spelling::words_of;
use case_files::{Fields, Judge, LineError, digits};
use message_build::{BuildError, Builder};
use message_view::Kind;
use std::alloc::Global;

/// A kind, a serial, and calls of a builder divided by bars: the message, or why it can't be built.
pub(crate) struct Built;

impl Judge for Built {
    const INPUTS: usize = 3;

    fn came(&self, alloc: Global, inputs: &Fields) -> Result<String, LineError> {
        let kind = kind_of(inputs.text(0)?)?;
        let serial = inputs.text(1)?.parse::<u32>()?;
        let calls = inputs.text(2)?;
        let mut builder = Builder::new(alloc, kind, 0, serial);
        match ask_all(alloc, &mut builder, calls) {
            Ok(()) => answer(alloc, &builder),
            Err(error) => Err(error),
        }
    }
}

/// The builder's message, or why it can't be built.
fn answer(alloc: Global, builder: &Builder<'_>) -> Result<String, LineError> {
    match builder.finish(alloc) {
        Ok(bytes) => words_of(alloc, bytes.as_slice()),
        Err(BuildError::NoMemory) => Err(LineError::NoMemory),
        Err(fault) => Ok(String::from_str(alloc, fault.name())?),
    }
}

fn ask_all<'a>(alloc: Global, builder: &mut Builder<'a>, calls: &'a str) -> Result<(), LineError> {
    for call in calls.split('|') {
        // No calls at all are one empty piece.
        if call.is_empty() {
            continue;
        }
        let (word, field_text) = call.trim().split_once(' ').ok_or(LineError::Unreadable)?;
        ask(alloc, builder, word, field_text)?;
    }
    Ok(())
}

/// One call of the builder.
fn ask<'a>(
    alloc: Global,
    builder: &mut Builder<'a>,
    word: &str,
    field_text: &'a str,
) -> Result<(), LineError> {
    match word {
        "path" => builder.path(field_text),
        "interface" => builder.interface(field_text),
        "member" => builder.member(field_text),
        _ => return add(alloc, builder, word, field_text),
    }
    Ok(())
}

/// A call that adds to the body. It fails only where memory runs out.
fn add(
    alloc: Global,
    builder: &mut Builder<'_>,
    word: &str,
    field_text: &str,
) -> Result<(), LineError> {
    let added = match word {
        "string" => builder.arg_str(field_text),
        "strings" => builder.arg_strs(&[field_text]),
        "number" => builder.arg_u32(field_text.parse::<u32>()?),
        "boolean" => builder.arg_bool(field_text == "true"),
        "body" => {
            let (signature, words) = field_text.split_once(' ').ok_or(LineError::Unreadable)?;
            let body = digits(alloc, words)?;
            builder.raw_body(signature.as_bytes(), body.as_slice())
        }
        _ => return Err(LineError::Unreadable),
    };
    match added {
        Ok(()) => Ok(()),
        Err(_) => Err(LineError::NoMemory),
    }
}

fn kind_of(word: &str) -> Result<Kind, LineError> {
    match word {
        "method_call" => Ok(Kind::MethodCall),
        "method_return" => Ok(Kind::MethodReturn),
        "error" => Ok(Kind::Error),
        "signal" => Ok(Kind::Signal),
        _ => Err(LineError::Unreadable),
    }
}
