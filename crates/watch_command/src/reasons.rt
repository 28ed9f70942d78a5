// What is said to people of rules, programs and files that fail, or of a bus that can't be reached.

use crate::error::Fault;
use crate::expression::FilterFault;
use crate::options::Options;
use crate::words::Key;
use captures::CaptureError;
use command_line::{Files, Output, Writer};
use dbusfan_tool::{capture_reason, reason_for};
use std::alloc::{AllocError, Global};

/// Says more of a fault, in a line for people after the one for programs, as far as memory allows.
pub(crate) fn explain<F: Files, E: Writer>(
    alloc: Global,
    fault: &Fault,
    words: &[&str],
    files: &mut F,
    err: &mut Output<E>,
) {
    if let Ok(Some(reason)) = reason_of(alloc, fault, words, files) {
        err.put_reason(alloc, reason.as_str());
    }
}

fn reason_of<F: Files>(
    alloc: Global,
    fault: &Fault,
    words: &[&str],
    files: &mut F,
) -> Result<Option<String>, AllocError> {
    let Some(options) = Options::read(alloc, words)? else {
        return Ok(None);
    };
    match fault {
        Fault::Socket => of_address(alloc, &options, "no bus answers there, or it has gone away"),
        Fault::Auth => of_address(alloc, &options, "this bus doesn't let this user in"),
        Fault::Capture(fault) => of_capture(alloc, &options, *fault),
        Fault::Filter(fault) => of_filter(alloc, &options, fault, files),
        Fault::Tool(command_line::Fault::File) => of_files(alloc, &options, files),
        Fault::Tool(command_line::Fault::Rule(_)) => of_rules(alloc, &options, files),
        Fault::Tool(command_line::Fault::Code(_) | command_line::Fault::Program(_)) => {
            of_program(alloc, &options, files)
        }
        _ => Ok(None),
    }
}

fn of_address(
    alloc: Global,
    options: &Options<'_>,
    reason: &str,
) -> Result<Option<String>, AllocError> {
    match options.address() {
        Some(address) => Ok(Some(format!(in alloc; "{address}: {reason}")?)),
        None => Ok(None),
    }
}

fn of_capture(
    alloc: Global,
    options: &Options<'_>,
    fault: CaptureError,
) -> Result<Option<String>, AllocError> {
    match options.text_of(Key::Read) {
        Some("-") => Ok(Some(capture_reason(alloc, "standard input", fault)?)),
        Some(file) => Ok(Some(capture_reason(alloc, file, fault)?)),
        None => Ok(None),
    }
}

// Of the first rule that is none, among the words or in a file.
fn of_rules<F: Files>(
    alloc: Global,
    options: &Options<'_>,
    files: &mut F,
) -> Result<Option<String>, AllocError> {
    for text in options.rules(alloc)? {
        let reason = of_rule(alloc, text, files)?;
        if reason.is_some() {
            return Ok(reason);
        }
    }
    match options.text_of(Key::Rules) {
        Some(file) if file != "-" => of_rules_file(alloc, file, files),
        _ => Ok(None),
    }
}

// As `compile` says it.
fn of_rule<F: Files>(
    alloc: Global,
    text: &str,
    files: &mut F,
) -> Result<Option<String>, AllocError> {
    reason_for(alloc, &["compile", "--", text], files)
}

fn of_rules_file<F: Files>(
    alloc: Global,
    file: &str,
    files: &mut F,
) -> Result<Option<String>, AllocError> {
    let Ok(bytes) = files.read(alloc, file) else {
        return Ok(None);
    };
    let Ok(text) = String::from_utf8(bytes) else {
        return Ok(None);
    };
    let mut number = 0u64;
    for line in text.as_str().lines() {
        number = number.wrapping_add(1);
        if !line.is_empty() && !line.starts_with("#") {
            if let Some(reason) = of_rule(alloc, line, files)? {
                return Ok(Some(format!(in alloc; "{file}, line {number}: {reason}")?));
            }
        }
    }
    Ok(None)
}

// Of the filter expression, as `compile` says it where it is none.
fn of_filter<F: Files>(
    alloc: Global,
    options: &Options<'_>,
    fault: &FilterFault,
    files: &mut F,
) -> Result<Option<String>, AllocError> {
    match (options.text_of(Key::Filter), fault) {
        (_, FilterFault::SenderName(name)) => Ok(Some(format!(in alloc;
            "filter: who owns {name} isn't known here; a rule can ask for it as its sender"
        )?)),
        (Some(text), _) => reason_for(alloc, &["compile", "--filter", text], files),
        (None, _) => Ok(None),
    }
}

// Of the program's file, as `check` says it.
fn of_program<F: Files>(
    alloc: Global,
    options: &Options<'_>,
    files: &mut F,
) -> Result<Option<String>, AllocError> {
    match options.text_of(Key::Program) {
        Some(file) if !file.starts_with("-") => reason_for(alloc, &["check", file], files),
        _ => Ok(None),
    }
}

// Of the first file that can't be read, or of where the messages were to be written.
fn of_files<F: Files>(
    alloc: Global,
    options: &Options<'_>,
    files: &mut F,
) -> Result<Option<String>, AllocError> {
    for key in [Key::Program, Key::Rules, Key::Read] {
        match options.text_of(key) {
            Some(file) if file != "-" && files.open(file).is_err() => {
                return Ok(Some(format!(in alloc; "{file}: it isn't there, or can't be read")?));
            }
            _ => {}
        }
    }
    let target = match options.text_of(Key::Write) {
        Some(file) if file != "-" => file,
        _ => "standard output",
    };
    Ok(Some(format!(in alloc; "{target} can't be written")?))
}
