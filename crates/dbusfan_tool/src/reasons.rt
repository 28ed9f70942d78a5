// What is said to people of words and texts that were refused.

use crate::beginning::Beginning;
use crate::capture_fault::capture_fault;
use crate::expression_words::{word_at, word_before};
use crate::sentences::{of_capture, of_code, of_filter, of_message, of_rule};
use bpf_code::CodeError;
use bpf_text::assemble_bytes;
use bpf_verify::{VerifyError, verify};
use captures::{CaptureError, is_capture};
use command_line::{CommandRow, FileError, Files, HexError, decode, fault_of};
use filter::{FaultAt, Filter, FilterError};
use filter_compile::{CompileError, compile};
use match_key::RuleError;
use match_rule::Rule;
use message_value::MsgError;
use message_view::View;
use std::alloc::{AllocError, Global};
use std::fmt;

/// What a command judges of a program's file.
#[derive(Clone, Copy)]
enum Judged {
    Text,
    /// Whether the program that the text names is accepted, too.
    Program,
}

/// What is wrong with a text or a file.
#[derive(Clone, Copy)]
enum Reason<'a> {
    /// The fault of a rule, in the part with this key that begins at this byte, from 0.
    Rule {
        place: usize,
        key: &'a str,
        fault: RuleError,
    },
    /// The first fault of a filter expression.
    Filter {
        expression: &'a str,
        at: FaultAt,
    },
    HeavyFilter,
    /// A byte of a file that is no hexadecimal digit.
    NoDigit {
        file: &'a str,
        line: u64,
        column: u64,
    },
    /// The last byte of a file's hexadecimal text has one digit alone.
    HalfByte(&'a str),
    /// The bytes that a file's hexadecimal text names are no message.
    Message {
        file: &'a str,
        fault: MsgError,
    },
    /// A file is no capture, or a faulty one.
    Capture {
        file: &'a str,
        fault: CaptureError,
    },
    /// A file's text names no program.
    Code {
        file: &'a str,
        fault: CodeError,
    },
    /// The program that a file's text names is refused.
    Program {
        file: &'a str,
        fault: VerifyError,
    },
    Unreadable(&'a str),
}

impl<'a> fmt::Display for Reason<'a> {
    fn fmt<W: fmt::Write>(&self, f: &mut fmt::Formatter<W>) -> fmt::Result {
        match self {
            Reason::Rule { place, key, fault } => {
                write!(f, "rule, at {place}: ")?;
                of_rule(f, key, *fault)
            }
            Reason::Filter { expression, at } => {
                let place = at.place;
                write!(f, "filter, at {place}: ")?;
                of_filter(
                    f,
                    word_at(expression, place),
                    word_before(expression, place),
                    at.fault,
                )
            }
            Reason::HeavyFilter => f.write_str(
                "filter: it has more tests than a program has room for",
            ),
            Reason::NoDigit { file, line, column } => write!(
                f,
                "{file}, line {line}, column {column}: not a hexadecimal digit"
            ),
            Reason::HalfByte(file) => write!(f, "{file}: the last byte has one digit alone"),
            Reason::Message { file, fault } => write!(f, "{file}: {}", of_message(*fault)),
            Reason::Capture { file, fault } => {
                write!(f, "{file}: ")?;
                of_capture(f, *fault)
            }
            Reason::Code { file, fault } => {
                write_place(f, file, "line", fault.place())?;
                f.write_str(of_code(*fault))
            }
            Reason::Program { file, fault } => {
                write_place(f, file, "instruction", fault.place())?;
                f.write_str(fault.sentence())
            }
            Reason::Unreadable(file) => write!(f, "{file}: it isn't there, or can't be read"),
        }
    }
}

// A file, and the place in it that is at fault, where there is one.
fn write_place<W: fmt::Write>(
    f: &mut fmt::Formatter<W>,
    file: &str,
    of_what: &str,
    place: Option<usize>,
) -> fmt::Result {
    match place {
        Some(place) => write!(f, "{file}, {of_what} {place}: "),
        None => write!(f, "{file}: "),
    }
}

/// What was wrong with the words that `tool` refused, or with a text that they name, in a line for people; `None` where
/// its own line says all. Files are read again, but for standard input, which would give other bytes.
pub fn reason_for<'a, F: Files>(
    alloc: Global,
    words: &'a [&'a str],
    files: &mut F,
) -> Result<Option<String>, AllocError> {
    let reason = match CommandRow::read(words) {
        None => return fault_of(alloc, words),
        Some(
            CommandRow::Match {
                rule,
                file,
                each,
                ..
            },
        ) => match rule_reason(alloc, rule)? {
            Some(reason) => Some(reason),
            None => message_reason(alloc, file, each, files)?,
        },
        Some(
            CommandRow::MatchFilter {
                filter,
                file,
                each,
                ..
            },
        ) => match filter_reason(alloc, filter)? {
            Some(reason) => Some(reason),
            None => message_reason(alloc, file, each, files)?,
        },
        Some(CommandRow::Compile { rule }) => rule_reason(alloc, rule)?,
        Some(CommandRow::CompileFilter { filter }) => filter_reason(alloc, filter)?,
        Some(
            CommandRow::Run {
                program,
                file,
                each,
                ..
            },
        ) => match program_reason(alloc, program, Judged::Program, files)? {
            Some(reason) => Some(reason),
            None => message_reason(alloc, file, each, files)?,
        },
        Some(CommandRow::Asm { file }) => program_reason(alloc, file, Judged::Text, files)?,
        Some(CommandRow::Check { file }) => program_reason(alloc, file, Judged::Program, files)?,
    };
    match reason {
        Some(reason) => Ok(Some(reason.to_string(alloc)?)),
        None => Ok(None),
    }
}

fn rule_reason<'a>(alloc: Global, text: &'a str) -> Result<Option<Reason<'a>>, AllocError> {
    match Rule::read(alloc, text) {
        Ok(_) => Ok(None),
        Err(RuleError::NoMemory) => Err(AllocError),
        Err(fault) => {
            let (place, key) = part_at_fault(alloc, text)?;
            Ok(Some(Reason::Rule { place, key, fault }))
        }
    }
}

// The first part of a rule with which it is none: how many bytes come before it, and its key. A comma between apostrophes
// parts nothing.
fn part_at_fault<'a>(alloc: Global, text: &'a str) -> Result<(usize, &'a str), AllocError> {
    let mut so_far = String::new(alloc);
    let mut part = (0, "");
    let mut is_closed = true;
    let mut is_first = true;
    for piece in text.split(',') {
        if !is_first {
            so_far.push_str(",")?;
        }
        if is_closed {
            part = (so_far.len(), key_of(piece));
        }
        so_far.push_str(piece)?;
        is_first = false;
        if piece.bytes().filter(|byte| *byte == b'\'').count() % 2 == 1 {
            is_closed = !is_closed;
        }
        if is_closed && Rule::read(alloc, so_far.as_str()).is_err() {
            return Ok(part);
        }
    }
    Ok(part)
}

fn key_of(piece: &str) -> &str {
    match piece.split_once('=') {
        Some((key, _)) => key,
        None => piece,
    }
}

fn filter_reason<'a>(alloc: Global, expression: &'a str) -> Result<Option<Reason<'a>>, AllocError> {
    let filter = match Filter::read(alloc, expression) {
        Ok(filter) => filter,
        Err(FilterError::Fault(at)) => return Ok(Some(Reason::Filter { expression, at })),
        Err(FilterError::NoMemory) => return Err(AllocError),
    };
    match compile(alloc, &filter) {
        Ok(_) => Ok(None),
        Err(CompileError::TooHeavy) => Ok(Some(Reason::HeavyFilter)),
        Err(CompileError::NoMemory) => Err(AllocError),
    }
}

// What is said of a file that gave no bytes.
fn unread_reason<'a>(file: &'a str, error: FileError) -> Result<Option<Reason<'a>>, AllocError> {
    match error {
        FileError::File => Ok(Some(Reason::Unreadable(file))),
        FileError::Memory => Err(AllocError),
    }
}

// What is wrong with a file that has a program as assembler text.
fn program_reason<'a, F: Files>(
    alloc: Global,
    file: &'a str,
    judged: Judged,
    files: &mut F,
) -> Result<Option<Reason<'a>>, AllocError> {
    if file == "-" {
        return Ok(None);
    }
    let text = match files.read(alloc, file) {
        Ok(text) => text,
        Err(error) => return unread_reason(file, error),
    };
    let program = match assemble_bytes(alloc, &text) {
        Ok(program) => program,
        Err(CodeError::NoMemory) => return Err(AllocError),
        Err(fault) => return Ok(Some(Reason::Code { file, fault })),
    };
    match judged {
        Judged::Text => Ok(None),
        Judged::Program => match verify(program) {
            Ok(_) => Ok(None),
            Err((VerifyError::NoMemory, _)) => Err(AllocError),
            Err((fault, _)) => Ok(Some(Reason::Program { file, fault })),
        },
    }
}

// What is wrong with a file that has a message as hexadecimal text, or a capture.
fn message_reason<'a, F: Files>(
    alloc: Global,
    file: &'a str,
    each: bool,
    files: &mut F,
) -> Result<Option<Reason<'a>>, AllocError> {
    if file == "-" {
        return Ok(None);
    }
    let beginning = match begin(alloc, file, files) {
        Ok(beginning) => beginning,
        Err(error) => return unread_reason(file, error),
    };
    if each || is_capture(&beginning.bytes) {
        return match capture_fault(alloc, files, beginning) {
            Ok(Some(fault)) => Ok(Some(Reason::Capture { file, fault })),
            Ok(None) => Ok(None),
            Err(error) => unread_reason(file, error),
        };
    }
    match beginning.read_rest(files) {
        Ok(text) => text_reason(alloc, file, &text),
        Err(error) => unread_reason(file, error),
    }
}

// The first bytes of a file, which is open then.
fn begin<F: Files>(alloc: Global, file: &str, files: &mut F) -> Result<Beginning, FileError> {
    files.open(file)?;
    Beginning::read(alloc, files)
}

/// What is wrong with a file that is no capture, or a faulty one, in a line for people.
pub fn capture_reason(
    alloc: Global,
    file: &str,
    fault: CaptureError,
) -> Result<String, AllocError> {
    Reason::Capture { file, fault }.to_string(alloc)
}

fn text_reason<'a>(
    alloc: Global,
    file: &'a str,
    text: &[u8],
) -> Result<Option<Reason<'a>>, AllocError> {
    match decode(alloc, text) {
        Ok(bytes) => match View::read(&bytes) {
            Ok(_) => Ok(None),
            Err(fault) => Ok(Some(Reason::Message { file, fault })),
        },
        Err(HexError::Memory) => Err(AllocError),
        Err(HexError::Hex) => match place_of_no_digit(text) {
            Some((line, column)) => Ok(Some(Reason::NoDigit { file, line, column })),
            None => Ok(Some(Reason::HalfByte(file))),
        },
    }
}

// The line and the column of the first byte that is neither a digit nor a blank.
fn place_of_no_digit(text: &[u8]) -> Option<(u64, u64)> {
    let mut line = 1u64;
    let mut column = 1u64;
    for byte in text {
        match *byte {
            b'\n' => {
                line = line.wrapping_add(1);
                column = 1;
            }
            b' ' | b'\t' | b'\r' => column = column.wrapping_add(1),
            byte if byte.is_ascii_hexdigit() => column = column.wrapping_add(1),
            _ => return Some((line, column)),
        }
    }
    None
}
