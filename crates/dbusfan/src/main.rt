//! The program dbusfan: what the system gives to the commands that filter messages, and help for all commands.
#![tactic(auto)]

use command_line::{Fault, Files, Output, Stream, System, Writer, args, spread};
use dbusfan_tool::reason_for;
pub use dbusfan_tool::tool;
use std::alloc::Global;
use std::io;
use std::io::{IsTerminal, Lock};
use std::process::ExitCode;
use std::rt::Runtime;

fn main(rt: HostRuntime) -> ExitCode {
    let mut err = Output::new(Stream::new(rt.stderr().lock()));
    let status = match run(&rt, rt.stderr().is_terminal(), &mut err) {
        Ok(status) => status,
        Err(fault) => {
            err.put_fault(fault);
            fault.status()
        }
    };
    ExitCode::from(status)
}

/// Does what the words after the program's name ask for. An `Err` says that there are none to read. How much of a long file
/// has been read is said on standard error if that is a terminal.
fn run<R: Runtime<A = Global>, E: Writer>(
    rt: &R,
    is_terminal: bool,
    err: &mut Output<E>,
) -> Result<u8, Fault> {
    let args = args(rt)?;
    let words: Vec<&str> = args
        .iter()
        .skip(1)
        .map(|arg| arg.as_str())
        .collect(rt.alloc())?;
    let words = spread(rt.alloc(), words.as_slice())?;
    let words = words.as_slice();
    let mut out = Output::new(Stream::new(io::writer(rt)));
    let mut system = System::with_progress(rt, is_terminal);
    let status = tool(rt.alloc(), words, &mut system, &mut out, err);
    if status > 1 {
        explain(rt.alloc(), status, words, &mut System::new(rt), err);
    }
    Ok(status)
}

/// Says what was wrong, in a line for people after the one for programs, as far as memory allows.
fn explain<'a, F: Files, E: Writer>(
    alloc: Global,
    status: u8,
    words: &'a [&'a str],
    files: &mut F,
    err: &mut Output<E>,
) {
    match reason_for(alloc, words, files) {
        Ok(Some(reason)) => err.put_reason(alloc, reason.as_str()),
        Ok(None) if status == Fault::Usage.status() => {
            err.put_reason(alloc, "these words don't go together; see dbusfan --help");
        }
        _ => {}
    }
}
