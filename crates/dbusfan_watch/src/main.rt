//! The program dbusfan_watch: what the system gives to the command `watch`.
#![tactic(auto)]

use command_line::{Fault, Output, Stream, System, Writer, args, fault_of, spread};
use std::alloc::Global;
use std::io;
use std::io::{IsTerminal, Lock};
use std::net::{Net, TcpListener, TcpStream};
use std::process::ExitCode;
use std::rt::Runtime;
use watch_command::Device;
pub use watch_command::watch;

fn main(rt: HostRuntime) -> ExitCode {
    let mut err = Output::new(Stream::new(rt.stderr().lock()));
    let device = if rt.stdout().is_terminal() {
        Device::Terminal
    } else {
        Device::Other
    };
    let status = match run(&rt, device, &mut err) {
        Ok(status) => status,
        Err(fault) => {
            err.put_fault(fault);
            fault.status()
        }
    };
    ExitCode::from(status)
}

/// Watches a bus as the words after the program's name ask for. An `Err` says that there are none to read.
fn run<R, E: Writer>(rt: &R, device: Device, err: &mut Output<E>) -> Result<u8, Fault>
where
    R: Runtime<A = Global> + Net<Listener = TcpListener, Stream = TcpStream>,
{
    let args = args(rt)?;
    let words: Vec<&str> = args
        .iter()
        .skip(1)
        .map(|arg| arg.as_str())
        .collect(rt.alloc())?;
    let words = spread(rt.alloc(), words.as_slice())?;
    let words = words.as_slice();
    let mut out = Output::new(Stream::new(io::writer(rt)));
    let status = watch(rt, device, words, &mut System::new(rt), &mut out, err);
    if status == Fault::Usage.status() {
        explain(rt.alloc(), words, err);
    }
    Ok(status)
}

/// Says what was wrong with the words, in a line for people after the one for programs, as far as memory allows.
fn explain<E: Writer>(alloc: Global, words: &[&str], err: &mut Output<E>) {
    let mut whole = Vec::new(alloc);
    if whole.push("watch").is_err() || whole.extend_from_slice(words).is_err() {
        return;
    }
    match fault_of(alloc, whole.as_slice()) {
        Ok(Some(reason)) => err.put_reason(alloc, reason.as_str()),
        Ok(None) => err.put_reason(
            alloc,
            "these words don't go together, or don't say which messages; see dbusfan watch --help",
        ),
        Err(_) => {}
    }
}
