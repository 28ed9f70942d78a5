//! The program dbusfan_serve: what the system gives to the command `serve`.
#![tactic(auto)]

ghost use Rattle.std.specs.Prelude.{IfOk};
ghost use Rattle.serve_command.specs.Status.{IsStatus};

use command_line::{Fault, Output, Stream, Writer, args};
pub use serve_command::serve;
use std::alloc::Global;
use std::fs::{File, Files};
use std::io;
use std::io::Lock;
use std::net::{Net, TcpListener, TcpStream};
use std::process::ExitCode;
use std::random::RandomSource;
use std::rt::Runtime;
use std::sync::Wait;
use std::thread::Threads;

fn main(rt: HostRuntime) -> ExitCode {
    let mut err = Output::new(Stream::new(rt.stderr().lock()));
    let status = match run(&rt, &mut err) {
        Ok(status) => status,
        Err(fault) => {
            err.put_fault(fault);
            fault.status()
        }
    };
    ExitCode::from(status)
}

/// Serves a bus as the words after the program's name ask for. An `Err` says that there are none to read.
fn run<R, E: Writer + Send>(rt: &R, err: &mut Output<E>) -> Result<u8, Fault>
where
    R: Runtime<A = Global>
        + Files<File = File>
        + Net<Listener = TcpListener, Stream = TcpStream>
        + Threads
        + Wait
        + RandomSource
        + Sync,
    ensures { IfOk result (λ status. IsStatus status) }
{
    let args = args(rt)?;
    let words: Vec<&str> = args
        .iter()
        .skip(1)
        .map(|arg| arg.as_str())
        .collect(rt.alloc())?;
    let mut out = Output::new(Stream::new(io::writer(rt)));
    Ok(serve(rt, rt.alloc(), words.as_slice(), &mut out, err))
}
