// The server's threads.

ghost use Rattle.std.specs.Prelude.{◌≡◌};

use crate::endpoint::Endpoint;
use crate::limits::Limits;
use crate::note::Verbosity;
use crate::notes::Log;
use crate::shared::Server;
use crate::worker::{accept_and_work, work};
use crate::worker_setup::WorkerSetup;
use members::SocketMailbox;
use sessions::{BusBrand, Identity, IndexKey, Opened};
use std::alloc::Global;
use std::fs::{File, Files};
use std::io::ErrorKind;
use std::marker::Brand;
use std::net::Net;
use std::random::RandomSource;
use std::sync::Wait;
use std::thread::{Builder, Threads};
use std::time::Clock;
use std::{io, thread};

/// What a server begins with.
#[derive(Drop)]
pub struct Start {
    pub key: IndexKey,
    pub identity: Identity,
    pub limits: Limits,
    /// After how many connections to end, if ever.
    pub count: Option<u64>,
    /// Whether to end once standard input is closed at its other end, which `can_watch_input` says that a bus can be told.
    pub until_closed: bool,
    /// What is written to the log.
    pub verbosity: Verbosity,
}

/// Serves as many connections as are asked for, or without end, on a bus of their own, whichever of the endpoints they
/// come by. Where that is asked for, the end of standard input ends them all. It answers once all of them have ended, or where
/// memory or threads are refused at the start.
pub fn serve<R, L>(
    rt: &R,
    alloc: Global,
    start: Start,
    endpoints: &[Endpoint],
    log: &L,
) -> io::Result<()>
where
    R: Files<File = File> + RandomSource + Threads + Wait + Clock + Net + Sync,
    L: Log + Sync,
{
    let opened = Opened::<SocketMailbox>::new();
    serve_on::<Brand, R, L>(rt, alloc, opened, start, endpoints, log)
}

fn serve_on<B: BusBrand + Send + Sync, R, L>(
    rt: &R,
    alloc: Global,
    opened: Opened<SocketMailbox>,
    start: Start,
    endpoints: &[Endpoint],
    log: &L,
) -> io::Result<()>
where
    R: Files<File = File> + RandomSource + Threads + Wait + Clock + Net + Sync,
    L: Log + Sync,
    requires { opened ≡ B.book }
{
    let server = Server::<B, &R>::new(rt, alloc, opened, &start)?;
    run(rt, alloc, &server, endpoints, &start, log)
}

/// Starts the workers and, where notes are wanted, the thread that writes them; is the first of the workers itself,
/// which accepts, and waits for all of them to end; there is one more where it serves nobody itself. Where there is no
/// thread for the log, or for a worker, the bus goes on without it.
fn run<B: BusBrand + Send + Sync, R, L>(
    rt: &R,
    alloc: Global,
    server: &Server<B, &R>,
    endpoints: &[Endpoint],
    start: &Start,
    log: &L,
) -> io::Result<()>
where
    R: Files<File = File> + RandomSource + Threads + Wait + Clock + Net + Sync,
    L: Log + Sync,
{
    let first = WorkerSetup::new(rt, alloc, start.until_closed)?;
    let acceptor = first.acceptor(rt, alloc, endpoints, start.count)?;
    let spare = usize::from(acceptor.may_wait());
    let mut handles = Vec::with_capacity(alloc, server.limits.workers)?;
    handles.push(first.handle()?)?;
    thread::scope(thread::scope_env(), rt, |scope| {
        if server.notes.are_wanted() {
            let writer = move || server.notes.write_all(rt, log);
            let _ = Builder::new().spawn_scoped(scope, writer);
        }
        for _ in 1..server.limits.workers.saturating_add(spare) {
            let Ok(setup) = WorkerSetup::new(rt, alloc, start.until_closed) else {
                continue;
            };
            let Ok(handle) = setup.handle() else {
                continue;
            };
            server.notes.begin(rt);
            let worker = move || work(rt, alloc, server, setup);
            if Builder::new().spawn_scoped(scope, worker).is_err() {
                server.notes.finish(rt);
            } else if let Err(refused) = handles.push(handle) {
                refused.value.finish();
            }
        }
        accept_and_work(rt, alloc, server, first, acceptor, handles.as_slice());
    });
    Ok(())
}
