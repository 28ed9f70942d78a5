// The command `serve`.

ghost use Rattle.serve_command.specs.Status.{IsStatus};

use crate::binding::{bind_all, only_user};
use crate::error::Refusal;
use crate::guid::Guid;
use crate::listening::{announce, announcement_of, say};
use crate::log::Lines;
use crate::machine::machine_id;
use crate::options::Options;
use crate::target::Target;
use command_line::{Output, Writer, text_for};
use server::{Endpoint, Identity, IndexKey, Start, can_watch_input};
use std::alloc::Global;
use std::fs::{File, Files};
use std::net::{Net, TcpListener, TcpStream};
use std::random::RandomSource;
use std::rt::Env;
use std::sync::Wait;
use std::thread;
use std::thread::Threads;
use std::time::Clock;

/// The words that ask for this command's help.
const HELP: [&str; 2] = ["serve", "--help"];

/// The words that ask for its version.
const VERSION: [&str; 2] = ["serve", "--version"];

/// Serves a bus as the words after `serve` ask for, and answers the status that the program ends with: 0 once as many
/// connections as they name were accepted and have ended, or standard input was closed where they ask for that, 3 for words
/// that are no such options, 4 where the address can't be listened at, `out` can't be written or standard input can't be
/// watched, 5 for want of memory. The line that says where it listens is written and flushed before the first accept.
pub fn serve<R, O: Writer, E: Writer + Send>(
    rt: &R,
    alloc: Global,
    words: &[&str],
    out: &mut Output<O>,
    err: &mut Output<E>,
) -> u8
where
    R: Files<File = File>
        + Env
        + Net<Listener = TcpListener, Stream = TcpStream>
        + Threads
        + Wait
        + Clock
        + RandomSource
        + Sync
        + Alloc,
    ensures { IsStatus result }
{
    match serve_words(rt, alloc, words, out, err) {
        Ok(()) => 0,
        Err(refusal) => refusal.tell(alloc, err),
    }
}

fn serve_words<R, O: Writer, E: Writer + Send>(
    rt: &R,
    alloc: Global,
    words: &[&str],
    out: &mut Output<O>,
    err: &mut Output<E>,
) -> Result<(), Refusal>
where
    R: Files<File = File>
        + Env
        + Net<Listener = TcpListener, Stream = TcpStream>
        + Threads
        + Wait
        + Clock
        + RandomSource
        + Sync
        + Alloc,
{
    if has_one_of(words, "--help", "-h") {
        return say_text(alloc, &HELP, out);
    }
    if has_one_of(words, "--version", "-V") {
        return say_text(alloc, &VERSION, out);
    }
    match Options::read(words) {
        Ok(options) => serve_as_asked(rt, alloc, options, out, err),
        Err(fault) => Err(Refusal::of_words(alloc, fault)),
    }
}

fn has_one_of(words: &[&str], long: &str, short: &str) -> bool {
    words.iter().any(|word| *word == long || *word == short)
}

// Says the text that these words ask for.
fn say_text<O: Writer>(
    alloc: Global,
    asked: &'static [&'static str],
    out: &mut Output<O>,
) -> Result<(), Refusal> {
    match text_for(alloc, asked) {
        Ok(Some(text)) => say(text.as_bytes(), out),
        Ok(None) => Err(Refusal::no_help()),
        Err(_) => Err(Refusal::memory()),
    }
}

/// Serves at the addresses that are asked for, or at the usual place.
fn serve_as_asked<R, O: Writer, E: Writer + Send>(
    rt: &R,
    alloc: Global,
    options: Options<'_>,
    out: &mut Output<O>,
    err: &mut Output<E>,
) -> Result<(), Refusal>
where
    R: Files<File = File>
        + Env
        + Net<Listener = TcpListener, Stream = TcpStream>
        + Threads
        + Wait
        + Clock
        + RandomSource
        + Sync
        + Alloc,
{
    if options.until_closed && !can_watch_input(rt) {
        return Err(Refusal::no_input_to_watch());
    }
    let targets = Target::all(rt, alloc, &options)?;
    let served = open_and_serve(rt, alloc, options, targets.as_slice(), out, err);
    for target in targets.iter() {
        target.remove(rt);
    }
    served
}

fn open_and_serve<R, O: Writer, E: Writer + Send>(
    rt: &R,
    alloc: Global,
    options: Options<'_>,
    targets: &[Target<'_>],
    out: &mut Output<O>,
    err: &mut Output<E>,
) -> Result<(), Refusal>
where
    R: Files<File = File>
        + Env
        + Net<Listener = TcpListener, Stream = TcpStream>
        + Threads
        + Wait
        + Clock
        + RandomSource
        + Sync
        + Alloc,
{
    let guid = guid_of(rt, options)?;
    let mut endpoints = Vec::new(alloc);
    let served = match bind_all(rt, alloc, options, targets, &mut endpoints) {
        Ok(()) => announce_and_serve(rt, alloc, options, targets, &endpoints, guid, out, err),
        Err(refusal) => Err(refusal),
    };
    for endpoint in endpoints {
        endpoint.listener.close(rt);
    }
    served
}

fn announce_and_serve<R, O: Writer, E: Writer + Send>(
    rt: &R,
    alloc: Global,
    options: Options<'_>,
    targets: &[Target<'_>],
    endpoints: &[Endpoint],
    guid: Guid,
    out: &mut Output<O>,
    err: &mut Output<E>,
) -> Result<(), Refusal>
where
    R: Files<File = File>
        + Env
        + Net<Listener = TcpListener, Stream = TcpStream>
        + Threads
        + Wait
        + Clock
        + RandomSource
        + Sync
        + Alloc,
{
    let text = announcement_of(alloc, options.announcement, targets, endpoints, guid)?;
    announce(rt, alloc, options.announcement, text.as_bytes(), out)?;
    serve_at(rt, alloc, options, guid, endpoints, err)
}

/// The id that is asked for, or a new one.
fn guid_of<R: RandomSource>(rt: &R, options: Options<'_>) -> Result<Guid, Refusal> {
    match options.guid {
        Some(guid) => Ok(guid),
        None => Guid::random(rt).map_err(|_| Refusal::no_random()),
    }
}

fn serve_at<R, E: Writer + Send>(
    rt: &R,
    alloc: Global,
    options: Options<'_>,
    guid: Guid,
    endpoints: &[Endpoint],
    err: &mut Output<E>,
) -> Result<(), Refusal>
where
    R: Files<File = File>
        + Env
        + Net<Listener = TcpListener, Stream = TcpStream>
        + Threads
        + Wait
        + Clock
        + RandomSource
        + Sync
        + Alloc,
{
    let key = index_key(rt)?;
    let digits = guid.digits;
    let identity = Identity {
        guid: digits,
        machine_id: machine_id(rt),
        user: only_user(rt, endpoints),
    };
    let workers = thread::available_parallelism(rt)
        .map(|count| count.get())
        .unwrap_or(1);
    let start = Start {
        key,
        identity,
        limits: options.limits.with_workers(workers),
        count: options.connections.map(u64::from),
        until_closed: options.until_closed,
        verbosity: options.verbosity,
    };
    let log = Lines::new(alloc, err);
    match server::serve(rt, alloc, start, endpoints, &log) {
        Ok(()) => Ok(()),
        Err(_) => Err(Refusal::no_thread()),
    }
}

/// A key that clients don't know, so that none can have many entries stand in one place of the index.
fn index_key<R: RandomSource>(rt: &R) -> Result<IndexKey, Refusal> {
    let mut first = [0; 8];
    let mut second = [0; 8];
    if rt.fill_bytes(&mut first).is_err() || rt.fill_bytes(&mut second).is_err() {
        return Err(Refusal::no_random());
    }
    Ok(IndexKey {
        first: u64::from_ne_bytes(first),
        second: u64::from_ne_bytes(second),
    })
}
