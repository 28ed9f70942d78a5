// The command.

use crate::asking::{ask, compares_destinations};
use crate::calls::Calls;
use crate::connection_rules::connection_rules;
use crate::counts::Counts;
use crate::error::Fault;
use crate::form::{Form, TextForm};
use crate::live::show_messages;
use crate::options::Options;
use crate::owners::Owners;
use crate::plan::Plan;
use crate::reading::show_capture;
use crate::reasons::explain;
use crate::screen::Screen;
use crate::selection::Selection;
use crate::senders::Senders;
use crate::sink::Sink;
use crate::stamp::Stamp;
use crate::style::{Device, Style, columns};
use crate::top::Top;
use crate::words::Key;
use crate::zone::Zone;
use bus_client::{Address, Client, Timed, addresses_of, connect};
use command_line::{Files, Output, Stream, Writer, text_for};
use std::alloc::Global;
use std::fs;
use std::net::{Net, TcpListener, TcpStream};
use std::rt::{Clock, Env, Files as FileSystem};

/// The words that ask for this command's help.
const HELP: [&str; 2] = ["watch", "--help"];

/// The words that ask for its version.
const VERSION: [&str; 2] = ["watch", "--version"];

/// Connects to a bus and shows each message of it that is wanted, as a line or as a record of a capture, or how many each
/// of some rules takes; or does so with the messages of a capture. It answers the status that the program ends with: 0
/// after the count or the time that is wanted, and at the end of a capture, 2 where a rule or the program is refused, what
/// comes is no message or the file no capture, 3 for words that are no row of the command line, 4 where the bus can't be
/// reached, goes away or doesn't answer, or where a file fails, and 5 for want of memory. It waits for messages alone: an
/// answer has to come in time. Lines have colours where the device, which `out` writes to, is a terminal and the environment
/// doesn't ask for plain text.
pub fn watch<R, F: Files, O: Writer, E: Writer>(
    rt: &R,
    device: Device,
    words: &[&str],
    files: &mut F,
    out: &mut Output<O>,
    err: &mut Output<E>,
) -> u8
where
    R: AllocGlobal
        + Clock
        + Env
        + FileSystem
        + Input
        + Net<Listener = TcpListener, Stream = TcpStream>,
{
    match watch_words(rt, device, words, files, out, err) {
        Ok(()) => 0,
        Err(fault) => {
            let status = fault.tell(rt.alloc(), err);
            explain(rt.alloc(), &fault, words, files, err);
            status
        }
    }
}

fn watch_words<R, F: Files, O: Writer, E: Writer>(
    rt: &R,
    device: Device,
    words: &[&str],
    files: &mut F,
    out: &mut Output<O>,
    err: &mut Output<E>,
) -> Result<(), Fault>
where
    R: AllocGlobal
        + Clock
        + Env
        + FileSystem
        + Input
        + Net<Listener = TcpListener, Stream = TcpStream>,
{
    match words.first() {
        Some(&("--help" | "-h")) => return say_text(rt.alloc(), &HELP, out),
        Some(&("--version" | "-V")) => return say_text(rt.alloc(), &VERSION, out),
        _ => {}
    }
    let Some(options) = Options::read(rt.alloc(), words)? else {
        return Err(Fault::Tool(command_line::Fault::Usage));
    };
    let look = look_of(rt, device, &options);
    match (options.text_of(Key::Read), options.address()) {
        (Some(file), _) => watch_capture(rt, file, &options, look, files, out, err),
        (None, Some(address)) => watch_bus(rt, address, &options, look, files, out, err),
        (None, None) => Err(Fault::Tool(command_line::Fault::Usage)),
    }
}

/// Shows what a bus sends.
fn watch_bus<R, F: Files, O: Writer, E: Writer>(
    rt: &R,
    address: &str,
    options: &Options<'_>,
    look: Look,
    files: &mut F,
    out: &mut Output<O>,
    err: &mut Output<E>,
) -> Result<(), Fault>
where
    R: AllocGlobal + Clock + Env + FileSystem + Net<Listener = TcpListener, Stream = TcpStream>,
{
    let addresses = addresses_of(rt, address)?;
    let mut plan = Plan::read(rt.alloc(), options, files)?;
    let mut client = open(rt, &addresses)?;
    if let Some(name) = options.text_of(Key::Of) {
        let is_monitor = options.has(Key::Monitor);
        plan.counted = connection_rules(rt.alloc(), &mut client, name, is_monitor, err)?;
    }
    if plan.criteria.leaves_destinations() && !compares_destinations(&mut client)? {
        plan.criteria.compare_destinations();
    }
    let owners = ask(rt.alloc(), &mut client, options, &plan)?;
    let sink = open_sink(rt, options, look, &mut plan, out)?;
    let count = options.number_of(Key::Count);
    let why = options.has(Key::Why);
    let mut selection = Selection::new(sink, err, &plan.criteria, owners, count, why);
    selection.begin()?;
    let shown = show_messages(
        rt,
        &mut client,
        options.number_of(Key::Seconds),
        &mut selection,
    );
    let ended = selection.end(rt.alloc());
    shown?;
    ended
}

/// Shows what a capture has.
fn watch_capture<R, F: Files, O: Writer, E: Writer>(
    rt: &R,
    file: &str,
    options: &Options<'_>,
    look: Look,
    files: &mut F,
    out: &mut Output<O>,
    err: &mut Output<E>,
) -> Result<(), Fault>
where
    R: AllocGlobal + FileSystem + Input,
{
    let alloc = rt.alloc();
    let mut plan = Plan::read(alloc, options, files)?;
    let sink = open_sink(rt, options, look, &mut plan, out)?;
    let count = options.number_of(Key::Count);
    let why = options.has(Key::Why);
    let owners = Owners::new(alloc);
    let mut selection = Selection::new(sink, err, &plan.criteria, owners, count, why);
    selection.begin()?;
    let shown = if file == "-" {
        show_capture(alloc, &mut rt.reader(), &mut selection)
    } else {
        let mut file = fs::open(rt, file).map_err(|_| unreadable())?;
        show_capture(alloc, &mut file, &mut selection)
    };
    let ended = selection.end(alloc);
    shown?;
    ended
}

/// What takes the messages that are shown.
fn open_sink<'o, R, O: Writer>(
    rt: &R,
    options: &Options<'_>,
    look: Look,
    plan: &mut Plan<'_>,
    out: &'o mut Output<O>,
) -> Result<Sink<'o, O, Stream<R::File>>, Fault>
where
    R: AllocGlobal + FileSystem,
{
    let Look { form, screen } = look;
    if options.has(Key::Rules) || options.has(Key::Of) {
        let rules = std::mem::replace(&mut plan.counted, Vec::new(rt.alloc()));
        return Ok(Sink::Counts(out, Counts { rules, untaken: 0 }));
    }
    if options.has(Key::Calls)
        && let Form::Text(form) = form
    {
        let patience = options.number_of(Key::Patience);
        let slow = options.number_of(Key::Slow);
        let calls = Calls::new(rt.alloc(), form, patience, slow)?;
        return Ok(Sink::Calls(out, calls));
    }
    if options.is_summary() {
        let senders = Senders::new(rt.alloc());
        return Ok(match screen {
            Some(screen) => Sink::Top(out, Top::new(senders, screen)),
            None => Sink::Senders(out, senders),
        });
    }
    match options.text_of(Key::Write) {
        None => Ok(Sink::Lines(out, form)),
        Some("-") => Ok(Sink::Pcap(out)),
        Some(file) => {
            let file = fs::create(rt, file).map_err(|_| unreadable())?;
            Ok(Sink::PcapFile(Output::new(Stream::new(file))))
        }
    }
}

/// How messages are shown.
#[derive(Drop)]
struct Look {
    form: Form,
    /// Where a table is drawn as it changes, if one is.
    screen: Option<Screen>,
}

/// How messages are shown.
fn look_of<R: Env + AllocGlobal + FileSystem>(
    rt: &R,
    device: Device,
    options: &Options<'_>,
) -> Look {
    Look {
        form: form_of(rt, device, options),
        screen: if options.has(Key::Top) {
            Screen::of(rt, device)
        } else {
            None
        },
    }
}

/// How messages are lines.
fn form_of<R: Env + AllocGlobal + FileSystem>(
    rt: &R,
    device: Device,
    options: &Options<'_>,
) -> Form {
    if options.has(Key::Hex) {
        Form::Hex
    } else if options.has(Key::Json) {
        Form::Json
    } else {
        Form::Text(text_form(rt, device, options))
    }
}

/// How messages and calls are lines for people.
fn text_form<R: Env + AllocGlobal + FileSystem>(
    rt: &R,
    device: Device,
    options: &Options<'_>,
) -> TextForm {
    let is_full = options.has(Key::Full);
    TextForm {
        stamp: stamp_by(rt, options),
        has_names: options.has(Key::Names),
        style: Style::of(rt, device),
        width: match device {
            Device::Terminal if !is_full => Some(columns(rt)),
            Device::Terminal | Device::Other => None,
        },
        is_full,
    }
}

/// What stands before lines.
fn stamp_by<R: Env + AllocGlobal + FileSystem>(rt: &R, options: &Options<'_>) -> Stamp {
    if options.has(Key::Time) {
        Stamp::Seconds
    } else if options.has(Key::Clock) {
        Stamp::Clock(Zone::read(rt))
    } else {
        Stamp::Nothing
    }
}

fn unreadable() -> Fault {
    Fault::Tool(command_line::Fault::File)
}

// Says the text that these words ask for.
fn say_text<O: Writer>(
    alloc: Global,
    asked: &'static [&'static str],
    out: &mut Output<O>,
) -> Result<(), Fault> {
    let Some(text) = text_for(alloc, asked)? else {
        return Err(Fault::Tool(command_line::Fault::Usage));
    };
    out.put(text.as_bytes());
    if out.has_failed {
        return Err(Fault::Tool(command_line::Fault::File));
    }
    Ok(())
}

/// A client of the first of some addresses where a bus listens.
fn open<'a, R>(rt: &'a R, addresses: &[Address]) -> Result<Client<Timed<'a, R>>, Fault>
where
    R: AllocGlobal + Clock + Net<Listener = TcpListener, Stream = TcpStream>,
{
    let link = connect(rt, addresses).ok_or(Fault::Socket)?;
    let stream = Timed::new(rt, link).map_err(|_| Fault::Socket)?;
    let transport = stream.transport();
    Ok(Client::open(rt.alloc(), stream, transport)?)
}
