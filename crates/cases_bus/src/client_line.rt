// The lines of cases of sessions.

use crate::message::{bus_call, message};
use crate::received::Wanted;
use crate::serving::Serving;
use crate::shares::{read_capacity, read_shares};
use case_files::{LineError, digits};
use sessions::{Capacity, Shares};
use std::alloc::Global;

/// What a client says before its messages.
const TALK: &[u8] = b"\0AUTH EXTERNAL\r\nDATA\r\nBEGIN\r\n";

/// Where something happens.
#[derive(Drop)]
pub(crate) enum Who {
    /// At the bus, for the clients that come later.
    Bus,
    /// At the client whose session reads and writes by itself, as one thread serves it.
    Served,
    /// At the client of this number, from 1 in the order of their first lines.
    Client(usize),
}

/// A line of a case: what happens where.
#[derive(Drop)]
pub(crate) struct ClientLine<'a> {
    pub(crate) who: Who,
    pub(crate) action: Action<'a>,
}

/// What happens at a client, or at the bus.
#[derive(Drop)]
pub(crate) enum Action<'a> {
    /// It sends these bytes.
    Send(Vec<u8>),
    /// From here on its bytes come in pieces of this length.
    Cut(usize),
    /// The client says its talk and Hello. What it got is forgotten.
    Enter(Vec<u8>),
    /// What it got until here is forgotten.
    Forget,
    /// From here on it may have so much of the bus.
    Share(Shares),
    /// From here on all together may have so much.
    Limit(Capacity),
    /// It has this machine's id.
    Machine([u8; 32]),
    /// Each client runs as the user of this number.
    User(u32),
    /// What it got next.
    Get(Wanted<'a>),
    /// The connection that its last message asked the bus about, if it was about any.
    Ask(Option<u64>),
    /// Its bytes end here, and this is how its session ends.
    End(&'a str),
    /// All that it sends is served now.
    Serve(Serving),
}

impl<'a> ClientLine<'a> {
    /// What a line says.
    ///
    /// # Errors
    ///
    /// `Unreadable` and `NoMemory`.
    pub(crate) fn read(alloc: Global, line: &'a str) -> Result<ClientLine<'a>, LineError> {
        let (who, words) = line.split_once(' ').ok_or(LineError::Unreadable)?;
        let (verb, rest) = words.split_once(' ').unwrap_or((words, ""));
        Ok(ClientLine {
            who: Who::read(who)?,
            action: Action::read(alloc, verb, rest)?,
        })
    }
}

impl Who {
    fn read(word: &str) -> Result<Who, LineError> {
        if word == "bus" {
            return Ok(Who::Bus);
        }
        if word == "served" {
            return Ok(Who::Served);
        }
        Ok(Who::Client(word.parse::<usize>()?))
    }
}

impl<'a> Action<'a> {
    fn read(alloc: Global, verb: &str, rest: &'a str) -> Result<Action<'a>, LineError> {
        match verb {
            "says" | "sends" | "repeats" | "calls" | "posts" => {
                Ok(Action::Send(send_event(alloc, verb, rest)?))
            }
            "gets" | "hears" | "reads" => Ok(Action::Get(wanted_event(alloc, verb, rest)?)),
            "asks" => Ok(Action::Ask(subject(rest)?)),
            "cuts" => Ok(Action::Cut(rest.parse::<usize>()?)),
            "shares" => Ok(Action::Share(read_shares(rest)?)),
            "limits" => Ok(Action::Limit(read_capacity(rest)?)),
            "enters" => Ok(Action::Enter(entry(alloc)?)),
            "forgets" => Ok(Action::Forget),
            "machine" => Ok(Action::Machine(machine_id(rest)?)),
            "user" => Ok(Action::User(rest.parse::<u32>()?)),
            "ends" => Ok(Action::End(rest)),
            "runs" => Ok(Action::Serve(Serving::read(rest)?)),
            _ => Err(LineError::Unreadable),
        }
    }
}

/// The bytes that a line sends.
fn send_event(alloc: Global, verb: &str, rest: &str) -> Result<Vec<u8>, LineError> {
    match verb {
        "says" => line_bytes(alloc, rest),
        "sends" => digits(alloc, rest),
        "repeats" => repeat_bytes(alloc, rest),
        "calls" => bus_call(alloc, rest),
        _ => message(alloc, rest),
    }
}

/// The number of a connection, if the word is one.
fn subject(word: &str) -> Result<Option<u64>, LineError> {
    match word {
        "nobody" => Ok(None),
        _ => Ok(Some(word.parse::<u64>()?)),
    }
}

fn wanted_event<'a>(alloc: Global, verb: &str, rest: &'a str) -> Result<Wanted<'a>, LineError> {
    match (verb, rest) {
        ("gets", "nothing") => Ok(Wanted::Nothing),
        ("gets", words) => Ok(Wanted::Bytes(digits(alloc, words)?)),
        ("hears", words) => Ok(Wanted::Bytes(line_bytes(alloc, words)?)),
        (_, words) => Ok(Wanted::Line(words)),
    }
}

/// A line of the talk.
fn line_bytes(alloc: Global, words: &str) -> Result<Vec<u8>, LineError> {
    let mut bytes = words.as_bytes().to_vec(alloc)?;
    bytes.extend_from_slice(b"\r\n")?;
    Ok(bytes)
}

/// `N DIGITS`: these bytes N times.
fn repeat_bytes(alloc: Global, words: &str) -> Result<Vec<u8>, LineError> {
    let (count, words) = words.split_once(' ').ok_or(LineError::Unreadable)?;
    let once = digits(alloc, words)?;
    let mut bytes = Vec::new(alloc);
    for _ in 0..count.parse::<u32>()? {
        bytes.extend_from_slice(once.as_slice())?;
    }
    Ok(bytes)
}

/// The talk, and Hello with serial 1.
fn entry(alloc: Global) -> Result<Vec<u8>, LineError> {
    let mut bytes = TALK.to_vec(alloc)?;
    bytes.extend_from_slice(bus_call(alloc, "1 Hello")?.as_slice())?;
    Ok(bytes)
}

fn machine_id(digits: &str) -> Result<[u8; 32], LineError> {
    let mut id = [0; 32];
    if digits.len() != id.len() {
        return Err(LineError::Unreadable);
    }
    id.copy_from_slice(digits.as_bytes());
    Ok(id)
}
