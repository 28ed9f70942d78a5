// What `watch` is refused for.

use crate::expression::{ExpressionError, FilterFault};
use bus_client::{AddressError, ClientError, Refusal};
use captures::CaptureError;
use command_line::{Output, Writer};
use message_value::MsgError;
use std::alloc::{AllocError, AllocFailed, Global};
use value_text::{Line, TextError};

/// The names of errors by which a bus says that it has no method for programs.
const NO_METHOD: [&str; 3] = [
    "org.freedesktop.DBus.Error.UnknownMethod",
    "org.freedesktop.DBus.Error.UnknownInterface",
    "org.freedesktop.DBus.Error.UnknownObject",
];

/// The name of the error by which a bus says that it isn't allowed.
const ACCESS_DENIED: &str = "org.freedesktop.DBus.Error.AccessDenied";

/// What the command is refused for.
#[derive(Drop)]
pub enum Fault {
    /// What any command is refused for.
    Tool(command_line::Fault),
    /// The file is no capture of D-Bus messages.
    Capture(CaptureError),
    /// The filter expression is none, or can't be run.
    Filter(FilterFault),
    /// No bus is at the address, it has gone, or it doesn't answer.
    Socket,
    /// The bus lets nobody in who doesn't say who it is.
    Auth,
    /// The bus refuses the rule or the program by this error.
    Refused(Refusal),
    /// The bus knows no programs, as it says by this error.
    NoPrograms(Refusal),
    /// The bus refuses to be monitored by this error.
    NoMonitor(Refusal),
    /// The bus refuses by this error to tell which rules a connection has.
    NoMatchRules(Refusal),
    /// No connection has this name.
    NoConnection(String),
    /// The connection of this name has no match rules.
    WithoutRules(String),
}

impl Fault {
    ghost use Rattle.std.specs.Prelude.{◌≡◌};
    ghost use Rattle.watch_command.specs.Errors.{status_of};

    /// The status that the program ends with.
    pub fn status(&self) -> u8
        ensures { result ≡ status_of self.now }
    {
        match self {
            Fault::Tool(fault) => fault.status(),
            Fault::Socket | Fault::Auth => 4,
            Fault::Capture(_)
            | Fault::Filter(_)
            | Fault::Refused(_)
            | Fault::NoPrograms(_)
            | Fault::NoMonitor(_)
            | Fault::NoMatchRules(_)
            | Fault::NoConnection(_)
            | Fault::WithoutRules(_) => 2,
        }
    }

    /// What a call for a program was refused for.
    pub(crate) fn of_attaching(error: ClientError) -> Fault {
        match error {
            ClientError::Answered(error) => Fault::of_program(error),
            other => Fault::from(other),
        }
    }

    /// What a call to become a monitor was refused for.
    pub(crate) fn of_monitoring(error: ClientError) -> Fault {
        match error {
            ClientError::Answered(error) => Fault::NoMonitor(error),
            other => Fault::from(other),
        }
    }

    /// What a call for the rules of connections was refused for.
    pub(crate) fn of_match_rules(error: ClientError) -> Fault {
        match error {
            ClientError::Answered(error) => Fault::NoMatchRules(error),
            other => Fault::from(other),
        }
    }

    /// What a bus says of a program by this error.
    fn of_program(error: Refusal) -> Fault {
        if says_no_method(error.name.as_str()) {
            Fault::NoPrograms(error)
        } else {
            Fault::Refused(error)
        }
    }

    /// Writes the fault's line to standard error, and answers the status.
    pub(crate) fn tell<E: Writer>(&self, alloc: Global, err: &mut Output<E>) -> u8 {
        match self {
            Fault::Tool(fault) => err.put_fault(*fault),
            Fault::Capture(fault) => put_capture(alloc, *fault, err),
            Fault::Filter(fault) => put_filter(alloc, fault, err),
            Fault::Socket => err.put(b"dbusfan: socket\n"),
            Fault::Auth => err.put(b"dbusfan: auth\n"),
            Fault::Refused(error) => put_refusal(alloc, error, err),
            Fault::NoPrograms(error) => {
                let more = ": this bus can't attach programs";
                put_sentence(alloc, "error ", error.name.as_str(), more, err);
            }
            Fault::NoMonitor(error) => {
                put_refusal(alloc, error, err);
                err.put(monitor_help(error.name.as_str()).as_bytes());
            }
            Fault::NoMatchRules(error) => {
                put_refusal(alloc, error, err);
                err.put(match_rules_help(error.name.as_str()).as_bytes());
            }
            Fault::NoConnection(name) => {
                put_sentence(alloc, "no connection has the name ", name.as_str(), "", err);
            }
            Fault::WithoutRules(name) => {
                put_sentence(alloc, "", name.as_str(), " has no match rules", err);
            }
        }
        self.status()
    }
}

/// Whether a bus says by an error of this name that it has no method for programs.
fn says_no_method(name: &str) -> bool {
    NO_METHOD.iter().any(|known| *known == name)
}

/// What helps where a bus refuses to be monitored by an error of this name.
fn monitor_help(name: &str) -> &'static str {
    if says_no_method(name) {
        "dbusfan: this bus has no monitors: without --monitor its broadcasts are shown\n"
    } else if name == ACCESS_DENIED {
        "dbusfan: only root and the bus's user may monitor; a dbusfan bus knows its user only where its socket's folder has mode 0700\n"
    } else {
        "dbusfan: without --monitor the broadcasts of this bus are shown\n"
    }
}

/// What helps where a bus refuses by an error of this name to tell which rules a connection has.
fn match_rules_help(name: &str) -> &'static str {
    if name == ACCESS_DENIED {
        "dbusfan: only root may ask for others' rules; on a dbusfan bus its user may, where its socket's folder has mode 0700\n"
    } else {
        "dbusfan: this bus doesn't tell which rules a connection has\n"
    }
}

/// Writes a line that has a name.
fn put_sentence<E: Writer>(
    alloc: Global,
    before: &str,
    name: &str,
    after: &str,
    err: &mut Output<E>,
) {
    match format!(in alloc; "dbusfan: {before}{name}{after}\n") {
        Ok(line) => err.put(line.as_bytes()),
        Err(_) => err.put_fault(command_line::Fault::Memory),
    }
}

/// Writes the line of an error that the bus answered.
fn put_refusal<E: Writer>(alloc: Global, error: &Refusal, err: &mut Output<E>) {
    match refusal_line(alloc, error) {
        Ok(line) => err.put(&line),
        Err(_) => err.put_fault(command_line::Fault::Memory),
    }
}

/// The error's name, and what the bus says of it.
fn refusal_line(alloc: Global, error: &Refusal) -> Result<Vec<u8>, AllocError> {
    let mut line = Line::new(alloc);
    line.put(b"dbusfan: error")?;
    line.put_word(error.name.as_bytes())?;
    if let Some(text) = &error.text {
        line.put_quoted(text.as_bytes())?;
    }
    line.end()
}

/// Writes the line of a capture's fault.
fn put_capture<E: Writer>(alloc: Global, fault: CaptureError, err: &mut Output<E>) {
    match format!(in alloc; "dbusfan: capture {fault}\n") {
        Ok(line) => err.put(line.as_bytes()),
        Err(_) => err.put_fault(command_line::Fault::Memory),
    }
}

/// Writes the line of a filter expression's fault.
fn put_filter<E: Writer>(alloc: Global, fault: &FilterFault, err: &mut Output<E>) {
    match format!(in alloc; "dbusfan: filter {fault}\n") {
        Ok(line) => err.put(line.as_bytes()),
        Err(_) => err.put_fault(command_line::Fault::Memory),
    }
}

impl From<ExpressionError> for Fault {
    fn from(error: ExpressionError) -> Fault {
        match error {
            ExpressionError::Filter(fault) => Fault::Filter(fault),
            ExpressionError::NoMemory => Fault::Tool(command_line::Fault::Memory),
        }
    }
}

impl From<CaptureError> for Fault {
    fn from(fault: CaptureError) -> Fault {
        Fault::Capture(fault)
    }
}

impl From<MsgError> for Fault {
    fn from(fault: MsgError) -> Fault {
        Fault::Tool(command_line::Fault::Message(fault))
    }
}

impl From<command_line::Fault> for Fault {
    fn from(fault: command_line::Fault) -> Fault {
        Fault::Tool(fault)
    }
}

impl From<AllocError> for Fault {
    fn from(_refused: AllocError) -> Fault {
        Fault::Tool(command_line::Fault::Memory)
    }
}

impl<T: Drop> From<AllocFailed<T>> for Fault {
    fn from(_refused: AllocFailed<T>) -> Fault {
        Fault::Tool(command_line::Fault::Memory)
    }
}

impl From<AddressError> for Fault {
    fn from(error: AddressError) -> Fault {
        match error {
            AddressError::Form => Fault::Tool(command_line::Fault::Usage),
            AddressError::Nowhere => Fault::Socket,
            AddressError::NoMemory => Fault::Tool(command_line::Fault::Memory),
        }
    }
}

impl From<ClientError> for Fault {
    fn from(error: ClientError) -> Fault {
        match error {
            ClientError::Socket => Fault::Socket,
            ClientError::Auth => Fault::Auth,
            ClientError::Message(fault) => Fault::Tool(command_line::Fault::Message(fault)),
            ClientError::Answered(error) => Fault::Refused(error),
            ClientError::NoMemory => Fault::Tool(command_line::Fault::Memory),
        }
    }
}

impl From<TextError> for Fault {
    fn from(error: TextError) -> Fault {
        match error {
            TextError::Message(fault) => Fault::Tool(command_line::Fault::Message(fault)),
            TextError::NoMemory => Fault::Tool(command_line::Fault::Memory),
        }
    }
}
