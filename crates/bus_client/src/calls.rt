// Calls of a bus's own methods.

use message_build::{BuildError, Builder};
use message_view::Kind;
use std::alloc::Global;

/// The bus's own name.
pub(crate) const BUS_NAME: &str = "org.freedesktop.DBus";

/// The interface of the bus's methods that the standard has.
const BUS_INTERFACE: &str = "org.freedesktop.DBus";

/// The interface of the bus's methods for programs.
const PROGRAM_INTERFACE: &str = "org.example.ProgramBus1";

/// The interface by which dbus-daemon tells what it has, which no standard has.
const STATS_INTERFACE: &str = "org.freedesktop.DBus.Debug.Stats";

/// The interface of the bus's methods for monitors.
const MONITORING_INTERFACE: &str = "org.freedesktop.DBus.Monitoring";

const BUS_PATH: &str = "/org/freedesktop/DBus";

/// The flags of BecomeMonitor, of which there are none yet.
const NO_FLAGS: u32 = 0;

/// A method of a bus with its arguments.
#[derive(Clone, Copy)]
pub(crate) enum Call<'a> {
    Hello,
    AddMatch(&'a str),
    /// The name whose owner is asked for.
    GetNameOwner(&'a str),
    ListNames,
    GetAllMatchRules,
    /// The rules of what the monitor gets; none means everything.
    BecomeMonitor(&'a [&'a str]),
    /// A program's instructions, eight bytes each.
    Attach(&'a [u8]),
    /// The same for images of an edition.
    AttachEdition(u32, &'a [u8]),
    /// A filter expression's text.
    AttachFilter(&'a str),
}

/// The bytes of an array of `(qyyu)` and what comes before them, at a place that is a multiple of 8.
fn program_body(alloc: Global, edition: Option<u32>, code: &[u8]) -> Result<Vec<u8>, BuildError> {
    let len = u32::try_from(code.len()).map_err(|_| BuildError::TooLarge)?;
    let mut body = Vec::new(alloc);
    match edition {
        Some(edition) => {
            body.extend_from_slice(&edition.to_le_bytes())?;
            body.extend_from_slice(&len.to_le_bytes())?;
        }
        None => {
            body.extend_from_slice(&len.to_le_bytes())?;
            body.extend_from_slice(&[0; 4])?;
        }
    }
    body.extend_from_slice(code)?;
    Ok(body)
}

impl<'a> Call<'a> {
    fn interface(self) -> &'static str {
        match self {
            Call::Hello | Call::AddMatch(_) | Call::GetNameOwner(_) | Call::ListNames =>
                BUS_INTERFACE,
            Call::GetAllMatchRules => STATS_INTERFACE,
            Call::BecomeMonitor(_) => MONITORING_INTERFACE,
            Call::Attach(_) | Call::AttachEdition(_, _) | Call::AttachFilter(_) =>
                PROGRAM_INTERFACE,
        }
    }

    fn member(self) -> &'static str {
        match self {
            Call::Hello => "Hello",
            Call::AddMatch(_) => "AddMatch",
            Call::GetNameOwner(_) => "GetNameOwner",
            Call::ListNames => "ListNames",
            Call::GetAllMatchRules => "GetAllMatchRules",
            Call::BecomeMonitor(_) => "BecomeMonitor",
            Call::Attach(_) => "Attach",
            Call::AttachEdition(_, _) => "AttachEdition",
            Call::AttachFilter(_) => "AttachFilter",
        }
    }

    /// Gives a builder the arguments.
    fn put_arguments(self, alloc: Global, builder: &mut Builder<'_>) -> Result<(), BuildError> {
        match self {
            Call::Hello | Call::ListNames | Call::GetAllMatchRules => Ok(()),
            Call::AddMatch(text) | Call::GetNameOwner(text) | Call::AttachFilter(text) =>
                builder.arg_str(text),
            Call::BecomeMonitor(rules) => {
                builder.arg_strs(rules)?;
                builder.arg_u32(NO_FLAGS)
            }
            Call::Attach(code) => {
                let body = program_body(alloc, None, code)?;
                builder.raw_body(b"a(qyyu)", &body)
            }
            Call::AttachEdition(edition, code) => {
                let body = program_body(alloc, Some(edition), code)?;
                builder.raw_body(b"ua(qyyu)", &body)
            }
        }
    }

    /// The message of the call.
    pub(crate) fn message(self, alloc: Global, serial: u32) -> Result<Vec<u8>, BuildError> {
        let mut builder = Builder::new(alloc, Kind::MethodCall, 0, serial);
        builder.path(BUS_PATH);
        builder.interface(self.interface());
        builder.member(self.member());
        builder.destination(BUS_NAME);
        self.put_arguments(alloc, &mut builder)?;
        builder.finish(alloc)
    }
}
