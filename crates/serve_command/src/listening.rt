// Listening, and the lines that say where.

use crate::error::Refusal;
use crate::guid::Guid;
use crate::options::Announcement;
use crate::reasons::reason_of_address;
use crate::target::Target;
use command_line::{Output, Writer};
use endpoints::{Address, Listener, respell};
use os::FromRawFd;
use server::Endpoint;
use std::alloc::Global;
use std::fs::{File, Files, OpenOptions};
use std::io;
use std::io::Write;
use std::net::{Net, TcpListener, TcpStream};
use std::os::fd::OwnedFd;

/// Listens at an address.
pub(crate) fn bind<R>(rt: &R, alloc: Global, address: Address<'_>) -> Result<Listener, Refusal>
where
    R: Files<File = File> + Net<Listener = TcpListener, Stream = TcpStream>,
{
    match Listener::bind(rt, alloc, address) {
        Ok(listener) => Ok(listener),
        Err(error) => {
            let reason = reason_of_address(rt, alloc, address, &error);
            Err(Refusal::of_place(alloc, &address, &error, reason))
        }
    }
}

/// What says where clients find the bus, as each of them reads it: a line for each address, or all of them in one.
pub(crate) fn announcement_of(
    alloc: Global,
    announcement: Announcement,
    targets: &[Target<'_>],
    endpoints: &[Endpoint],
    guid: Guid,
) -> Result<String, Refusal> {
    let mut text = String::new(alloc);
    for (target, endpoint) in targets.iter().zip(endpoints.iter()) {
        let before = match announcement {
            Announcement::Listening => "listening ",
            _ if text.is_empty() => "",
            _ => ";",
        };
        let after = match announcement {
            Announcement::Listening => "\n",
            _ => "",
        };
        let address = address_text(alloc, target.address(), &endpoint.listener, guid)?;
        let address = address.as_str();
        let Ok(part) = format!(in alloc; "{before}{address}{after}") else {
            return Err(Refusal::memory());
        };
        text.push_str(part.as_str()).map_err(|_| Refusal::memory())?;
    }
    if announcement != Announcement::Listening {
        text.push('\n').map_err(|_| Refusal::memory())?;
    }
    Ok(text)
}

/// The address of a listener that was bound as this one asks, with its escapes and the bus's id.
fn address_text(
    alloc: Global,
    asked: Address<'_>,
    listener: &Listener,
    guid: Guid,
) -> Result<String, Refusal> {
    let address = match listener.address(asked) {
        Ok(address) => address,
        Err(error) => return Err(Refusal::of_place(alloc, &asked, &error, None)),
    };
    let value = respell(alloc, address.value()).map_err(|_| Refusal::memory())?;
    let address = address.with_value(value.as_str());
    format!(in alloc; "{address},guid={guid}").map_err(|_| Refusal::memory())
}

/// Writes where the bus is, at once and as a whole.
pub(crate) fn announce<R: Files, O: Writer>(
    rt: &R,
    alloc: Global,
    announcement: Announcement,
    text: &[u8],
    out: &mut Output<O>,
) -> Result<(), Refusal> {
    match announcement {
        Announcement::AddressAt(number) => match write_at(rt, alloc, number, text) {
            Ok(()) => Ok(()),
            Err(error) => Err(Refusal::of_descriptor(alloc, number, &error)),
        },
        Announcement::Listening | Announcement::Address => say(text, out),
    }
}

pub(crate) fn say<O: Writer>(text: &[u8], out: &mut Output<O>) -> Result<(), Refusal> {
    out.put(text);
    if out.has_failed {
        return Err(Refusal::closed_output());
    }
    Ok(())
}

/// Writes a line at a descriptor that whoever started the bus has opened, and closes it: who reads there waits for the
/// end.
fn write_at<R: Files>(rt: &R, alloc: Global, number: u16, line: &[u8]) -> io::Result<()> {
    let path = format!(in alloc; "/dev/fd/{number}")?;
    let mut file = OpenOptions::new().write(true).open(rt, path.as_str())?;
    file.write_all(line)?;
    // SAFETY: the descriptor is open, since it was just opened anew, and whoever started the bus left it to the bus
    // for this line.
    drop(unsafe { OwnedFd::from_raw_fd(i32::from(number)) });
    Ok(())
}
