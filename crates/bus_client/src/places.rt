// The usual places of buses.

use crate::address::{Address, AddressError, read_addresses};
use std::alloc::Global;
use std::env;
use std::env::VarError;
use std::rt::Env;

/// Where the system's bus listens where no variable says it.
const SYSTEM_PATH: &str = "/run/dbus/system_bus_socket";

/// The addresses that a word stands for: `session` and `system` are those of the usual variables and places, any other
/// word is an address itself.
///
/// # Errors
///
/// `Form` where an address isn't of the form, `Nowhere` where no variable says where the session's bus is, and
/// `NoMemory`.
pub fn addresses_of<R: Env + AllocGlobal>(
    rt: &R,
    word: &str,
) -> Result<Vec<Address>, AddressError> {
    match word {
        "session" => session(rt),
        "system" => system(rt),
        _ => read_addresses(rt.alloc(), word),
    }
}

/// A variable's text, if it is there and says something.
fn variable<R: Env + AllocGlobal>(rt: &R, name: &str) -> Result<Option<String>, AddressError> {
    match env::var(rt, name) {
        Ok(text) if text.is_empty() => Ok(None),
        Ok(text) => Ok(Some(text)),
        Err(VarError::NotPresent) => Ok(None),
        Err(VarError::NotUnicode) => Err(AddressError::Form),
        Err(VarError::OutOfMemory) => Err(AddressError::NoMemory),
    }
}

/// One address.
fn only(alloc: Global, address: Address) -> Result<Vec<Address>, AddressError> {
    let mut addresses = Vec::new(alloc);
    addresses.push(address)?;
    Ok(addresses)
}

fn session<R: Env + AllocGlobal>(rt: &R) -> Result<Vec<Address>, AddressError> {
    if let Some(text) = variable(rt, "DBUS_SESSION_BUS_ADDRESS")? {
        return read_addresses(rt.alloc(), text.as_str());
    }
    let mut path = variable(rt, "XDG_RUNTIME_DIR")?.ok_or(AddressError::Nowhere)?;
    path.push_str("/bus")?;
    only(rt.alloc(), Address::Path(path))
}

fn system<R: Env + AllocGlobal>(rt: &R) -> Result<Vec<Address>, AddressError> {
    if let Some(text) = variable(rt, "DBUS_SYSTEM_BUS_ADDRESS")? {
        return read_addresses(rt.alloc(), text.as_str());
    }
    let path = String::from_str(rt.alloc(), SYSTEM_PATH)?;
    only(rt.alloc(), Address::Path(path))
}
