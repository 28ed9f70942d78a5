// Addresses of buses.

use crate::escapes::bytes_without_escapes;
use std::alloc::{AllocError, AllocFailed, Global};

/// Where a bus listens (D-Bus Specification, "Server Addresses").
#[derive(Debug, PartialEq, Eq, Drop)]
pub enum Address {
    /// A Unix socket's path.
    Path(String),
    /// A name in Linux's abstract namespace.
    Abstract(Vec<u8>),
    Tcp { host: String, port: u16 },
    /// An address that is well formed, of a transport that there is no socket for here.
    Other,
}

/// Why a text gives no addresses.
#[derive(Clone, Copy, Debug, PartialEq, Eq)]
pub enum AddressError {
    /// It isn't of the form.
    Form,
    /// No variable says where the bus is.
    Nowhere,
    NoMemory,
}

impl From<AllocError> for AddressError {
    fn from(_refused: AllocError) -> AddressError {
        AddressError::NoMemory
    }
}

impl<T: Drop> From<AllocFailed<T>> for AddressError {
    fn from(_refused: AllocFailed<T>) -> AddressError {
        AddressError::NoMemory
    }
}

/// The values of an address's keys. Those that say where it is are kept, the others only read.
#[derive(Drop)]
struct Keys {
    path: Option<Vec<u8>>,
    name: Option<Vec<u8>>,
    host: Option<Vec<u8>>,
    port: Option<Vec<u8>>,
}

/// The addresses of a text, divided by `;`, to be tried in turn.
///
/// # Errors
///
/// `Form` where one of them isn't of the form or where there is none, and `NoMemory`.
pub fn read_addresses(alloc: Global, text: &str) -> Result<Vec<Address>, AddressError> {
    let mut addresses = Vec::new(alloc);
    for part in text.split(';') {
        if !part.is_empty() {
            addresses.push(read_address(alloc, part)?)?;
        }
    }
    if addresses.is_empty() {
        return Err(AddressError::Form);
    }
    Ok(addresses)
}

/// The address of a transport, a `:`, and keys with their values, divided by commas.
fn read_address(alloc: Global, text: &str) -> Result<Address, AddressError> {
    let (transport, list) = text.split_once(':').ok_or(AddressError::Form)?;
    let keys = Keys::read(alloc, list)?;
    match transport {
        "unix" => keys.to_unix(),
        "tcp" => keys.to_tcp(),
        "" => Err(AddressError::Form),
        _ => Ok(Address::Other),
    }
}

/// The text of some bytes.
fn text_of(bytes: Vec<u8>) -> Result<String, AddressError> {
    String::from_utf8(bytes).map_err(|_| AddressError::Form)
}

impl Keys {
    fn read(alloc: Global, list: &str) -> Result<Keys, AddressError> {
        let mut keys = Keys {
            path: None,
            name: None,
            host: None,
            port: None,
        };
        for pair in list.split(',') {
            if !pair.is_empty() {
                let (key, value) = pair.split_once('=').ok_or(AddressError::Form)?;
                let value = bytes_without_escapes(alloc, value)?.ok_or(AddressError::Form)?;
                keys.keep(key, value)?;
            }
        }
        Ok(keys)
    }

    /// Keeps a value. A key may be given once.
    fn keep(&mut self, key: &str, value: Vec<u8>) -> Result<(), AddressError> {
        let place = match key {
            "path" => &mut self.path,
            "abstract" => &mut self.name,
            "host" => &mut self.host,
            "port" => &mut self.port,
            "" => return Err(AddressError::Form),
            _ => return Ok(()),
        };
        if place.is_some() || value.is_empty() {
            return Err(AddressError::Form);
        }
        *place = Some(value);
        Ok(())
    }

    /// A Unix address says a path or an abstract name. One that says neither, as `unix:runtime=yes`, is for servers.
    fn to_unix(self) -> Result<Address, AddressError> {
        match (self.path, self.name) {
            (Some(path), None) => Ok(Address::Path(text_of(path)?)),
            (None, Some(name)) => Ok(Address::Abstract(name)),
            (None, None) => Ok(Address::Other),
            (Some(_), Some(_)) => Err(AddressError::Form),
        }
    }

    fn to_tcp(self) -> Result<Address, AddressError> {
        let host = text_of(self.host.ok_or(AddressError::Form)?)?;
        let port = text_of(self.port.ok_or(AddressError::Form)?)?;
        let port = port
            .as_str()
            .parse::<u16>()
            .map_err(|_| AddressError::Form)?;
        Ok(Address::Tcp { host, port })
    }
}
