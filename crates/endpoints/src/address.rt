// Addresses of the bus (D-Bus Specification, "Server Addresses"): a TCP host and port, or a place of Unix sockets.

ghost use Rattle.std.specs.Prelude.{◌≡◌, ◌<◌, ◌^◌, ◌++◌, ◌∷◌, ◌↔◌, ◌==◌, false, List, ℕ, Some, None, IsTrue, IfSome, option_map};
ghost use Rattle.std.specs.List.{list_any};
ghost use Rattle.percent_encoding.specs.Percent.{percent_decode};
ghost use Rattle.endpoints.specs.Address.{Place, Spells, IsValue, IsPort, comma, ends_value, tcp_key, port_key, tcp_port_key, host_key, address_text, place_of, value_text, at_port};
ghost use Rattle.endpoints.specs.AddressParts.{parts_of};

use crate::escapes::has_whole_escapes;
use std::fmt;

/// Where a bus listens. Values are as the address spells them, with their escapes.
#[derive(Clone, Copy, Debug)]
pub enum Address<'a> {
    /// `tcp:host=H,port=P`, in either order. Port 0 asks for any port that is free.
    Tcp { host: &'a str, port: u16 },
    /// `unix:path=P`.
    Unix { path: &'a str },
    /// `unix:abstract=N`: a name that stands in no folder.
    Abstract { name: &'a str },
    /// `unix:dir=P` or `unix:tmpdir=P`: a socket of a new name in this folder.
    Folder { path: &'a str },
    /// `unix:runtime=yes`: the socket `bus` in the user's folder of sockets.
    Runtime,
}

/// Whether the byte ends a value.
fn ends_value(byte: u8) -> bool
    ensures { result ≡ ends_value byte }
{
    byte == b',' || byte == b';'
}

/// Whether a byte of the value ends it.
fn has_end(value: &str) -> bool
    ensures { result ≡ list_any ends_value value.now }
{
    value.as_bytes().iter().any(|byte| ends_value(*byte))
}

/// Whether a text is a value: clients read it as a whole, and each of its escapes is one.
fn is_value(value: &str) -> bool
    ensures { IsTrue result ↔ IsValue value.now }
{
    !value.is_empty() && !has_end(value) && has_whole_escapes(value)
}

/// The value after a key, if the text is that key and a value.
fn value_of<'a>(text: &'a str, key: &str) -> Option<&'a str>
    ensures found { IfSome result (λ value. (text.entry.now ≡ key.now ++ value.now) × IsValue value.now) }
    ensures only { (value : List ℕ) → text.entry.now ≡ key.now ++ value → IsValue value → option_map (λ v. v.now) result ≡ Some value }
{
    match value_after(text, key) {
        Some(value) if is_value(value) => Some(value),
        _ => None,
    }
}

/// The text after a key that it begins with.
fn value_after<'a>(text: &'a str, key: &str) -> Option<&'a str>
    ensures found { IfSome result (λ value. text.entry.now ≡ key.now ++ value.now) }
    ensures only { (value : List ℕ) → text.entry.now ≡ key.now ++ value → option_map (λ v. v.now) result ≡ Some value }
{
    text.strip_prefix(key)
}

/// The texts before and after the first comma.
fn at_comma<'a>(text: &'a str) -> Option<(&'a str, &'a str)>
    ensures found { IfSome result (λ parts. text.entry.now ≡ parts.0.now ++ comma ∷ parts.1.now) }
    ensures only { (front back : List ℕ) → list_any ends_value front ≡ false → text.entry.now ≡ front ++ comma ∷ back
        → option_map parts_of result ≡ Some (record { front = front; back = back }) }
{
    text.split_once(',')
}

/// The port that decimal digits stand for.
fn read_port(text: &str) -> Option<u16>
    ensures found { IfSome result (λ port. IsPort text.now port) }
    ensures only { (port : ℕ) → IsPort text.now port → result ≡ Some port }
{
    if text.as_bytes().first() == Some(&b'+') {
        return None;
    }
    text.parse::<u16>().ok()
}

/// The TCP address that a text spells, if it spells one.
fn read_tcp<'a>(text: &'a str) -> Option<Address<'a>>
    ensures found { IfSome result (λ address. Spells (place_of address) text.entry.now) }
    ensures host_first { (host digits : List ℕ) (port : ℕ) → IsValue host → IsPort digits port → text.entry.now ≡ tcp_key ++ (host ++ comma ∷ (port_key ++ digits))
        → option_map place_of result ≡ Some (at_port (percent_decode host) port) }
    ensures port_first { (host digits : List ℕ) (port : ℕ) → IsValue host → IsPort digits port → text.entry.now ≡ tcp_port_key ++ (digits ++ comma ∷ (host_key ++ host))
        → option_map place_of result ≡ Some (at_port (percent_decode host) port) }
{
    if let Some(pairs) = value_after(text, "tcp:host=") {
        let (host, port) = at_comma(pairs)?;
        return tcp_of(host, value_after(port, "port=")?);
    }
    let (port, host) = at_comma(value_after(text, "tcp:port=")?)?;
    tcp_of(value_after(host, "host=")?, port)
}

/// The TCP address of a host and a port's digits.
fn tcp_of<'a>(host: &'a str, digits: &str) -> Option<Address<'a>>
    ensures found { IfSome result (λ address. (port : ℕ) × (place_of address ≡ at_port (percent_decode host.entry.now) port) × IsValue host.entry.now × IsPort digits.now port) }
    ensures only { (port : ℕ) → IsValue host.entry.now → IsPort digits.now port → option_map place_of result ≡ Some (at_port (percent_decode host.entry.now) port) }
{
    let port = read_port(digits)?;
    if is_value(host) {
        Some(Address::Tcp { host, port })
    } else {
        None
    }
}

impl<'a> Address<'a> {
    /// The address that a text spells, if it spells one.
    pub fn read(text: &'a str) -> Option<Address<'a>>
        ensures found { IfSome result (λ address. Spells (place_of address) text.entry.now) }
        ensures only { (place : Place) → Spells place text.entry.now → option_map place_of result ≡ Some place }
    {
        if let Some(path) = value_of(text, "unix:path=") {
            return Some(Address::Unix { path });
        }
        if let Some(name) = value_of(text, "unix:abstract=") {
            return Some(Address::Abstract { name });
        }
        if let Some(path) = value_of(text, "unix:dir=") {
            return Some(Address::Folder { path });
        }
        if let Some(path) = value_of(text, "unix:tmpdir=") {
            return Some(Address::Folder { path });
        }
        if text == "unix:runtime=yes" {
            return Some(Address::Runtime);
        }
        read_tcp(text)
    }

    /// The value that says where it is, as it is spelled; no byte where there is none.
    pub fn value(self) -> &'a str
        ensures { result.now ≡ value_text self.entry }
    {
        match self {
            Address::Tcp { host, .. } => host,
            Address::Unix { path } | Address::Folder { path } => path,
            Address::Abstract { name } => name,
            Address::Runtime => "",
        }
    }

    /// The address with its value spelled another way.
    pub fn with_value<'b>(self, value: &'b str) -> Address<'b>
        ensures { percent_decode value.entry.now ≡ percent_decode (value_text self.entry) → place_of result ≡ place_of self.entry }
    {
        match self {
            Address::Tcp { port, .. } => Address::Tcp { host: value, port },
            Address::Unix { .. } => Address::Unix { path: value },
            Address::Abstract { .. } => Address::Abstract { name: value },
            Address::Folder { .. } => Address::Folder { path: value },
            Address::Runtime => Address::Runtime,
        }
    }
}

impl<'a> fmt::Display for Address<'a> {
    ghost output = { λ address. Some (address_text address) };

    fn fmt<W: fmt::Write>(&self, f: &mut fmt::Formatter<W>) -> fmt::Result {
        match self {
            Address::Tcp { host, port } => write!(f, "tcp:host={host},port={port}"),
            Address::Unix { path } => write!(f, "unix:path={path}"),
            Address::Abstract { name } => write!(f, "unix:abstract={name}"),
            Address::Folder { path } => write!(f, "unix:dir={path}"),
            Address::Runtime => f.write_str("unix:runtime=yes"),
        }
    }
}
