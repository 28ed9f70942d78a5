// What is wrong with an address that can't be read, and where.

use crate::guid::before_guid;
use std::fmt;

/// What is wrong with an address, and after how many of its bytes.
#[derive(Clone, Copy, Debug, PartialEq, Eq)]
pub(crate) struct AddressFault<'a> {
    text: &'a str,
    offset: usize,
    reason: &'static str,
}

impl<'a> AddressFault<'a> {
    /// The first thing that is wrong with a text that is no address.
    pub(crate) fn of(text: &'a str) -> AddressFault<'a> {
        let (offset, reason) = match before_guid(text).split_once(':') {
            None => (0, "unix: or tcp: is wanted first"),
            Some(("unix", pairs)) => first_fault(5, pairs, &UNIX),
            Some(("tcp", pairs)) => first_fault(4, pairs, &TCP),
            Some(_) => (0, "the transport has to be unix or tcp"),
        };
        AddressFault {
            text,
            offset,
            reason,
        }
    }
}

impl<'a> fmt::Display for AddressFault<'a> {
    fn fmt<W: fmt::Write>(&self, f: &mut fmt::Formatter<W>) -> fmt::Result {
        let AddressFault {
            text,
            offset,
            reason,
        } = self;
        write!(f, "{text}, at {offset}: {reason}")
    }
}

/// The keys of a transport.
struct Keys {
    names: &'static [&'static str],
    /// What is wanted of them together.
    reason: &'static str,
}

static UNIX: Keys = Keys {
    names: &["path", "abstract", "dir", "tmpdir", "runtime"],
    reason: "one of path, abstract, dir and tmpdir is wanted, or runtime=yes",
};

static TCP: Keys = Keys {
    names: &["host", "port"],
    reason: "host and port are wanted, once each, the port as a number up to 65535",
};

/// The offset and the reason of the first thing that is wrong with keys and their values, which begin at an offset.
fn first_fault(start: usize, pairs: &str, keys: &Keys) -> (usize, &'static str) {
    let mut offset = start;
    for pair in pairs.split(',') {
        if let Some((within, reason)) = pair_fault(pair, keys) {
            return (offset.saturating_add(within), reason);
        }
        offset = offset.saturating_add(pair.len()).saturating_add(1);
    }
    (start, keys.reason)
}

fn pair_fault(pair: &str, keys: &Keys) -> Option<(usize, &'static str)> {
    let Some((key, value)) = pair.split_once('=') else {
        return Some((0, "a key, = and a value are wanted"));
    };
    if key == "guid" {
        return Some((0, "an id comes last, with 32 hexadecimal digits"));
    }
    if !keys.names.iter().any(|name| *name == key) {
        return Some((0, "this transport has no such key"));
    }
    let (within, reason) = value_fault(value)?;
    let start = key.len().saturating_add(1);
    Some((start.saturating_add(within), reason))
}

fn value_fault(value: &str) -> Option<(usize, &'static str)> {
    if value.is_empty() {
        return Some((0, "the value is empty"));
    }
    if let Some(end) = value.find(';') {
        return Some((end, "one address alone is taken"));
    }
    let mut offset = 0usize;
    for (i, part) in value.split('%').enumerate() {
        if i > 0 && !has_two_digits(part) {
            return Some((
                offset.saturating_sub(1),
                "two hexadecimal digits are wanted after %",
            ));
        }
        offset = offset.saturating_add(part.len()).saturating_add(1);
    }
    None
}

fn has_two_digits(text: &str) -> bool {
    let bytes = text.as_bytes();
    bytes.len() >= 2 && bytes[0].is_ascii_hexdigit() && bytes[1].is_ascii_hexdigit()
}
