// The bus's id.

use std::fmt::Write;
use std::random::RandomSource;
use std::{fmt, io};

/// The digits of lower case.
const DIGITS: [u8; 16] = *b"0123456789abcdef";

/// What clients know a run of a bus by: 32 hexadecimal digits (D-Bus Specification, "UUIDs").
#[derive(Clone, Copy, Debug, PartialEq, Eq)]
pub(crate) struct Guid {
    pub(crate) digits: [u8; 32],
}

impl Guid {
    /// The id that a text of 32 hexadecimal digits says.
    pub(crate) fn read(text: &str) -> Option<Guid> {
        let bytes = text.as_bytes();
        if bytes.len() != 32 || !bytes.iter().all(|byte| byte.is_ascii_hexdigit()) {
            return None;
        }
        let mut digits = [0; 32];
        digits.copy_from_slice(bytes);
        Some(Guid { digits })
    }

    /// An id of the system's random numbers, that no other bus has.
    pub(crate) fn random<R: RandomSource>(rt: &R) -> io::Result<Guid> {
        let mut bytes = [0u8; 16];
        rt.fill_bytes(&mut bytes)?;
        let mut digits = [0; 32];
        for i in 0..16 {
            digits[2 * i] = DIGITS[(bytes[i] / 16) as usize];
            digits[2 * i + 1] = DIGITS[(bytes[i] % 16) as usize];
        }
        Ok(Guid { digits })
    }
}

/// An address without the id that it may end with, as clients are told it.
pub(crate) fn before_guid(address: &str) -> &str {
    match address.rsplit_once(',') {
        Some((before, pair)) if is_guid_pair(pair) => before,
        _ => address,
    }
}

fn is_guid_pair(pair: &str) -> bool {
    match pair.strip_prefix("guid=") {
        Some(guid) => Guid::read(guid).is_some(),
        None => false,
    }
}

impl fmt::Display for Guid {
    fn fmt<W: fmt::Write>(&self, f: &mut fmt::Formatter<W>) -> fmt::Result {
        for digit in self.digits {
            f.write_char(char::from(digit))?;
        }
        Ok(())
    }
}
