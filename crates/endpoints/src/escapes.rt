// Escapes in the values of addresses.

ghost use Rattle.std.specs.Prelude.{◌≡◌, IfOk, string_bytes};
ghost use Rattle.std.specs.Cow.{cow_str_bytes};
ghost use Rattle.percent_encoding.specs.Percent.{percent_decode};
ghost use Rattle.endpoints.specs.Escapes.{has_whole_escapes, after};

use percent_encoding::{
    AsciiSet, DecodeError, NON_ALPHANUMERIC, ascii_set, percent_decode, percent_encode,
};
use std::alloc::{AllocError, Global};
use std::borrow::CowStr;
use std::io;
use std::io::ErrorKind;

/// What the next byte of a value has to be.
#[derive(Clone, Copy, PartialEq, Eq)]
pub(crate) enum Awaited {
    AnyByte,
    TwoDigits,
    OneDigit,
}

/// Whether two hexadecimal digits come after each `%`.
pub(crate) fn has_whole_escapes(value: &str) -> bool
    ensures { result ≡ has_whole_escapes value.now }
{
    let mut awaited = Awaited::AnyByte;
    for byte in value.as_bytes() {
        match after(awaited, *byte) {
            Some(next) => awaited = next,
            None => return false,
        }
    }
    match awaited {
        Awaited::AnyByte => true,
        Awaited::TwoDigits | Awaited::OneDigit => false,
    }
}

fn after(awaited: Awaited, byte: u8) -> Option<Awaited>
    ensures { result ≡ after awaited byte }
{
    match awaited {
        Awaited::AnyByte if byte == b'%' => Some(Awaited::TwoDigits),
        Awaited::AnyByte => Some(Awaited::AnyByte),
        Awaited::TwoDigits if byte.is_ascii_hexdigit() => Some(Awaited::OneDigit),
        Awaited::OneDigit if byte.is_ascii_hexdigit() => Some(Awaited::AnyByte),
        Awaited::TwoDigits | Awaited::OneDigit => None,
    }
}

/// The bytes that have to be escaped: all but letters, digits and `-_/.\*`.
const ESCAPED: AsciiSet = ascii_set!(
    NON_ALPHANUMERIC
        .remove(b'-')
        .remove(b'_')
        .remove(b'/')
        .remove(b'.')
        .remove(b'\\')
        .remove(b'*')
);

/// The value that stands for some bytes, as every client reads it.
pub fn escape(alloc: Global, bytes: &[u8]) -> Result<String, AllocError>
    ensures { IfOk result (λ value. percent_decode (string_bytes value) ≡ bytes.now) }
{
    let mut value = String::new(alloc);
    percent_encode(bytes, ESCAPED).append_to(&mut value)?;
    Ok(value)
}

/// The bytes that a value stands for.
pub(crate) fn unescaped_bytes(alloc: Global, value: &str) -> Result<Vec<u8>, AllocError>
    ensures { IfOk result (λ bytes. bytes.items ≡ percent_decode value.now) }
{
    let mut bytes = Vec::new(alloc);
    percent_decode(value.as_bytes()).append_to(&mut bytes)?;
    Ok(bytes)
}

/// The text that a value stands for.
///
/// # Errors
///
/// `InvalidInput` where it isn't UTF-8, since paths and hosts are texts, and `OutOfMemory`.
pub fn unescape<'a>(alloc: Global, value: &'a str) -> io::Result<CowStr<'a>>
    ensures { IfOk result (λ text. cow_str_bytes text ≡ percent_decode value.entry.now) }
{
    match percent_decode(value.as_bytes()).decode_utf8(alloc) {
        Ok(text) => Ok(text),
        Err(DecodeError::Utf8(_)) => Err(io::Error::from(ErrorKind::InvalidInput)),
        Err(DecodeError::OutOfMemory) => Err(io::Error::from(ErrorKind::OutOfMemory)),
    }
}

/// A value that stands for the same bytes, spelled as every client reads it.
pub fn respell(alloc: Global, value: &str) -> Result<String, AllocError>
    ensures { IfOk result (λ other. percent_decode (string_bytes other) ≡ percent_decode value.now) }
{
    let bytes = unescaped_bytes(alloc, value)?;
    escape(alloc, &bytes)
}
