// Escaped bytes of addresses.

ghost use Rattle.std.specs.Prelude.{◌≤◌, ◌<◌, IfSome, length};

use std::alloc::{AllocError, Global};

/// The bytes that a value of an address stands for: `%` and two hexadecimal digits are one byte, and others are
/// themselves (D-Bus Specification, "Server Addresses"); `None` where the digits aren't there.
pub(crate) fn bytes_without_escapes(
    alloc: Global,
    value: &str,
) -> Result<Option<Vec<u8>>, AllocError> {
    let mut bytes = Vec::new(alloc);
    let mut parts = value.split('%');
    if let Some(plain) = parts.next() {
        bytes.extend_from_slice(plain.as_bytes())?;
    }
    for part in parts {
        let Some(byte) = escaped_byte(part.as_bytes()) else {
            return Ok(None);
        };
        bytes.push(byte)?;
        bytes.extend_from_slice(&part.as_bytes()[2..])?;
    }
    Ok(Some(bytes))
}

/// The byte of two hexadecimal digits.
fn escaped_byte(text: &[u8]) -> Option<u8>
    ensures { IfSome result (λ _. 2 ≤ length text.now) }
{
    let high = hex_digit(*text.first()?)?;
    let low = hex_digit(*text.get(1)?)?;
    Some(16 * high + low)
}

fn hex_digit(digit: u8) -> Option<u8>
    ensures { IfSome result (λ value. value < 16) }
{
    match digit {
        b'0'..=b'9' => Some(digit - b'0'),
        b'a'..=b'f' => Some(digit - b'a' + 10),
        b'A'..=b'F' => Some(digit - b'A' + 10),
        _ => None,
    }
}
