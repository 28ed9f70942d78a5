// Messages of which a case gives a part.

use case_files::LineError;
use std::alloc::{AllocError, Global};

const HEADER_ALIGNMENT: usize = 8;

/// PATH `/a`, INTERFACE `a.b` and MEMBER `c`.
const SIGNAL_FIELDS: [u8; 48] = [
    1, 1, b'o', 0, 2, 0, 0, 0, b'/', b'a', 0, 0, 0, 0, 0, 0, 2, 1, b's', 0, 3, 0, 0, 0, b'a', b'.',
    b'b', 0, 0, 0, 0, 0, 3, 1, b's', 0, 1, 0, 0, 0, b'c', 0, 0, 0, 0, 0, 0, 0,
];

/// A little-endian message with serial 1.
pub(crate) fn message(
    alloc: Global,
    kind: u8,
    fields: &[u8],
    body: &[u8],
) -> Result<Vec<u8>, LineError> {
    let mut bytes = Vec::new(alloc);
    bytes.extend_from_slice(&[b'l', kind, 0, 1])?;
    bytes.extend_from_slice(&u32::try_from(body.len())?.to_le_bytes())?;
    bytes.extend_from_slice(&1u32.to_le_bytes())?;
    bytes.extend_from_slice(&u32::try_from(fields.len())?.to_le_bytes())?;
    bytes.extend_from_slice(fields)?;
    pad(&mut bytes)?;
    bytes.extend_from_slice(body)?;
    Ok(bytes)
}

/// The signal of `SIGNAL_FIELDS` with a body of this signature.
pub(crate) fn signal(alloc: Global, signature: &[u8], body: &[u8]) -> Result<Vec<u8>, LineError> {
    let mut fields = Vec::new(alloc);
    fields.extend_from_slice(&SIGNAL_FIELDS)?;
    fields.extend_from_slice(&[8, 1, b'g', 0, u8::try_from(signature.len())?])?;
    fields.extend_from_slice(signature)?;
    fields.push(0)?;
    message(alloc, 4, fields.as_slice(), body)
}

/// Adds zeros up to the next place at which a field or a body may begin.
pub(crate) fn pad(bytes: &mut Vec<u8>) -> Result<(), AllocError> {
    bytes.resize(bytes.len().next_multiple_of(HEADER_ALIGNMENT), 0)
}
