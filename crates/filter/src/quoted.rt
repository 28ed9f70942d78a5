// Texts in quotes.

ghost use Rattle.std.specs.Prelude.{◌≡◌, ◌<◌, ◌+◌, ◌^◌, false, None, IfSome, IfOk, length};
ghost use Rattle.filter.specs.Lexis.{quoted_len, bad_escape, without_escapes};

use crate::lexis::is_escaped;
use std::alloc::{AllocError, Global};

/// How many bytes stand before the quote that closes a text, if one does. A byte after a backslash closes nothing.
pub(crate) fn quoted_len(quote: u8, bytes: &[u8]) -> Option<usize>
    ensures value { result ≡ quoted_len quote false 0 bytes.now }
    ensures within { IfSome result (λ len. len < length bytes.now) }
{
    let mut after_backslash = false;
    for (len, byte) in bytes.iter().enumerate() {
        if after_backslash {
            after_backslash = false;
        } else if *byte == quote {
            return Some(len);
        } else {
            after_backslash = *byte == b'\\';
        }
    }
    None
}

/// The first backslash that doesn't stand before a backslash or a quote, in bytes from a place on.
pub(crate) fn bad_escape(place: usize, bytes: &[u8]) -> Option<usize>
    requires { place + length bytes.now < 2 ^ 63 }
    ensures { result ≡ bad_escape None place bytes.now }
{
    let mut pending = None;
    for (i, byte) in bytes.iter().enumerate() {
        if pending.is_some() {
            if !is_escaped(*byte) {
                return pending;
            }
            pending = None;
        } else if *byte == b'\\' {
            pending = Some(place + i);
        }
    }
    None
}

/// The text that bytes in quotes spell: a byte after a backslash stands for itself.
pub(crate) fn without_escapes(alloc: Global, bytes: &[u8]) -> Result<Vec<u8>, AllocError>
    ensures { IfOk result (λ text. text.items ≡ without_escapes false bytes.now) }
{
    let mut text = Vec::new(alloc);
    let mut after_backslash = false;
    for byte in bytes {
        if !after_backslash && *byte == b'\\' {
            after_backslash = true;
        } else {
            text.push(*byte)?;
            after_backslash = false;
        }
    }
    Ok(text)
}
