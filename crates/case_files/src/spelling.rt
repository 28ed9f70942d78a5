// How a field spells bytes that a line can't show.

ghost use Rattle.std.specs.Prelude.{◌<◌, IfOk};

use crate::error::LineError;
use crate::repetition::{self, Repetition};
use std::alloc::{AllocError, Global};
use std::fmt::Write;
use std::mem;

/// What the next letters of a field spell.
#[derive(Clone, Copy)]
enum Piece {
    Byte(u8),
    /// The bytes from here on are repeated this number of times.
    Begin(usize),
    End,
}

/// The bytes that a field spells.
pub(crate) fn bytes_without_escapes(alloc: Global, field: &str) -> Result<Vec<u8>, LineError> {
    let mut bytes = Vec::new(alloc);
    let mut repetition: Option<Repetition> = None;
    let mut rest = field.as_bytes();
    // Each turn takes at least one byte off the rest.
    for _ in 0..field.len() {
        let Some((first, after)) = rest.split_first() else {
            break;
        };
        let (piece, after) = if *first == b'\\' {
            escape(after)?
        } else {
            (Piece::Byte(*first), after)
        };
        match piece {
            Piece::Byte(byte) => bytes.push(byte)?,
            Piece::Begin(count) if repetition.is_none() => {
                let before = mem::replace(&mut bytes, Vec::new(alloc));
                repetition = Some(Repetition { count, before });
            }
            Piece::Begin(_) => return Err(LineError::Unreadable),
            Piece::End => {
                let repetition = repetition.take().ok_or(LineError::Unreadable)?;
                bytes = repetition.end(bytes.as_slice())?;
            }
        }
        rest = after;
    }
    match repetition {
        None => Ok(bytes),
        Some(_) => Err(LineError::Unreadable),
    }
}

/// What the letters after a backslash spell, and what follows them.
fn escape(letters: &[u8]) -> Result<(Piece, &[u8]), LineError> {
    match letters {
        [b't', after @ ..] => Ok((Piece::Byte(b'\t'), after)),
        [b'n', after @ ..] => Ok((Piece::Byte(b'\n'), after)),
        [b'r', after @ ..] => Ok((Piece::Byte(b'\r'), after)),
        [b'\\', after @ ..] => Ok((Piece::Byte(b'\\'), after)),
        [b'x', high, low, after @ ..] => {
            Ok((Piece::Byte(16 * digit(*high)? + digit(*low)?), after))
        }
        [b'{', after @ ..] => {
            let (count, after) = repetition::count(after)?;
            Ok((Piece::Begin(count), after))
        }
        [b'}', after @ ..] => Ok((Piece::End, after)),
        _ => Err(LineError::Unreadable),
    }
}

fn digit(letter: u8) -> Result<u8, LineError>
    ensures { IfOk result (λ value. value < 16) }
{
    match letter {
        b'0'..=b'9' => Ok(letter - b'0'),
        b'a'..=b'f' => Ok(letter - b'a' + 10),
        _ => Err(LineError::Unreadable),
    }
}

/// How a field spells these bytes: `unescaped` reads them back.
pub fn escape_field(alloc: Global, bytes: &[u8]) -> Result<String, AllocError> {
    let mut field = String::new(alloc);
    for byte in bytes {
        match *byte {
            b'\t' => field.push_str("\\t")?,
            b'\n' => field.push_str("\\n")?,
            b'\r' => field.push_str("\\r")?,
            b'\\' => field.push_str("\\\\")?,
            b' '..=b'~' => field.push(char::from(*byte))?,
            other => write!(field, "\\x{other:02x}")?,
        }
    }
    Ok(field)
}
