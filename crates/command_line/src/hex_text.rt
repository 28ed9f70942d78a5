// Hexadecimal text.

ghost use Rattle.std.specs.Prelude.{◌≡◌, MatchResult, IfOk, None, Some};
ghost use Rattle.command_line.specs.HexText.{is_blank, digits_of, bytes_of_hex};
ghost use Rattle.command_line.specs.declared.hex_text.HexError.TheVariants.{Memory};

use hex::FromHexError;
use std::alloc::{AllocError, Global};

/// Why a text gave no bytes.
#[derive(Clone, Copy, Debug, PartialEq, Eq)]
pub enum HexError {
    /// It has an odd number of digits, or a byte that is neither digit nor blank.
    Hex,
    Memory,
}

impl From<AllocError> for HexError {
    ghost from_gives = { λ _ e. e ≡ Memory };

    fn from(_error: AllocError) -> HexError {
        HexError::Memory
    }
}

/// The bytes that a hexadecimal text spells. Blanks and line ends are ignored wherever they stand.
pub fn decode(alloc: Global, text: &[u8]) -> Result<Vec<u8>, HexError>
    ensures ok { IfOk result (λ bytes. bytes_of_hex text.now ≡ Some bytes.items) }
    ensures hex { result ≡ Err HexError.Hex → bytes_of_hex text.now ≡ None }
{
    let digits = digits(alloc, text)?;
    match hex::decode(alloc, digits) {
        Ok(bytes) => Ok(bytes),
        Err(FromHexError::OutOfMemory) => Err(HexError::Memory),
        Err(_) => Err(HexError::Hex),
    }
}

// What is left of a text without its blanks.
fn digits(alloc: Global, text: &[u8]) -> Result<Vec<u8>, AllocError>
    ensures { IfOk result (λ digits. digits.items ≡ digits_of text.now) }
{
    text.iter()
        .copied()
        .filter(|byte| !is_blank(*byte))
        .collect(alloc)
}

fn is_blank(byte: u8) -> bool
    ensures { result ≡ is_blank byte }
{
    matches!(byte, b' ' | b'\t' | b'\n' | b'\r')
}
