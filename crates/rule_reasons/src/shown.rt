// Texts of messages and rules, as they are shown.

ghost use Rattle.std.specs.Prelude.{◌≡◌, ◌<◌, ◌+◌, ◌/◌, ◌%◌, ◌++◌, ◌∷◌, [], OnOk, string_bytes};
ghost use Rattle.rule_reasons.specs.Shown.{escape_of, escaped_text, quoted_text};

use std::alloc::AllocError;

/// Adds a character of ASCII.
fn push_byte(text: &mut String, byte: u8) -> Result<(), AllocError>
    requires { byte < 128 }
    ensures { OnOk result (string_bytes text.new ≡ string_bytes text.old ++ byte ∷ []) }
{
    text.push(char::from(byte))
}

/// Adds a backslash and a byte in three octal digits.
fn push_octal(text: &mut String, byte: u8) -> Result<(), AllocError>
    ensures { OnOk result (string_bytes text.new ≡ string_bytes text.old ++ 92 ∷ (48 + byte / 64) ∷ (48 + byte / 8 % 8) ∷ (48 + byte % 8) ∷ []) }
{
    push_byte(text, b'\\')?;
    push_byte(text, b'0' + byte / 64)?;
    push_byte(text, b'0' + byte / 8 % 8)?;
    push_byte(text, b'0' + byte % 8)
}

/// Adds a byte, so that a terminal takes it for nothing but text.
fn push_escaped(text: &mut String, byte: u8) -> Result<(), AllocError>
    ensures { OnOk result (string_bytes text.new ≡ string_bytes text.old ++ escape_of byte) }
{
    if byte == b'\'' || byte == b'\\' {
        push_byte(text, b'\\')?;
        push_byte(text, byte)
    } else if byte >= 32 && byte <= 126 {
        push_byte(text, byte)
    } else {
        push_octal(text, byte)
    }
}

/// Adds each byte of a text, escaped.
fn push_all(text: &mut String, shown: &[u8]) -> Result<(), AllocError>
    ensures { OnOk result (string_bytes text.new ≡ string_bytes text.old ++ escaped_text shown.now) }
{
    for byte in shown {
        push_escaped(text, *byte)?;
    }
    Ok(())
}

/// Adds a text between apostrophes.
pub(crate) fn push_quoted(text: &mut String, shown: &str) -> Result<(), AllocError>
    ensures { OnOk result (string_bytes text.new ≡ string_bytes text.old ++ quoted_text shown.now) }
{
    text.push_str("'")?;
    push_all(text, shown.as_bytes())?;
    text.push_str("'")
}
