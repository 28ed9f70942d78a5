// Texts of other programs, for a terminal.

ghost use Rattle.std.specs.Prelude.{◌≡◌, ◌+◌, ◌<◌, ◌++◌, IfOk, OnOk, string_bytes};
ghost use Rattle.value_text.specs.Printable.{is_printable};
ghost use Rattle.watch_command.specs.ShownText.{shown_byte, shown_text};

use std::alloc::{AllocError, Global};

/// A text in which what isn't printable ASCII is a backslash and three octal digits, so that a terminal takes none of it for a
/// command.
pub(crate) fn shown_text(alloc: Global, text: &str) -> Result<String, AllocError>
    ensures { IfOk result (λ shown. string_bytes shown ≡ shown_text text.now) }
{
    let mut shown = String::new(alloc);
    for byte in text.as_bytes() {
        put_byte(&mut shown, *byte)?;
    }
    Ok(shown)
}

#[tactic(auto, using(std::proofs::lemmas::Str::encode_ascii))]
fn put_byte(shown: &mut String, byte: u8) -> Result<(), AllocError>
    ensures { OnOk result (string_bytes shown.new ≡ string_bytes shown.old ++ shown_byte byte) }
{
    if is_printable(byte) {
        return shown.push(char::from(byte));
    }
    shown.push('\\')?;
    shown.push(octal_digit(byte / 64))?;
    shown.push(octal_digit(byte / 8 % 8))?;
    shown.push(octal_digit(byte % 8))
}

fn octal_digit(value: u8) -> char
    requires { value < 8 }
    ensures { result ≡ 48 + value }
{
    char::from(b'0' + value)
}

/// Whether a byte is a character of ASCII that isn't a control character.
fn is_printable(byte: u8) -> bool
    ensures { result ≡ is_printable byte }
{
    byte >= 32 && byte <= 126
}
