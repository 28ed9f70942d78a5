// A line of text.

ghost use Rattle.std.specs.Prelude.{◌≡◌, ◌<◌, IfSome, true};
ghost use Rattle.value_text.specs.Printable.{is_printable};
ghost use Rattle.value_text.specs.Escaped.{letter_of};

use std::alloc::{AllocError, Global};
use std::marker::Model;

/// Printable ASCII, so that a terminal takes none of it for a command.
#[derive(Drop)]
pub struct Line {
    text: Vec<u8>,
}

impl Model for Line {
    ghost use Rattle.std.specs.Prelude.{◌≡◌, ℕ, List, true};
    ghost use Rattle.std.specs.List.{list_all};
    ghost use Rattle.value_text.specs.Printable.{is_printable};

    ghost Value = { List ℕ };

    ghost view = { λ l. l.text.items };

    ghost invariant = { λ l. list_all is_printable l.text.items ≡ true };
}

/// The letter that stands for a byte after a backslash, as in C.
fn letter_of(byte: u8) -> Option<u8>
    ensures letter { result ≡ letter_of byte }
    ensures printable { IfSome result (λ letter. is_printable letter ≡ true) }
{
    match byte {
        7 => Some(b'a'),
        8 => Some(b'b'),
        b'\t' => Some(b't'),
        b'\n' => Some(b'n'),
        11 => Some(b'v'),
        12 => Some(b'f'),
        b'\r' => Some(b'r'),
        b'\\' | b'"' | b'\'' => Some(byte),
        _ => None,
    }
}

/// Whether a byte is a character of ASCII that isn't a control character.
fn is_printable(byte: u8) -> bool
    ensures { result ≡ is_printable byte }
{
    byte >= 32 && byte <= 126
}

/// The letter that stands for a character after a backslash in JSON.
fn json_letter_of(character: char) -> Option<u8>
    ensures { IfSome result (λ letter. is_printable letter ≡ true) }
{
    match character {
        '"' => Some(b'"'),
        '\\' => Some(b'\\'),
        '\u{8}' => Some(b'b'),
        '\t' => Some(b't'),
        '\n' => Some(b'n'),
        '\u{c}' => Some(b'f'),
        '\r' => Some(b'r'),
        _ => None,
    }
}

/// A hexadecimal digit.
fn hex_digit(value: u32) -> u8
    requires { value < 16 }
    ensures { is_printable result ≡ true }
{
    let value = value as u8;
    if value < 10 {
        b'0' + value
    } else {
        b'a' + (value - 10)
    }
}

impl Line {
    ghost use Rattle.std.specs.Prelude.{◌≡◌, ◌++◌, ◌∷◌, [], true, OnOk, IfOk, codes};
    ghost use Rattle.std.specs.List.{list_all};
    ghost use Rattle.value_text.specs.Printable.{is_printable, IsOneLine};
    ghost use Rattle.value_text.specs.Escaped.{escape_of, octal, escaped_text};

    /// An empty line. It takes no memory.
    pub fn new(alloc: Global) -> Line
        ensures { result ≡ [] }
    {
        Line {
            text: Vec::new(alloc),
        }
    }

    /// Adds printable characters.
    pub(crate) fn push_all(&mut self, text: &[u8]) -> Result<(), AllocError>
        requires { list_all is_printable text.now ≡ true }
        ensures { OnOk result (self.new ≡ self.old ++ text.now) }
    {
        self.text.extend_from_slice(text)
    }

    /// Adds a byte, escaped where it is no plain character of text between quotes.
    fn push_escaped(&mut self, byte: u8) -> Result<(), AllocError>
        ensures { OnOk result (self.new ≡ self.old ++ escape_of byte) }
    {
        match letter_of(byte) {
            Some(letter) => self.push_all(&[b'\\', letter]),
            None if is_printable(byte) => self.push_all(&[byte]),
            None => self.push_octal(byte),
        }
    }

    /// Adds a byte as a backslash and three octal digits.
    fn push_octal(&mut self, byte: u8) -> Result<(), AllocError>
        ensures { OnOk result (self.new ≡ self.old ++ octal byte) }
    {
        let digits = [
            b'\\',
            b'0' + byte / 64,
            b'0' + byte / 8 % 8,
            b'0' + byte % 8,
        ];
        self.push_all(&digits)
    }

    /// Adds a text, each byte of it escaped where it is no plain character.
    pub fn put(&mut self, text: &[u8]) -> Result<(), AllocError>
        ensures { OnOk result (self.new ≡ self.old ++ escaped_text text.now) }
    {
        for byte in text {
            self.push_escaped(*byte)?;
        }
        Ok(())
    }

    /// Adds a string of JSON (RFC 8259, section 7), in which each character that isn't of printable ASCII is escaped.
    pub(crate) fn put_json(&mut self, text: &str) -> Result<(), AllocError> {
        self.push_all(b"\"")?;
        for character in text.chars() {
            self.push_json(character)?;
        }
        self.push_all(b"\"")
    }

    fn push_json(&mut self, character: char) -> Result<(), AllocError> {
        match json_letter_of(character) {
            Some(letter) => self.push_all(&[b'\\', letter]),
            None => self.push_json_units(character),
        }
    }

    /// Adds a character as itself, or as its units of UTF-16 with four digits each.
    fn push_json_units(&mut self, character: char) -> Result<(), AllocError> {
        let code = u32::from(character);
        if let Ok(byte) = u8::try_from(code)
            && is_printable(byte)
        {
            return self.push_all(&[byte]);
        }
        match code.checked_sub(0x1_0000) {
            None => self.push_unit(code),
            Some(rest) => {
                self.push_unit(0xd800 + rest / 0x400 % 0x400)?;
                self.push_unit(0xdc00 + rest % 0x400)
            }
        }
    }

    /// Adds the four digits of a unit of UTF-16.
    fn push_unit(&mut self, unit: u32) -> Result<(), AllocError> {
        self.push_all(&[
            b'\\',
            b'u',
            hex_digit(unit / 0x1000 % 16),
            hex_digit(unit / 0x100 % 16),
            hex_digit(unit / 0x10 % 16),
            hex_digit(unit % 16),
        ])
    }

    /// Adds a blank and then a text between quotes.
    pub fn put_quoted(&mut self, text: &[u8]) -> Result<(), AllocError>
        ensures { OnOk result (self.new ≡ self.old ++ codes " \"" ++ escaped_text text.now ++ codes "\"") }
    {
        self.push_all(b" \"")?;
        self.put(text)?;
        self.push_all(b"\"")
    }

    /// Adds a blank and then a word.
    pub fn put_word(&mut self, word: &[u8]) -> Result<(), AllocError>
        ensures { OnOk result (self.new ≡ self.old ++ codes " " ++ escaped_text word.now) }
    {
        self.push_all(b" ")?;
        self.put(word)
    }

    /// The line's bytes with its line feed.
    pub fn end(self) -> Result<Vec<u8>, AllocError>
        ensures text { IfOk result (λ bytes. bytes.items ≡ self ++ 10 ∷ []) }
        ensures one { IfOk result (λ bytes. IsOneLine bytes.items) }
    {
        let Line { mut text } = self;
        text.push(b'\n')?;
        Ok(text)
    }
}
