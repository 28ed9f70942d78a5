// The basic types whose values are texts.

ghost use Rattle.std.specs.Prelude.{◌≡◌, ◌*◌, ◌≤◌, ◌<◌, ◌^◌, ◌==◌, length, option_map};
ghost use Rattle.std.specs.List.{list_all, list_any};
ghost use Rattle.message_value.specs.Fits.{is_text_of};
ghost use Rattle.message_value.specs.Reading.{text_fault, text_at, long_text_at, short_text_at, text_value_at};
ghost use Rattle.message_value.specs.Forms.{LendsText, is_plain};
ghost use Rattle.message_value.specs.Answers.{Reads};
ghost use Rattle.message_value.specs.TextTypes.{text_code};
ghost use Rattle.message_value.specs.Value.{text};

use crate::cursor::Cursor;
use crate::error::MsgError;
use crate::order::Order;
use memchr::memchr;
use signature::{Signature, check_path_bytes};
use std::str::from_utf8_unchecked;

/// For fewer bytes a look at each of them takes less time than a search, which has to begin and to end.
const SHORT: usize = 64;

/// A basic type whose values are texts.
#[derive(Clone, Copy, Debug)]
pub enum TextType {
    String,
    ObjectPath,
    Signature,
}

fn is_plain(byte: u8) -> bool
    ensures { result ≡ is_plain byte }
{
    matches!(byte, 1..=127)
}

/// Whether a byte is zero, by a look at each without an early end, so that the processor looks at many at once.
fn any_zero(bytes: &[u8]) -> bool
    ensures { result ≡ list_any (λ byte. byte == 0) bytes.now }
{
    let mut found = false;
    for byte in bytes {
        found |= *byte == 0;
    }
    found
}

/// Whether a byte is zero.
fn has_zero(bytes: &[u8]) -> bool
    ensures { result ≡ list_any (λ byte. byte == 0) bytes.now }
{
    if bytes.len() < SHORT {
        return any_zero(bytes);
    }
    memchr(0, bytes).is_some()
}

/// Whether each byte is an ASCII character other than zero, by a look at each without an early end.
#[inline(always)]
fn each_is_plain(bytes: &[u8]) -> bool
    ensures { result ≡ list_all is_plain bytes.now }
{
    let mut plain = true;
    for byte in bytes {
        plain &= is_plain(*byte);
    }
    plain
}

/// Whether the first and the last few bytes are plain, which are all of them.
#[inline(always)]
fn both_ends_are_plain(bytes: &[u8], few: usize) -> bool
    requires few { few ≤ length bytes.now }
    requires all { length bytes.now ≤ 2 * few }
    ensures { result ≡ list_all is_plain bytes.now }
{
    each_is_plain(&bytes[..few]) & each_is_plain(&bytes[bytes.len() - few..])
}

/// How many bytes the processor looks at together.
const AT_ONCE: usize = 16;

/// Whether at least sixteen bytes are plain: sixteen from the start, and so on, and then the last sixteen.
fn many_are_plain(bytes: &[u8]) -> bool
    requires { 16 ≤ length bytes.now }
    ensures { result ≡ list_all is_plain bytes.now }
{
    let mut plain = true;
    for i in 0..bytes.len() / AT_ONCE {
        plain &= each_is_plain(&bytes[AT_ONCE * i..AT_ONCE * i + AT_ONCE]);
    }
    plain & each_is_plain(&bytes[bytes.len() - AT_ONCE..])
}

/// Whether each byte is an ASCII character other than zero. Such bytes are UTF-8, and most texts have no others. A few
/// bytes of a number that is known are looked at together; where the length is no multiple of that number, some are
/// looked at twice.
fn is_plain_ascii(bytes: &[u8]) -> bool
    ensures { result ≡ list_all is_plain bytes.now }
{
    match bytes.len() {
        16.. => many_are_plain(bytes),
        8..16 => both_ends_are_plain(bytes, 8),
        4..8 => both_ends_are_plain(bytes, 4),
        _ => each_is_plain(bytes),
    }
}

fn plain_text(bytes: &[u8]) -> Option<&str>
    ensures { LendsText (is_text_of 115 bytes.now) bytes.now (option_map (λ text. text.now) result) }
{
    if is_plain_ascii(bytes) {
        return Some(unsafe { from_utf8_unchecked(bytes) });
    }
    match std::str::from_utf8(bytes) {
        Err(_) => None,
        Ok(_) if has_zero(bytes) => None,
        Ok(text) => Some(text),
    }
}

fn path_text(bytes: &[u8]) -> Option<&str>
    ensures { LendsText (is_text_of 111 bytes.now) bytes.now (option_map (λ text. text.now) result) }
{
    // A path is ASCII.
    if check_path_bytes(bytes) {
        Some(unsafe { from_utf8_unchecked(bytes) })
    } else {
        None
    }
}

fn signature_text(bytes: &[u8]) -> Option<&str>
    ensures { LendsText (is_text_of 103 bytes.now) bytes.now (option_map (λ text. text.now) result) }
{
    // A signature is ASCII.
    match Signature::read(bytes) {
        Ok(_) => Some(unsafe { from_utf8_unchecked(bytes) }),
        Err(_) => None,
    }
}

impl TextType {
    /// The basic code of the type.
    pub fn code(self) -> u8
        ensures { result ≡ text_code self }
    {
        match self {
            TextType::String => b's',
            TextType::ObjectPath => b'o',
            TextType::Signature => b'g',
        }
    }

    /// The text that the bytes are, where they have this type's form.
    fn lend(self, bytes: &[u8]) -> Option<&str>
        ensures { LendsText (is_text_of (text_code self) bytes.now) bytes.now (option_map (λ text. text.now) result) }
    {
        match self {
            TextType::String => plain_text(bytes),
            TextType::ObjectPath => path_text(bytes),
            TextType::Signature => signature_text(bytes),
        }
    }

    /// The fault of bytes that aren't of this type's form.
    fn fault(self) -> MsgError
        ensures { result ≡ text_fault (text_code self) }
    {
        match self {
            TextType::String => MsgError::BadText,
            TextType::ObjectPath => MsgError::BadName,
            TextType::Signature => MsgError::BadSignature,
        }
    }

    /// A text of `len` bytes with its zero byte, as one item.
    #[tactic(auto, unfolding(crate::specs::Reading::text_at))]
    fn read<'a>(self, cursor: &mut Cursor<'a>, len: usize) -> Result<&'a str, MsgError>
        requires { len < 2 ^ 32 }
        ensures { Reads (λ text. text.now) result cursor.new (text_at (text_code self) len cursor.old) }
    {
        let item = cursor.item(len + 1)?;
        let text = self.lend(&item[..len]).ok_or(self.fault())?;
        if item[len] != 0 {
            return Err(MsgError::BadText);
        }
        Ok(text)
    }

    /// A text whose length is a number of four bytes.
    #[tactic(auto, unfolding(crate::specs::Reading::long_text_at))]
    fn read_long<'a>(self, cursor: &mut Cursor<'a>, order: Order) -> Result<&'a str, MsgError>
        ensures { Reads (λ text. text.now) result cursor.new (long_text_at order (text_code self) cursor.old) }
    {
        let len = cursor.word(order)?;
        self.read(cursor, len as usize)
    }

    /// A signature, whose length is a byte.
    #[tactic(auto, unfolding(crate::specs::Reading::short_text_at))]
    fn read_short<'a>(cursor: &mut Cursor<'a>) -> Result<&'a str, MsgError>
        ensures { Reads (λ text. text.now) result cursor.new (short_text_at cursor.old) }
    {
        let len = cursor.byte()?;
        TextType::Signature.read(cursor, usize::from(len))
    }

    /// A value of this type after its padding.
    #[tactic(auto, unfolding(crate::specs::Reading::text_value_at))]
    pub fn read_value<'a>(self, cursor: &mut Cursor<'a>, order: Order) -> Result<&'a str, MsgError>
        ensures { Reads (λ t. text t.now) result cursor.new (text_value_at order (text_code self) cursor.old) }
    {
        match self {
            TextType::Signature => TextType::read_short(cursor),
            TextType::String | TextType::ObjectPath => self.read_long(cursor, order),
        }
    }
}
