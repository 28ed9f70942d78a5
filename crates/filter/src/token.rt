// The tokens of filter expressions.

ghost use Rattle.std.specs.Prelude.{◌≡◌, ◌<◌, ◌^◌, ◌+◌, ◌≤◌, drop, length, slice_index, true, IfSome, IfOk};
ghost use Rattle.std.specs.Option.{option_map};
ghost use Rattle.filter.specs.Answers.{Reads};
ghost use Rattle.filter.specs.Tokens.{begins_with, lexeme_of, sign_at, closed_at, token_at};

use crate::error::{Fault, FaultAt};
use crate::lexis::{is_quote, is_word_byte, word_len};
use crate::quoted::{bad_escape, quoted_len};

/// A token that is no word and no text.
#[derive(Clone, Copy, Debug, PartialEq, Eq)]
pub(crate) enum Sign {
    Opens,
    Closes,
    Equal,
    Unequal,
    Less,
    AtMost,
    Greater,
    AtLeast,
    Ampersand,
}

/// A token; a text in quotes is the bytes between them, with their backslashes.
#[derive(Clone, Copy)]
pub(crate) enum Token<'a> {
    Word(&'a [u8]),
    Quoted(&'a [u8]),
    Sign(Sign),
}

/// Whether bytes begin with one.
fn begins_with(byte: u8, bytes: &[u8]) -> bool
    ensures value { result ≡ begins_with byte bytes.now }
    ensures some { result ≡ true → 0 < length bytes.now }
{
    bytes.first() == Some(&byte)
}

/// The sign that a byte begins, also one that stands for a word, and how many bytes it has after the first.
fn sign_at(byte: u8, rest: &[u8]) -> Option<(Token<'static>, usize)>
    ensures value { option_map (λ x. (lexeme_of x.0, x.1)) result ≡ sign_at byte rest.now }
    ensures within { IfSome result (λ x. x.1 ≤ length rest.now) }
{
    let is_double = begins_with(byte, rest);
    let before_equal = begins_with(b'=', rest);
    match byte {
        b'(' => Some((Token::Sign(Sign::Opens), 0)),
        b')' => Some((Token::Sign(Sign::Closes), 0)),
        b'=' if before_equal => Some((Token::Sign(Sign::Equal), 1)),
        b'=' => Some((Token::Sign(Sign::Equal), 0)),
        b'!' if before_equal => Some((Token::Sign(Sign::Unequal), 1)),
        b'!' => Some((Token::Word(b"not".as_slice()), 0)),
        b'<' if before_equal => Some((Token::Sign(Sign::AtMost), 1)),
        b'<' => Some((Token::Sign(Sign::Less), 0)),
        b'>' if before_equal => Some((Token::Sign(Sign::AtLeast), 1)),
        b'>' => Some((Token::Sign(Sign::Greater), 0)),
        b'&' if is_double => Some((Token::Word(b"and".as_slice()), 1)),
        b'&' => Some((Token::Sign(Sign::Ampersand), 0)),
        b'|' if is_double => Some((Token::Word(b"or".as_slice()), 1)),
        _ => None,
    }
}

/// The token that begins at a place, and how many bytes it has after its first.
pub(crate) fn token_at(text: &[u8], place: usize) -> Result<(Token<'_>, usize), FaultAt>
    requires inside { place < length text.now }
    requires short { length text.now < 2 ^ 62 }
    ensures value { Reads (λ x. (lexeme_of x.0, x.1)) result (token_at place (slice_index text.now place) (drop (place + 1) text.now)) }
    ensures within { IfOk result (λ x. place + x.1 < length text.now) }
{
    let first = text[place];
    let rest = &text[place + 1..];
    if is_word_byte(first) {
        let more = word_len(rest);
        return Ok((Token::Word(&text[place..place + 1 + more]), more));
    }
    if is_quote(first) {
        return closed_at(place, rest, quoted_len(first, rest));
    }
    sign_at(first, rest).ok_or(FaultAt {
        fault: Fault::BadByte,
        place,
    })
}

/// The text in quotes of which n bytes stand before the quote that closes it.
fn closed_at(place: usize, rest: &[u8], len: Option<usize>) -> Result<(Token<'_>, usize), FaultAt>
    requires short { place + length rest.now < 2 ^ 62 }
    requires inside { IfSome len (λ n. n < length rest.now) }
    ensures value { Reads (λ x. (lexeme_of x.0, x.1)) result (closed_at place rest.now len) }
    ensures within { IfOk result (λ x. x.1 ≤ length rest.now) }
{
    let Some(len) = len else {
        return Err(FaultAt {
            fault: Fault::Unquoted,
            place,
        });
    };
    let inside = &rest[..len];
    match bad_escape(place + 1, inside) {
        Some(place) => Err(FaultAt {
            fault: Fault::BadEscape,
            place,
        }),
        None => Ok((Token::Quoted(inside), len + 1)),
    }
}
