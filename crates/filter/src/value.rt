// The values that tests compare with.

ghost use Rattle.std.specs.Prelude.{◌≡◌};
ghost use Rattle.std.specs.String.{string_bytes};
ghost use Rattle.std.specs.Str.{is_utf8};
ghost use Rattle.filter.specs.Answers.{Gives};
ghost use Rattle.filter.specs.Tokens.{lexeme_of};
ghost use Rattle.filter.specs.Values.{begins_number, begins_text, is_reserved, truth_named, text_value, number_value, word_value, value_of};

use crate::error::{Fault, StepError};
use crate::integer::Integer;
use crate::quoted::without_escapes;
use crate::text::Text;
use crate::token::Token;
use std::alloc::Global;

/// What stands after an operator.
#[derive(Debug, Drop)]
pub(crate) enum Value {
    Text(Text),
    Integer(Integer),
    Truth(bool),
}

fn begins_number(word: &[u8]) -> bool
    ensures { result ≡ begins_number word.now }
{
    match word.first() {
        Some(byte) => byte.is_ascii_digit() || *byte == b'-',
        None => false,
    }
}

fn begins_text(word: &[u8]) -> bool
    ensures { result ≡ begins_text word.now }
{
    match word.first() {
        Some(byte) => {
            byte.is_ascii_lowercase()
                || byte.is_ascii_uppercase()
                || *byte == b'_'
                || *byte == b'/'
                || *byte == b':'
        }
        None => false,
    }
}

/// Whether a word is one of the grammar's own, which is a text only in quotes.
fn is_reserved(word: &[u8]) -> bool
    ensures { result ≡ is_reserved word.now }
{
    word == b"and".as_slice()
        || word == b"or".as_slice()
        || word == b"not".as_slice()
        || word == b"has".as_slice()
        || word == b"is".as_slice()
        || word == b"begins".as_slice()
        || word == b"ends".as_slice()
}

fn truth_named(word: &[u8]) -> Option<bool>
    ensures { result ≡ truth_named word.now }
{
    if word == b"true".as_slice() {
        Some(true)
    } else if word == b"false".as_slice() {
        Some(false)
    } else {
        None
    }
}

/// The text of bytes.
fn text_value(bytes: Vec<u8>) -> Result<Value, Fault>
    ensures { result ≡ text_value bytes.items }
{
    let Ok(text) = String::from_utf8(bytes) else {
        return Err(Fault::BadValue);
    };
    Ok(Value::Text(Text::new(text)))
}

/// The value of a word that begins as a number does.
fn number_value(word: &[u8]) -> Result<Value, Fault>
    ensures { result ≡ number_value word.now }
{
    match Integer::of_word(word) {
        Some(integer) => Ok(Value::Integer(integer)),
        None => Err(Fault::BadNumber),
    }
}

/// The value that a word is.
fn word_value(alloc: Global, word: &[u8]) -> Result<Value, StepError>
    ensures { Gives (λ x. x) result (word_value word.now) }
{
    if begins_number(word) {
        return Ok(number_value(word)?);
    }
    if let Some(truth) = truth_named(word) {
        return Ok(Value::Truth(truth));
    }
    if is_reserved(word) || !begins_text(word) {
        return Err(StepError::Fault(Fault::BadValue));
    }
    let text = word.to_vec(alloc)?;
    Ok(text_value(text)?)
}

impl Value {
    /// The value that a token is.
    pub(crate) fn of_token(alloc: Global, token: Token<'_>) -> Result<Value, StepError>
        ensures { Gives (λ x. x) result (value_of (lexeme_of token.entry)) }
    {
        match token {
            Token::Word(word) => word_value(alloc, word),
            Token::Quoted(inside) => {
                let text = without_escapes(alloc, inside)?;
                Ok(text_value(text)?)
            }
            Token::Sign(_) => Err(StepError::Fault(Fault::BadValue)),
        }
    }
}
