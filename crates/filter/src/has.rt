// What stands after `has` and `is`.

ghost use Rattle.std.specs.Prelude.{◌≡◌};
ghost use Rattle.filter.specs.WordTables.{field_of_text, field_named, has_arg, has_test, type_of_code, type_named};

use crate::arg_word::{ArgSuffix, arg_word};
use crate::error::Fault;
use crate::opening::text_field_named;
use crate::test::{ArgType, Field, Test, TextField};

pub(crate) fn field_of_text(field: TextField) -> Field
    ensures { result ≡ field_of_text field }
{
    match field {
        TextField::Path => Field::Path,
        TextField::Interface => Field::Interface,
        TextField::Member => Field::Member,
        TextField::ErrorName => Field::ErrorName,
        TextField::Destination => Field::Destination,
        TextField::Sender => Field::Sender,
    }
}

/// The field that a word names.
fn field_named(word: &[u8]) -> Option<Field>
    ensures { result ≡ field_named word.now }
{
    if let Some(field) = text_field_named(word) {
        return Some(field_of_text(field));
    }
    if word == b"reply_serial".as_slice() {
        Some(Field::ReplySerial)
    } else {
        None
    }
}

/// The test of a word after `has`.
pub(crate) fn has_test(word: &[u8]) -> Result<Test, Fault>
    ensures { result ≡ has_test word.now }
{
    if let Some(field) = field_named(word) {
        return Ok(Test::HasField(field));
    }
    match arg_word(word) {
        Ok((n, ArgSuffix::Bare)) => Ok(Test::HasArg(n)),
        Err(Fault::ArgNumber) => Err(Fault::ArgNumber),
        _ => Err(Fault::BadField),
    }
}

/// The type that a byte stands for after `is`: as in a signature, and `r` for a struct.
fn type_of_code(code: u8) -> Option<ArgType>
    ensures { result ≡ type_of_code code }
{
    match code {
        b'y' => Some(ArgType::Byte),
        b'b' => Some(ArgType::Boolean),
        b'n' => Some(ArgType::Int16),
        b'q' => Some(ArgType::Uint16),
        b'i' => Some(ArgType::Int32),
        b'u' => Some(ArgType::Uint32),
        b'x' => Some(ArgType::Int64),
        b't' => Some(ArgType::Uint64),
        b'd' => Some(ArgType::Double),
        b's' => Some(ArgType::String),
        b'o' => Some(ArgType::ObjectPath),
        b'g' => Some(ArgType::Signature),
        b'h' => Some(ArgType::UnixFd),
        b'a' => Some(ArgType::Array),
        b'v' => Some(ArgType::Variant),
        b'r' => Some(ArgType::Struct),
        _ => None,
    }
}

/// The type that a word names after `is`.
pub(crate) fn type_named(word: &[u8]) -> Option<ArgType>
    ensures { result ≡ type_named word.now }
{
    match word {
        [code] => type_of_code(*code),
        _ => None,
    }
}
