// Words of arguments: `arg`, a number, and a suffix.

ghost use Rattle.std.specs.Prelude.{◌≡◌, true, drop, None, Some, if◌then◌else◌};
ghost use Rattle.std.specs.Option.{option_map};
ghost use Rattle.std.specs.List.{list_all};
ghost use Rattle.signature.specs.Name.{is_digit};
ghost use Rattle.match_key.specs.Rows.{row_of};
ghost use Rattle.match_key.specs.Key.{digits_of, after_digits, arg_number, is_of_arg};
ghost use Rattle.filter.specs.WordTables.{arg_suffixes, with_number, arg_parts, arg_word};

use crate::error::Fault;
use match_key::ArgNumber;

/// What follows the number of an argument.
#[derive(Clone, Copy, Debug, PartialEq, Eq)]
pub(crate) enum ArgSuffix {
    Bare,
    Path,
    Namespace,
    Object,
    Signature,
}

/// What follows `arg`, where a word begins so.
fn after_arg(word: &[u8]) -> Option<&[u8]>
    ensures { option_map (λ rest. rest.now) result ≡ (if is_of_arg word.now then Some (drop 3 word.now) else None) }
{
    match word {
        [b'a', b'r', b'g', rest @ ..] => Some(rest),
        _ => None,
    }
}

fn is_digit(byte: u8) -> bool
    ensures { result ≡ is_digit byte }
{
    byte >= b'0' && byte <= b'9'
}

/// The longest run of digits in front, and what follows it.
fn split_digits(bytes: &[u8]) -> (&[u8], &[u8])
    ensures digits { result.0.now ≡ digits_of bytes.now }
    ensures rest { result.1.now ≡ after_digits bytes.now }
{
    for (i, byte) in bytes.iter().enumerate() {
        if !is_digit(*byte) {
            return (&bytes[..i], &bytes[i..]);
        }
    }
    (bytes, &[])
}

/// The number of an argument: one digit, or two of which the first isn't 0.
fn arg_number(digits: &[u8]) -> Option<ArgNumber>
    requires { list_all is_digit digits.now ≡ true }
    ensures { result ≡ arg_number digits.now }
{
    match digits {
        [d] => ArgNumber::new(*d - b'0'),
        [b'0', _] => None,
        [d, e] => ArgNumber::new(10 * (*d - b'0') + (*e - b'0')),
        _ => None,
    }
}

fn suffix_named(suffix: &[u8]) -> Option<ArgSuffix>
    ensures { result ≡ row_of arg_suffixes suffix.now }
{
    if suffix == b"".as_slice() {
        Some(ArgSuffix::Bare)
    } else if suffix == b"path".as_slice() {
        Some(ArgSuffix::Path)
    } else if suffix == b"namespace".as_slice() {
        Some(ArgSuffix::Namespace)
    } else if suffix == b"object".as_slice() {
        Some(ArgSuffix::Object)
    } else if suffix == b"signature".as_slice() {
        Some(ArgSuffix::Signature)
    } else {
        None
    }
}

/// The argument's number and suffix, from after `arg` on.
fn arg_parts(rest: &[u8]) -> Result<(ArgNumber, ArgSuffix), Fault>
    ensures { result ≡ arg_parts (digits_of rest.now) (after_digits rest.now) }
{
    let (digits, suffix) = split_digits(rest);
    if digits.is_empty() {
        return Err(Fault::UnknownWord);
    }
    let suffix = suffix_named(suffix).ok_or(Fault::UnknownWord)?;
    let number = arg_number(digits).ok_or(Fault::ArgNumber)?;
    Ok((number, suffix))
}

/// The argument's number and suffix, of a word of `arg`.
pub(crate) fn arg_word(word: &[u8]) -> Result<(ArgNumber, ArgSuffix), Fault>
    ensures { result ≡ arg_word word.now }
{
    match after_arg(word) {
        Some(rest) => arg_parts(rest),
        None => Err(Fault::UnknownWord),
    }
}
