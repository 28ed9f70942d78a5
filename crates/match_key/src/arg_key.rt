// The keys of arguments: `arg`, a number, and a suffix.

ghost use Rattle.std.specs.Prelude.{◌≡◌, true, drop, None, Some, option_map, if◌then◌else◌};
ghost use Rattle.std.specs.List.{list_all};
ghost use Rattle.signature.specs.Name.{is_digit};
ghost use Rattle.match_key.specs.Rows.{row_of};
ghost use Rattle.match_key.specs.Key.{arg_suffixes, digits_of, after_digits, arg_number, numbered_key, arg_key, is_of_arg};

use crate::arg_number::{ArgNumber, MAX_ARG};
use crate::error::RuleError;
use crate::key::Key;
use crate::relation::Relation;
use crate::source::Source;

/// What follows `arg`, where a word begins so.
pub(crate) fn after_arg(word: &[u8]) -> Option<&[u8]>
    ensures { option_map (λ rest. rest.now) result ≡ (if is_of_arg word.now then Some (drop 3 word.now) else None) }
{
    match word {
        [b'a', b'r', b'g', rest @ ..] => Some(rest),
        _ => None,
    }
}

fn is_digit(byte: u8) -> bool
    ensures { result ≡ is_digit byte }
{
    byte >= b'0' && byte <= b'9'
}

/// The longest run of digits in front, and what follows it.
fn split_digits(bytes: &[u8]) -> (&[u8], &[u8])
    ensures digits { result.0.now ≡ digits_of bytes.now }
    ensures rest { result.1.now ≡ after_digits bytes.now }
{
    for (i, byte) in bytes.iter().enumerate() {
        if !is_digit(*byte) {
            return (&bytes[..i], &bytes[i..]);
        }
    }
    (bytes, &[])
}

/// The number of an argument: one digit, or two of which the first isn't 0.
fn arg_number(digits: &[u8]) -> Option<ArgNumber>
    requires { list_all is_digit digits.now ≡ true }
    ensures { result ≡ arg_number digits.now }
{
    match digits {
        [d] => ArgNumber::new(*d - b'0'),
        [b'0', _] => None,
        [d, e] => ArgNumber::new(10 * (*d - b'0') + (*e - b'0')),
        _ => None,
    }
}

/// The relation that a suffix means, and the greatest argument's number that it may have.
fn relation_of_suffix(suffix: &[u8]) -> Option<(Relation, u8)>
    ensures { result ≡ row_of arg_suffixes suffix.now }
{
    if suffix == b"".as_slice() {
        Some((Relation::Equal, MAX_ARG))
    } else if suffix == b"path".as_slice() {
        Some((Relation::NestedPath, MAX_ARG))
    } else if suffix == b"namespace".as_slice() {
        Some((Relation::NameNamespace, 0))
    } else {
        None
    }
}

/// The key of an argument's number, where the number isn't above the suffix's greatest.
fn numbered_key(
    relation: Relation,
    greatest: u8,
    number: Option<ArgNumber>,
) -> Result<Key, RuleError>
    ensures { result ≡ numbered_key (relation, greatest) number }
{
    match number {
        Some(n) if n.number() <= greatest => Ok(Key::Compares(Source::Arg(n), relation)),
        _ => Err(RuleError::ArgNumber),
    }
}

/// The key of a word from after its `arg` on.
pub(crate) fn arg_key(rest: &[u8]) -> Result<Key, RuleError>
    ensures { result ≡ arg_key (digits_of rest.now) (after_digits rest.now) }
{
    let (digits, suffix) = split_digits(rest);
    if digits.is_empty() {
        return Err(RuleError::UnknownKey);
    }
    match relation_of_suffix(suffix) {
        None => Err(RuleError::UnknownKey),
        Some((relation, greatest)) => numbered_key(relation, greatest, arg_number(digits)),
    }
}
