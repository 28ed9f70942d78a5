// The keys of rules.

ghost use Rattle.std.specs.Prelude.{◌≡◌};
ghost use Rattle.match_key.specs.Rows.{row_of};
ghost use Rattle.match_key.specs.Key.{key_words, key_named, once_key, is_twice, path_key, path_namespace_key, is_path_twice};

use crate::arg_key::{after_arg, arg_key};
use crate::error::RuleError;
use crate::relation::Relation;
use crate::source::{Field, Source};

/// What a part of a rule's text is about (D-Bus Specification, "Match Rules").
#[derive(Clone, Copy, Debug, PartialEq, Eq)]
pub enum Key {
    Kind,
    Sender,
    Eavesdrop,
    Compares(Source, Relation),
}

/// The key that is the whole word, as `type` is.
fn key_of_word(word: &[u8]) -> Option<Key>
    ensures { result ≡ row_of key_words word.now }
{
    if word == b"type".as_slice() {
        Some(Key::Kind)
    } else if word == b"sender".as_slice() {
        Some(Key::Sender)
    } else if word == b"interface".as_slice() {
        Some(Key::Compares(Source::Header(Field::Interface), Relation::Equal))
    } else if word == b"member".as_slice() {
        Some(Key::Compares(Source::Header(Field::Member), Relation::Equal))
    } else if word == b"path".as_slice() {
        Some(Key::path())
    } else if word == b"path_namespace".as_slice() {
        Some(Key::path_namespace())
    } else if word == b"destination".as_slice() {
        Some(Key::Compares(Source::Header(Field::Destination), Relation::Equal))
    } else if word == b"eavesdrop".as_slice() {
        Some(Key::Eavesdrop)
    } else {
        None
    }
}

impl Key {
    /// The key `path`.
    pub fn path() -> Self
        ensures { result ≡ path_key }
    {
        Key::Compares(Source::Header(Field::Path), Relation::Equal)
    }

    /// The key `path_namespace`.
    pub fn path_namespace() -> Self
        ensures { result ≡ path_namespace_key }
    {
        Key::Compares(Source::Header(Field::Path), Relation::PathNamespace)
    }

    /// The key of a word.
    pub fn of_word(word: &[u8]) -> Result<Self, RuleError>
        ensures { result ≡ key_named word.now }
    {
        if let Some(key) = key_of_word(word) {
            return Ok(key);
        }
        match after_arg(word) {
            Some(rest) => arg_key(rest),
            None => Err(RuleError::UnknownKey),
        }
    }

    /// The key that stands for all those of which a rule may have only one.
    fn once(self) -> Key
        ensures { result ≡ once_key self }
    {
        match self {
            Key::Compares(source, relation) => Key::Compares(source, relation.once()),
            key => key,
        }
    }

    /// Whether a rule that has it may not have the other.
    pub fn is_twice(self, other: Key) -> bool
        ensures { result ≡ is_twice self other }
    {
        self.once() == other.once()
    }

    /// Whether one is `path` and the other `path_namespace`.
    pub fn is_path_twice(self, other: Key) -> bool
        ensures { result ≡ is_path_twice self other }
    {
        self == Key::path() && other == Key::path_namespace()
            || self == Key::path_namespace() && other == Key::path()
    }
}
