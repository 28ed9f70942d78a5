// What some words of the command say: options' words, and names.

ghost use Rattle.std.specs.Prelude.{◌≡◌, ◌++◌, ◌∷◌, [], IfOk, OnOk, length, option_map, slice_get};
ghost use Rattle.watch_command.specs.Sayings.{saying_of, sayings_of, texts};
ghost use Rattle.watch_command.specs.Options.{word_of, names};

use crate::words::{Key, Word};
use std::alloc::{AllocError, Global};

/// The word of an option among some words.
pub(crate) fn word_of<'a>(words: &[Word<'a>], key: Key) -> Option<&'a str>
    ensures { option_map (λ text. text.now) result ≡ word_of key (sayings_of words.now) }
{
    for word in words {
        if let Some(text) = word.text_of(key) {
            return Some(text);
        }
    }
    None
}

/// The first of the words that are no options.
pub(crate) fn first_name<'a>(words: &[Word<'a>]) -> Option<&'a str>
    ensures { option_map (λ text. text.now) result ≡ slice_get (names (sayings_of words.now)) 0 }
{
    for word in words {
        if let Some(name) = word.name() {
            return Some(name);
        }
    }
    None
}

/// The words that are no options.
pub(crate) fn names_of<'a>(alloc: Global, words: &[Word<'a>]) -> Result<Vec<&'a str>, AllocError>
    ensures { IfOk result (λ found. texts found.items ≡ names (sayings_of words.now)) }
{
    let mut found = Vec::new(alloc);
    for word in words {
        put_name(&mut found, word)?;
    }
    Ok(found)
}

/// Adds a word if it is no option.
fn put_name<'a>(found: &mut Vec<&'a str>, word: &Word<'a>) -> Result<(), AllocError>
    ensures { OnOk result (texts found.new.items ≡ texts found.old.items ++ names (saying_of word.now ∷ [])) }
{
    if let Some(name) = word.name() {
        found.push(name)?;
    }
    Ok(())
}

/// How many words are no options.
pub(crate) fn name_count(words: &[Word<'_>]) -> usize
    ensures { result ≡ length (names (sayings_of words.now)) }
{
    let mut count = 0;
    for word in words {
        if word.name().is_some() {
            count += 1;
        }
    }
    count
}
