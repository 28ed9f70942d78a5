// What the words of the command ask for.

use crate::option_values::{edition_of, number};
use crate::sayings::{first_name, name_count, names_of, word_of};
use crate::words::{Key, Word, has, read_words};
use std::alloc::{AllocError, Global};
use std::marker::Model;
use summary::Edition;

/// What the words of the command ask for.
#[derive(Drop)]
pub struct Options<'a> {
    words: Vec<Word<'a>>,
}

impl<'a> Model for Options<'a> {
    ghost use Rattle.std.specs.Prelude.{List};
    ghost use Rattle.watch_command.specs.Sayings.{Saying, sayings_of};

    ghost Value = { List Saying };

    ghost view = { λ o. sayings_of o.words.items };
}

impl<'a> Options<'a> {
    ghost use Rattle.std.specs.Prelude.{◌≡◌, ◌<◌, ◌≤◌, List, true, false, Some, None, IfOk, IfSome, IfNone, IsSomeAnd, drop, option_map, option_and_then, slice_get, if◌then◌else◌};
    ghost use Rattle.std.specs.List.{list_any};
    ghost use Rattle.std.specs.Str.Parse.{digits_value};
    ghost use Rattle.watch_command.specs.declared.words.Key.TheVariants.{Read};
    ghost use Rattle.watch_command.specs.Sayings.{Saying, sayings_in, texts};
    ghost use Rattle.watch_command.specs.Options.{has, is_said, word_of, names, excludes, needs, needs_any, fits_source, fits_form, fits_calls, fits_why, explained_rules, is_monitor, is_summary, wants_all, excludes_forms, excludes_lines, address_count, has_names, fits, has_value, edition_of};

    /// What some words ask for, if they are a row of the command line: `ADDRESS [RULE ..]` or `--read FILE [RULE ..]`, and
    /// options that go together.
    pub fn read(alloc: Global, words: &[&'a str]) -> Result<Option<Options<'a>>, AllocError>
        // What they say is the options' value, and a row.
        ensures found { IfOk result (λ read. IfSome read (λ options. (sayings_in (texts words.now) ≡ Some options) × (fits options ≡ true))) }
        // Words that say a row are read, unless the word of an option is no number or edition.
        ensures refused { IfOk result (λ read. IfNone read ((said : List Saying) → sayings_in (texts words.now) ≡ Some said → fits said ≡ true → has_value said ≡ true)) }
    {
        let Some(words) = read_words(alloc, words)? else {
            return Ok(None);
        };
        let options = Options { words };
        if options.is_row() {
            Ok(Some(options))
        } else {
            Ok(None)
        }
    }

    /// Whether an option is there.
    pub fn has(&self, key: Key) -> bool
        ensures { result ≡ has key self.now }
    {
        has(&self.words, key)
    }

    /// The word of an option, if it is there.
    pub fn text_of(&self, key: Key) -> Option<&'a str>
        ensures { option_map (λ text. text.now) result ≡ word_of key self.now }
    {
        word_of(&self.words, key)
    }

    /// Whether messages to others are asked for too.
    pub(crate) fn is_monitor(&self) -> bool
        ensures { result ≡ is_monitor self.now }
    {
        self.has(Key::Monitor) || self.has(Key::Calls)
    }

    /// Whether all names and their owners are asked for.
    pub(crate) fn wants_names(&self) -> bool {
        self.has(Key::Names) || self.is_summary()
    }

    /// Whether a table of who sent what is asked for.
    pub(crate) fn is_summary(&self) -> bool
        ensures { result ≡ is_summary self.now }
    {
        self.has(Key::Summary) || self.has(Key::Top)
    }

    /// The number of an option, if it is there and says one above 0.
    pub fn number_of(&self, key: Key) -> Option<u64>
        ensures { IfSome result (λ n. IsSomeAnd (word_of key self.now) (λ word. (n ≡ digits_value 10 word) × (0 < n))) }
    {
        number(self.text_of(key)?)
    }

    /// The edition of the program's images, if one is said.
    pub fn edition(&self) -> Option<Edition>
        ensures { result ≡ option_and_then edition_of (word_of Key.Edition self.now) }
    {
        edition_of(self.text_of(Key::Edition)?)
    }

    /// The address of the bus, if there is no capture.
    pub fn address(&self) -> Option<&'a str>
        ensures { option_map (λ text. text.now) result ≡ (if has Read self.now then None else slice_get (names self.now) 0) }
    {
        if self.has(Key::Read) {
            return None;
        }
        first_name(&self.words)
    }

    /// The rules: the words that are no options, but for the address.
    pub fn rules(&self, alloc: Global) -> Result<Vec<&'a str>, AllocError>
        ensures { IfOk result (λ rules. texts rules.items ≡ drop (address_count self.now) (names self.now)) }
    {
        let mut rules = names_of(alloc, &self.words)?;
        if self.has(Key::Read) || rules.is_empty() {
            return Ok(rules);
        }
        rules.remove(0);
        Ok(rules)
    }

    /// How many of the words that are no options aren't rules: the address of a bus.
    fn address_count(&self) -> usize
        ensures { result ≡ address_count self.now }
    {
        if self.has(Key::Read) { 0 } else { 1 }
    }

    fn is_row(&self) -> bool
        ensures found { result ≡ true → fits self.now ≡ true }
        ensures refused { result ≡ false → fits self.now ≡ true → has_value self.now ≡ true }
    {
        self.fits() && self.has_values()
    }

    /// Whether the options go together, and there are as many other words as there may be.
    fn fits(&self) -> bool
        ensures { result ≡ fits self.now }
    {
        self.fits_source()
            && self.fits_form()
            && self.fits_calls()
            && self.fits_why()
            && self.has_names()
    }

    /// Whether the options go with a filter expression, with a program that the bus runs, and with a capture.
    fn fits_source(&self) -> bool
        ensures { result ≡ fits_source self.now }
    {
        self.needs(Key::Edition, Key::Program)
            && self.needs_any(Key::Attach, &[Key::Program, Key::Filter])
            && self.excludes(
                Key::Filter,
                &[Key::Program, Key::Edition, Key::Rules, Key::Of],
            )
            && self.excludes(
                Key::Attach,
                &[
                    Key::Monitor,
                    Key::Invert,
                    Key::Rules,
                    Key::Of,
                    Key::Read,
                    Key::Calls,
                ],
            )
            && self.excludes(
                Key::Read,
                &[Key::Monitor, Key::Seconds, Key::Names, Key::Of, Key::Top],
            )
            && self.excludes(Key::Of, &[Key::Rules])
    }

    /// Whether the options go with those that say how messages are written.
    fn fits_form(&self) -> bool
        ensures { result ≡ fits_form self.now }
    {
        self.excludes_forms(Key::Rules)
            && self.excludes_forms(Key::Of)
            && self.excludes_lines(Key::Summary)
            && self.excludes_lines(Key::Top)
            && self.excludes(
                Key::Hex,
                &[
                    Key::Json,
                    Key::Write,
                    Key::Time,
                    Key::Clock,
                    Key::Names,
                    Key::Full,
                ],
            )
            && self.excludes(
                Key::Json,
                &[Key::Write, Key::Time, Key::Clock, Key::Names, Key::Full],
            )
            && self.excludes(Key::Write, &[Key::Time, Key::Clock, Key::Names, Key::Full])
            && self.excludes(Key::Clock, &[Key::Time])
    }

    /// Whether the options go with those that say which calls are shown.
    fn fits_calls(&self) -> bool
        ensures { result ≡ fits_calls self.now }
    {
        self.needs(Key::Patience, Key::Calls)
            && self.needs(Key::Slow, Key::Calls)
            && self.excludes(
                Key::Calls,
                &[Key::Rules, Key::Of, Key::Hex, Key::Json, Key::Write],
            )
    }

    /// Whether the options, and the number of rules, go with one that has it said why a rule or a filter expression doesn't
    /// hold.
    fn fits_why(&self) -> bool
        ensures { result ≡ fits_why self.now }
    {
        let others = [
            Key::Program,
            Key::Attach,
            Key::Invert,
            Key::Calls,
            Key::Summary,
            Key::Top,
            Key::Rules,
            Key::Of,
            Key::Hex,
            Key::Json,
            Key::Write,
        ];
        !self.has(Key::Why)
            || self.excludes(Key::Why, &others)
                && name_count(&self.words) == self.address_count() + self.explained_rules()
    }

    /// How many rules there are where it is said why messages aren't shown: one, or none beside a filter expression.
    fn explained_rules(&self) -> usize
        ensures value { result ≡ explained_rules self.now }
        ensures few { result ≤ 1 }
    {
        if self.has(Key::Filter) { 0 } else { 1 }
    }

    /// Whether no option says which messages are shown, or how, where they are counted.
    fn excludes_forms(&self, key: Key) -> bool
        ensures { result ≡ excludes_forms key self.now }
    {
        self.excludes(
            key,
            &[
                Key::Program,
                Key::Invert,
                Key::Time,
                Key::Clock,
                Key::Hex,
                Key::Json,
                Key::Write,
                Key::Names,
                Key::Full,
            ],
        )
    }

    /// Whether no option says which messages are counted, or how they are written, where a table of who sent what is asked
    /// for.
    fn excludes_lines(&self, key: Key) -> bool
        ensures { result ≡ excludes_lines key self.now }
    {
        self.excludes(
            key,
            &[
                Key::Rules,
                Key::Of,
                Key::Calls,
                Key::Hex,
                Key::Json,
                Key::Write,
                Key::Time,
                Key::Clock,
                Key::Names,
                Key::Full,
            ],
        )
    }

    /// Whether another option is there where an option is.
    fn needs(&self, key: Key, other: Key) -> bool
        ensures { result ≡ needs key other self.now }
    {
        !self.has(key) || self.has(other)
    }

    /// Whether one of some others is there where an option is.
    fn needs_any(&self, key: Key, others: &[Key]) -> bool
        ensures { result ≡ needs_any key others.now self.now }
    {
        !self.has(key) || self.has_any(others)
    }

    /// Whether no other option is there where an option is.
    fn excludes(&self, key: Key, others: &[Key]) -> bool
        ensures { result ≡ excludes key others.now self.now }
    {
        !self.has(key) || !self.has_any(others)
    }

    /// Whether one of some options is there.
    fn has_any(&self, keys: &[Key]) -> bool
        ensures { result ≡ list_any (is_said self.now) keys.now }
    {
        for key in keys {
            if self.has(*key) {
                return true;
            }
        }
        false
    }

    /// Whether the words of options say what they have to.
    fn has_values(&self) -> bool
        ensures { result ≡ false → has_value self.now ≡ true }
    {
        self.is_number(Key::Count)
            && self.is_number(Key::Seconds)
            && self.is_number(Key::Patience)
            && self.is_number(Key::Slow)
            && self.is_edition()
    }

    /// Whether the word of an option is a number above 0, where it is there.
    fn is_number(&self, key: Key) -> bool
        ensures { result ≡ false → has key self.now ≡ true }
    {
        match self.text_of(key) {
            Some(text) => number(text).is_some(),
            None => true,
        }
    }

    /// Whether the word of `--edition` is one, where it is there.
    fn is_edition(&self) -> bool
        ensures { result ≡ false → has Key.Edition self.now ≡ true }
    {
        match self.text_of(Key::Edition) {
            Some(text) => edition_of(text).is_some(),
            None => true,
        }
    }

    /// Whether another option than a rule says which messages are wanted.
    fn wants_all(&self) -> bool
        ensures { result ≡ wants_all self.now }
    {
        self.has(Key::Read)
            || self.has(Key::Program)
            || self.has(Key::Filter)
            || self.is_summary()
            || self.is_monitor()
    }

    /// Whether there are as many words that are no options as there may be: an address where there is no capture, and a
    /// rule at least where nothing else says what is wanted.
    fn has_names(&self) -> bool
        ensures { result ≡ has_names self.now }
    {
        let others = self.address_count();
        let count = name_count(&self.words);
        if self.has(Key::Attach) || self.has(Key::Rules) || self.has(Key::Of) {
            count == others
        } else if self.wants_all() {
            count >= others
        } else {
            count > others
        }
    }
}
