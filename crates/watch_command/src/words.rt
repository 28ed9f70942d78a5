// The words of the command, one after another.

ghost use Rattle.std.specs.Prelude.{◌≡◌, IfOk, Some, None, option_map, if◌then◌else◌};
ghost use Rattle.std.specs.List.{list_any};
ghost use Rattle.watch_command.specs.Sayings.{key_of, key_number, key_eq, takes_word, is_option, is_key, is_repeated, reading_by, reading_of, may_end, with_saying, saying_of, sayings_of, sayings_in, texts, word_in, name_in, reading_by_step};

use std::alloc::{AllocError, Global};

/// An option of the command.
#[derive(Clone, Copy)]
pub enum Key {
    /// `--attach`: the bus runs the program.
    Attach,
    /// `--calls`: each call with its answer, and the time between.
    Calls,
    /// `--clock`: the local time of day, in front of a line.
    Clock,
    /// `--count N`: ends after N messages.
    Count,
    /// `--edition 1|2`: the edition of images that the program is for.
    Edition,
    /// `--filter EXPR`: the messages that a filter expression holds of.
    Filter,
    /// `--full`: arguments whole, where they would be cut.
    Full,
    /// `--hex`: messages as hexadecimal digits.
    Hex,
    /// `--invert`: the messages that otherwise aren't shown.
    Invert,
    /// `--json`: messages as JSON.
    Json,
    /// `--monitor`: asks for messages to others too.
    Monitor,
    /// `--names`: the names that are owned in place of their owners' unique names.
    Names,
    /// `--of NAME`: how many messages each rule of a connection takes.
    Of,
    /// `--patience N`: how long a call may wait for its answer until that is said.
    Patience,
    /// `--program FILE`: the messages that a program accepts.
    Program,
    /// `--read FILE`: a capture in place of a bus.
    Read,
    /// `--rules FILE`: how many messages each rule of a file takes.
    Rules,
    /// `--seconds N`: ends after N seconds.
    Seconds,
    /// `--slow N`: the calls alone that took longer.
    Slow,
    /// `--summary`: who sends what, and how much.
    Summary,
    /// `--time`: when a message came, in front of its line.
    Time,
    /// `--top`: the table of `--summary`, as it changes.
    Top,
    /// `--why`: why the one rule doesn't hold of the messages that it doesn't take.
    Why,
    /// `--write FILE`: a capture in place of lines.
    Write,
}

/// What a word of the command says, an option with the word after it where it takes one.
#[derive(Clone, Copy)]
pub enum Word<'a> {
    /// An option that stands alone.
    Flag(Key),
    /// An option and its word.
    Setting(Key, &'a str),
    /// An address, or a rule.
    Name(&'a str),
}

/// What the next word may be.
#[derive(Clone, Copy)]
enum Awaited {
    /// An option, `--` or a name.
    AnyWord,
    /// The word of an option.
    WordOf(Key),
    /// A name, after `--`.
    NameAlone,
}

/// What a word says, if it says anything by itself, and what the next may be.
#[derive(Clone, Copy)]
struct Step<'a> {
    said: Option<Word<'a>>,
    awaited: Awaited,
}

/// The words of the options.
const OPTIONS: [(&[u8], Key); 24] = [
    (b"--attach", Key::Attach),
    (b"--calls", Key::Calls),
    (b"--clock", Key::Clock),
    (b"--count", Key::Count),
    (b"--edition", Key::Edition),
    (b"--filter", Key::Filter),
    (b"--full", Key::Full),
    (b"--hex", Key::Hex),
    (b"--invert", Key::Invert),
    (b"--json", Key::Json),
    (b"--monitor", Key::Monitor),
    (b"--names", Key::Names),
    (b"--of", Key::Of),
    (b"--patience", Key::Patience),
    (b"--program", Key::Program),
    (b"--read", Key::Read),
    (b"--rules", Key::Rules),
    (b"--seconds", Key::Seconds),
    (b"--slow", Key::Slow),
    (b"--summary", Key::Summary),
    (b"--time", Key::Time),
    (b"--top", Key::Top),
    (b"--why", Key::Why),
    (b"--write", Key::Write),
];

impl Key {
    /// The option that a word is.
    fn of(word: &str) -> Option<Key>
        ensures { result ≡ key_of word.now }
    {
        key_named(word.as_bytes())
    }

    /// The option's number, in the order of the variants.
    fn number(self) -> u8
        ensures { result ≡ key_number self }
    {
        match self {
            Key::Attach => 1,
            Key::Calls => 2,
            Key::Clock => 3,
            Key::Count => 4,
            Key::Edition => 5,
            Key::Filter => 6,
            Key::Full => 7,
            Key::Hex => 8,
            Key::Invert => 9,
            Key::Json => 10,
            Key::Monitor => 11,
            Key::Names => 12,
            Key::Of => 13,
            Key::Patience => 14,
            Key::Program => 15,
            Key::Read => 16,
            Key::Rules => 17,
            Key::Seconds => 18,
            Key::Slow => 19,
            Key::Summary => 20,
            Key::Time => 21,
            Key::Top => 22,
            Key::Why => 23,
            Key::Write => 24,
        }
    }

    /// Whether this is the same option. A derived `==` would be proved for each pair of options.
    fn is(self, other: Key) -> bool
        ensures { result ≡ key_eq self other }
    {
        self.number() == other.number()
    }

    /// Whether the option takes the word after it.
    fn takes_word(self) -> bool
        ensures { result ≡ takes_word self }
    {
        match self {
            Key::Count
            | Key::Edition
            | Key::Filter
            | Key::Of
            | Key::Patience
            | Key::Program
            | Key::Read
            | Key::Rules
            | Key::Seconds
            | Key::Slow
            | Key::Write => true,
            Key::Attach
            | Key::Calls
            | Key::Clock
            | Key::Full
            | Key::Hex
            | Key::Invert
            | Key::Json
            | Key::Monitor
            | Key::Names
            | Key::Summary
            | Key::Time
            | Key::Top
            | Key::Why => false,
        }
    }
}

/// The option that a word's bytes are.
fn key_named(word: &[u8]) -> Option<Key>
    ensures { result ≡ key_of word.now }
{
    for (name, key) in &OPTIONS {
        if word == *name {
            return Some(*key);
        }
    }
    None
}

impl<'a> Word<'a> {
    /// Whether this is an option, with or without its word.
    pub(crate) fn is(&self, key: Key) -> bool
        ensures { result ≡ is_key key (saying_of self.now) }
    {
        match self {
            Word::Flag(own) | Word::Setting(own, _) => own.is(key),
            Word::Name(_) => false,
        }
    }

    /// Whether this is an option that was said before.
    fn is_repeated(&self, before: &[Word<'_>]) -> bool
        ensures { result ≡ is_repeated (sayings_of before.now) (saying_of self.now) }
    {
        match self {
            Word::Flag(key) | Word::Setting(key, _) => has(before, *key),
            Word::Name(_) => false,
        }
    }

    /// The word of an option, if this is it.
    pub(crate) fn text_of(&self, key: Key) -> Option<&'a str>
        ensures { option_map (λ text. text.now) result ≡ word_in key (saying_of self.now) }
    {
        match self {
            Word::Setting(own, text) if own.is(key) => Some(*text),
            _ => None,
        }
    }

    /// The name, if this is one.
    pub(crate) fn name(&self) -> Option<&'a str>
        ensures { option_map (λ text. text.now) result ≡ name_in (saying_of self.now) }
    {
        match self {
            Word::Name(name) => Some(*name),
            _ => None,
        }
    }
}

impl Awaited {
    /// The step of a word, if it may stand here.
    fn step<'a>(self, word: &'a str) -> Option<Step<'a>>
        ensures { option_map reading_by_step result ≡ reading_of self word.entry.now }
    {
        match self {
            Awaited::AnyWord => any_step(word),
            Awaited::WordOf(key) => Some(Step {
                said: Some(Word::Setting(key, word)),
                awaited: Awaited::AnyWord,
            }),
            Awaited::NameAlone => Some(Step {
                said: Some(Word::Name(word)),
                awaited: Awaited::NameAlone,
            }),
        }
    }

    /// Whether the words may end here.
    fn may_end(self) -> bool
        ensures { result ≡ may_end self }
    {
        match self {
            Awaited::AnyWord | Awaited::NameAlone => true,
            Awaited::WordOf(_) => false,
        }
    }
}

/// The step of a word before `--` that is no option's word.
fn any_step<'a>(word: &'a str) -> Option<Step<'a>>
    ensures { option_map reading_by_step result ≡ reading_of Awaited.AnyWord word.entry.now }
{
    if word == "--" {
        return Some(Step {
            said: None,
            awaited: Awaited::NameAlone,
        });
    }
    match Key::of(word) {
        Some(key) if key.takes_word() => Some(Step {
            said: None,
            awaited: Awaited::WordOf(key),
        }),
        Some(key) => Some(Step {
            said: Some(Word::Flag(key)),
            awaited: Awaited::AnyWord,
        }),
        None if is_option(word) => None,
        None => Some(Step {
            said: Some(Word::Name(word)),
            awaited: Awaited::AnyWord,
        }),
    }
}

/// Adds what a word says, if it says anything and isn't an option that was said before, and answers whether it isn't.
fn put_word<'a>(said: &mut Vec<Word<'a>>, word: Option<Word<'a>>) -> Result<bool, AllocError>
    ensures { IfOk result (λ is_new. with_saying (sayings_of said.old.items) (option_map saying_of word.entry) ≡ (if is_new then Some (sayings_of said.new.items) else None)) }
{
    let Some(word) = word else {
        return Ok(true);
    };
    if word.is_repeated(said) {
        return Ok(false);
    }
    said.push(word)?;
    Ok(true)
}

/// What some words say, if each of them may stand where it does: options anywhere before `--`, each once at most.
pub(crate) fn read_words<'a>(
    alloc: Global,
    words: &[&'a str],
) -> Result<Option<Vec<Word<'a>>>, AllocError>
    ensures { IfOk result (λ said. option_map (λ words. sayings_of words.items) said ≡ sayings_in (texts words.now)) }
{
    let mut said = Vec::new(alloc);
    let mut awaited = Awaited::AnyWord;
    for i in 0..words.len() {
        let Some(step) = awaited.step(words[i]) else {
            return Ok(None);
        };
        if !put_word(&mut said, step.said)? {
            return Ok(None);
        }
        awaited = step.awaited;
    }
    if awaited.may_end() {
        Ok(Some(said))
    } else {
        Ok(None)
    }
}

/// Whether an option is among some words.
pub(crate) fn has(words: &[Word<'_>], key: Key) -> bool
    ensures { result ≡ list_any (is_key key) (sayings_of words.now) }
{
    for word in words {
        if word.is(key) {
            return true;
        }
    }
    false
}

/// Whether a word begins with `-` and is more than that.
fn is_option(word: &str) -> bool
    ensures { result ≡ is_option word.now }
{
    word.len() > 1 && word.as_bytes()[0] == b'-'
}
