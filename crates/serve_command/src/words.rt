// The words of `serve`, one after another.

use crate::address_fault::AddressFault;
use crate::addresses::{Addresses, MOST};
use crate::guid::{Guid, before_guid};
use crate::limit_fault::LimitFault;
use crate::options::Announcement;
use endpoints::Address;
use server::{Limit, Limits, Verbosity};
use std::fmt;

/// An option that has a value.
#[derive(Clone, Copy, Debug, PartialEq, Eq)]
pub(crate) enum Valued {
    Listen,
    Guid,
    Connections,
    Limit,
}

impl Valued {
    fn of(name: &str) -> Option<Valued> {
        match name {
            "--listen" => Some(Valued::Listen),
            "--guid" => Some(Valued::Guid),
            "--connections" => Some(Valued::Connections),
            "--limit" => Some(Valued::Limit),
            _ => None,
        }
    }

    fn name(self) -> &'static str {
        match self {
            Valued::Listen => "--listen",
            Valued::Guid => "--guid",
            Valued::Connections => "--connections",
            Valued::Limit => "--limit",
        }
    }
}

/// What is wrong with the words, by the first that is.
#[derive(Clone, Copy, Debug, PartialEq, Eq)]
pub(crate) enum WordFault<'a> {
    UnknownOption(&'a str),
    /// A word where an option is wanted.
    NoOption(&'a str),
    GivenTwice(&'a str),
    NoValue(Valued),
    /// A value after an option that has none.
    HasNoValue(&'a str),
    Address(AddressFault<'a>),
    AddressTwice(&'a str),
    TooManyAddresses,
    Guid(&'a str),
    Connections(&'a str),
    Limit(LimitFault<'a>),
    Descriptor(&'a str),
    LogAndQuiet,
}

impl<'a> fmt::Display for WordFault<'a> {
    fn fmt<W: fmt::Write>(&self, f: &mut fmt::Formatter<W>) -> fmt::Result {
        match self {
            WordFault::UnknownOption(word) => write!(f, "unknown option {word}"),
            WordFault::NoOption(word) => write!(f, "{word} is no option"),
            WordFault::GivenTwice(name) => write!(f, "{name} is given twice"),
            WordFault::NoValue(option) => {
                let name = option.name();
                write!(f, "{name} has no value")
            }
            WordFault::HasNoValue(name) => write!(f, "{name} takes no value"),
            WordFault::Address(fault) => write!(f, "--listen {fault}"),
            WordFault::AddressTwice(text) => write!(f, "--listen {text} is given twice"),
            WordFault::TooManyAddresses => { write!(f, "--listen is given more than {MOST} times") }
            WordFault::Guid(text) => {
                write!(f, "--guid {text}: 32 hexadecimal digits are wanted")
            }
            WordFault::Connections(text) => write!(
                f,
                "--connections {text}: a number from 1 to 4294967295 is wanted"
            ),
            WordFault::Limit(fault) => write!(f, "--limit {fault}"),
            WordFault::Descriptor(text) => write!(
                f,
                "--print-address {text}: the number of an open descriptor is wanted"
            ),
            WordFault::LogAndQuiet => f.write_str("--log and --quiet exclude one another"),
        }
    }
}

/// What the next word may be.
#[derive(Clone, Copy)]
enum Awaited {
    Option,
    Value(Valued),
    /// An option, or the descriptor of `--print-address`.
    Descriptor,
}

/// What the words say so far.
#[derive(Clone, Copy)]
pub(crate) struct Words<'a> {
    pub(crate) addresses: Addresses<'a>,
    pub(crate) guid: Option<Guid>,
    pub(crate) connections: Option<u32>,
    pub(crate) limits: Limits,
    pub(crate) announcement: Option<Announcement>,
    pub(crate) is_session: bool,
    pub(crate) allows_external: bool,
    pub(crate) allows_anonymous: bool,
    pub(crate) until_closed: bool,
    has_log: bool,
    is_quiet: bool,
    awaited: Awaited,
}

impl<'a> Words<'a> {
    fn nothing() -> Words<'a> {
        Words {
            addresses: Addresses::none(),
            guid: None,
            connections: None,
            limits: Limits::standard(),
            announcement: None,
            is_session: false,
            allows_external: false,
            allows_anonymous: false,
            until_closed: false,
            has_log: false,
            is_quiet: false,
            awaited: Awaited::Option,
        }
    }

    /// What some words say, if each of them may stand where it does.
    pub(crate) fn read(words: &[&'a str]) -> Result<Words<'a>, WordFault<'a>> {
        let mut so_far = Ok(Words::nothing());
        for i in 0..words.len() {
            so_far = match so_far {
                Ok(before) => Words::with(before, words[i]),
                Err(fault) => Err(fault),
            };
        }
        Words::at_end(so_far?)
    }

    /// Where the words end, no option may still want its value.
    fn at_end(self) -> Result<Words<'a>, WordFault<'a>> {
        match self.awaited {
            Awaited::Value(option) => Err(WordFault::NoValue(option)),
            _ if self.has_log && self.is_quiet => Err(WordFault::LogAndQuiet),
            Awaited::Option | Awaited::Descriptor => Ok(self),
        }
    }

    /// What `--log` and `--quiet` say of the log.
    pub(crate) fn verbosity(&self) -> Verbosity {
        if self.is_quiet {
            Verbosity::None
        } else if self.has_log {
            Verbosity::All
        } else {
            Verbosity::Faults
        }
    }

    fn with(self, word: &'a str) -> Result<Words<'a>, WordFault<'a>> {
        match self.awaited {
            Awaited::Option => self.with_option(word),
            Awaited::Value(option) => self.with_value(option, word),
            Awaited::Descriptor if is_option(word) => self.with_option(word),
            Awaited::Descriptor => self.with_descriptor(word),
        }
    }

    fn with_option(self, word: &'a str) -> Result<Words<'a>, WordFault<'a>> {
        if !is_option(word) {
            return Err(WordFault::NoOption(word));
        }
        let (name, value) = match word.split_once('=') {
            Some((name, value)) => (name, Some(value)),
            None => (word, None),
        };
        if let Some(option) = Valued::of(name) {
            return self.with_valued(option, name, value);
        }
        match name {
            "--print-address" => self.with_print_address(value),
            "--session"
            | "--nofork"
            | "--allow-external"
            | "--allow-anonymous"
            | "--until-closed"
            | "--log"
            | "--quiet" => self.with_flag(name, value),
            _ => Err(WordFault::UnknownOption(name)),
        }
    }

    fn with_valued(
        self,
        option: Valued,
        name: &'a str,
        value: Option<&'a str>,
    ) -> Result<Words<'a>, WordFault<'a>> {
        if self.has(option) {
            return Err(WordFault::GivenTwice(name));
        }
        match value {
            Some(value) => self.with_value(option, value),
            None => Ok(Words {
                awaited: Awaited::Value(option),
                ..self
            }),
        }
    }

    /// Whether an option is there that may be given once alone.
    fn has(&self, option: Valued) -> bool {
        match option {
            Valued::Listen | Valued::Limit => false,
            Valued::Guid => self.guid.is_some(),
            Valued::Connections => self.connections.is_some(),
        }
    }

    fn with_value(self, option: Valued, value: &'a str) -> Result<Words<'a>, WordFault<'a>> {
        let mut words = Words {
            awaited: Awaited::Option,
            ..self
        };
        match option {
            Valued::Listen => {
                words.addresses = words.addresses_with(value)?;
            }
            Valued::Guid => {
                let guid = Guid::read(value).ok_or(WordFault::Guid(value))?;
                words.guid = Some(guid);
            }
            Valued::Connections => {
                let count = count_of(value).ok_or(WordFault::Connections(value))?;
                words.connections = Some(count);
            }
            Valued::Limit => {
                let (limit, number) = read_limit(value)?;
                words.limits = words.limits.with(limit, number);
            }
        }
        Ok(words)
    }

    fn addresses_with(&self, value: &'a str) -> Result<Addresses<'a>, WordFault<'a>> {
        let address = read_address(value)?;
        if self.addresses.has(address) {
            return Err(WordFault::AddressTwice(value));
        }
        self.addresses
            .with(address)
            .ok_or(WordFault::TooManyAddresses)
    }

    /// `--session` says where to listen if no address does, `--nofork` what `serve` does anyway, `--until-closed` when it ends,
    /// `--log` and `--quiet` what it tells, and the others whom the bus lets in.
    fn with_flag(self, name: &'a str, value: Option<&str>) -> Result<Words<'a>, WordFault<'a>> {
        if value.is_some() {
            return Err(WordFault::HasNoValue(name));
        }
        Ok(Words {
            is_session: self.is_session || name == "--session",
            allows_external: self.allows_external || name == "--allow-external",
            allows_anonymous: self.allows_anonymous || name == "--allow-anonymous",
            until_closed: self.until_closed || name == "--until-closed",
            has_log: self.has_log || name == "--log",
            is_quiet: self.is_quiet || name == "--quiet",
            awaited: Awaited::Option,
            ..self
        })
    }

    fn with_print_address(self, value: Option<&'a str>) -> Result<Words<'a>, WordFault<'a>> {
        if self.announcement.is_some() {
            return Err(WordFault::GivenTwice("--print-address"));
        }
        match value {
            Some(value) => self.with_descriptor(value),
            None => Ok(Words {
                announcement: Some(Announcement::Address),
                awaited: Awaited::Descriptor,
                ..self
            }),
        }
    }

    fn with_descriptor(self, text: &'a str) -> Result<Words<'a>, WordFault<'a>> {
        let announcement = match descriptor_of(text) {
            Some(1) => Announcement::Address,
            Some(number) if number > 2 => Announcement::AddressAt(number),
            _ => return Err(WordFault::Descriptor(text)),
        };
        Ok(Words {
            announcement: Some(announcement),
            awaited: Awaited::Option,
            ..self
        })
    }
}

/// The address that a text spells. The id that it may end with is left out: a bus has its own.
fn read_address(text: &str) -> Result<Address<'_>, WordFault<'_>> {
    match Address::read(before_guid(text)) {
        Some(address) => Ok(address),
        None => Err(WordFault::Address(AddressFault::of(text))),
    }
}

/// The limit and its number that a text `NAME=N` says.
fn read_limit(text: &str) -> Result<(Limit, u32), WordFault<'_>> {
    let Some((name, number)) = text.split_once('=') else {
        return Err(WordFault::Limit(LimitFault::no_pair(text)));
    };
    let Some(limit) = Limit::of(name) else {
        return Err(WordFault::Limit(LimitFault::unknown_name(text)));
    };
    match count_of(number) {
        Some(number) if number <= limit.most() => Ok((limit, number)),
        _ => Err(WordFault::Limit(LimitFault::of_number(text, limit))),
    }
}

/// Whether a word begins with `-`.
fn is_option(word: &str) -> bool {
    word.as_bytes().first() == Some(&b'-')
}

fn is_number(text: &str) -> bool {
    text.as_bytes().iter().all(|byte| byte.is_ascii_digit())
}

/// A number from 1 to 4,294,967,295 in decimal digits.
fn count_of(text: &str) -> Option<u32> {
    if !is_number(text) {
        return None;
    }
    let count = text.parse::<u32>().ok()?;
    if count == 0 { None } else { Some(count) }
}

/// The number of a descriptor in decimal digits.
fn descriptor_of(text: &str) -> Option<u16> {
    if !is_number(text) {
        return None;
    }
    text.parse::<u16>().ok()
}
