// What the words of `serve` ask for.

use crate::addresses::Addresses;
use crate::guid::Guid;
use crate::words::{WordFault, Words};
use server::{Limits, Verbosity};

/// Where `serve` listens if no address is said.
#[derive(Clone, Copy, Debug, PartialEq, Eq)]
pub(crate) enum UsualPlace {
    /// The user's: the same at each start.
    OfUser,
    /// A new one, as a bus has that belongs to one session.
    OfSession,
}

/// What is written once the bus listens, and where.
#[derive(Clone, Copy, Debug, PartialEq, Eq)]
pub(crate) enum Announcement {
    /// `listening ADDRESS` on standard output.
    Listening,
    /// The address alone on standard output.
    Address,
    /// The address alone at an open descriptor, which is closed after it.
    AddressAt(u16),
}

/// What the words of `serve` ask for.
#[derive(Clone, Copy)]
pub(crate) struct Options<'a> {
    /// Where to listen, as far as it is said.
    pub(crate) addresses: Addresses<'a>,
    pub(crate) usual_place: UsualPlace,
    /// The bus's id, if it is said.
    pub(crate) guid: Option<Guid>,
    pub(crate) announcement: Announcement,
    /// Whether EXTERNAL lets in whoever claims any user.
    pub(crate) allows_external: bool,
    /// Whether ANONYMOUS is a way in.
    pub(crate) allows_anonymous: bool,
    /// After how many connections to end; at least one.
    pub(crate) connections: Option<u32>,
    /// Whether to end once standard input is closed at its other end.
    pub(crate) until_closed: bool,
    /// How much clients may take.
    pub(crate) limits: Limits,
    /// What is told on standard error.
    pub(crate) verbosity: Verbosity,
}

impl<'a> Options<'a> {
    /// What some words ask for: options in any order, each once at most but for `--limit` and `--listen`, with its value
    /// as the next word or after a `=`.
    pub(crate) fn read(words: &[&'a str]) -> Result<Options<'a>, WordFault<'a>> {
        let words = Words::read(words)?;
        Ok(Options {
            addresses: words.addresses,
            usual_place: if words.is_session {
                UsualPlace::OfSession
            } else {
                UsualPlace::OfUser
            },
            guid: words.guid,
            announcement: words.announcement.unwrap_or(Announcement::Listening),
            allows_external: words.allows_external,
            allows_anonymous: words.allows_anonymous,
            connections: words.connections,
            until_closed: words.until_closed,
            limits: words.limits,
            verbosity: words.verbosity(),
        })
    }
}
