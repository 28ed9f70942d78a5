// The search for an entry of a connection.

ghost use Rattle.std.specs.Prelude.{◌≡◌, find};
ghost use Rattle.entry_table.specs.PlacedEntries.{entry_at};
ghost use Rattle.entry_table.specs.Searching.{suits, is_wanted, is_wanted_in, last_place};

use crate::entry::Entry;
use crate::indexed_entries::IndexedEntries;
use crate::walk::Walk;
use match_rule::Rule;

/// Which entry of a connection is looked for.
#[derive(Clone, Copy)]
pub(crate) enum Wanted<'a> {
    Any,
    Id(u32),
    EqualRule(&'a Rule),
    Attachment(u32),
    /// A rule whose id is above this one.
    RuleAfter(u32),
}

/// Whether an entry is what is wanted, whoever has it.
fn suits(wanted: Wanted<'_>, entry: &Entry) -> bool
    ensures { result ≡ suits wanted.entry entry.now }
{
    match wanted {
        Wanted::Any => true,
        Wanted::Id(id) => entry.id == id,
        Wanted::EqualRule(rule) => entry.filter.is_rule(rule),
        Wanted::Attachment(id) => entry.id == id && entry.filter.is_attached(),
        Wanted::RuleAfter(id) => entry.id > id && !entry.filter.is_attached(),
    }
}

/// Whether an entry is the connection's, and what is wanted.
fn is_wanted(wanted: Wanted<'_>, connection: u64, entry: &Entry) -> bool
    ensures { result ≡ is_wanted wanted.entry connection entry.now }
{
    entry.connection == connection && suits(wanted, entry)
}

/// Whether the entry at a place is wanted.
fn is_wanted_at(slab: &IndexedEntries, place: u16, wanted: Wanted<'_>, connection: u64) -> bool
    ensures { result ≡ is_wanted_in wanted.entry connection (entry_at place slab.now) }
{
    match slab.get(place) {
        Some(entry) => is_wanted(wanted, connection, entry),
        None => false,
    }
}

/// The last of the places whose entry is wanted.
pub(crate) fn last_place(
    slab: &IndexedEntries,
    mut places: Walk<'_>,
    wanted: Wanted<'_>,
    connection: u64,
) -> Option<u16>
    ensures { result ≡ last_place (λ place. is_wanted_in wanted.entry connection (entry_at place slab.now)) places.entry }
{
    let mut last = None;
    while let Some(place) = places.next() {
        if is_wanted_at(slab, place, wanted, connection) {
            last = Some(place);
        }
    }
    last
}

/// The first of the places whose entry is wanted.
pub(crate) fn first_place(
    slab: &IndexedEntries,
    mut places: Walk<'_>,
    wanted: Wanted<'_>,
    connection: u64,
) -> Option<u16>
    ensures { result ≡ find (λ place. is_wanted_in wanted.entry connection (entry_at place slab.now)) places.entry }
{
    while let Some(place) = places.next() {
        if is_wanted_at(slab, place, wanted, connection) {
            return Some(place);
        }
    }
    None
}
