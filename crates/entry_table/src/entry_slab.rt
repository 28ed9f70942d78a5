// Entries at places.

use crate::entry::Entry;
use crate::table::MAX_ENTRIES;
use slab::Slab;
use std::alloc::{AllocError, Global};
use std::marker::Model;

/// Room for each entry, at a place of its own: its key in a slab. Contracts see places and entries by falling id, so that
/// what was put last is the first.
#[derive(Drop)]
pub(crate) struct EntrySlab {
    entries: Slab<Entry>,
}

impl Model for EntrySlab {
    ghost use Rattle.std.specs.Prelude.{List};
    ghost use Rattle.entry_table.specs.PlacedEntries.{Placed, placed_in, IsEntrySlab};

    ghost Value = { List Placed };

    ghost view = { λ s. placed_in s.entries };

    ghost invariant = { λ s. IsEntrySlab s.entries };
}

impl EntrySlab {
    ghost use Rattle.std.specs.Prelude.{◌≡◌, ◌<◌, ◌∷◌, [], true, false, length, IfOk, option_map};
    ghost use Rattle.entry_table.specs.PlaceLists.{has_place, AreOnce};
    ghost use Rattle.entry_table.specs.PlacedEntries.{places_of, entry_at, but_at};
    ghost use Rattle.entry_table.specs.Searching.{AreBelow};

    /// A slab without entries. Only this call takes memory.
    pub(crate) fn new(alloc: Global) -> Result<EntrySlab, AllocError>
        ensures { IfOk result (λ slab. slab ≡ []) }
    {
        let entries = Slab::with_capacity(alloc, MAX_ENTRIES)?;
        // Keys are below the capacity, and the lists of the index have no more places than entries. A slab has just the
        // capacity that it was asked for, but promises no more than that it isn't lower.
        if entries.capacity() != MAX_ENTRIES {
            return Err(AllocError);
        }
        Ok(EntrySlab { entries })
    }

    /// Puts an entry, newer than all others, at a place that none has.
    pub(crate) fn put(&mut self, entry: Entry) -> u16
        requires few { length self.old < 65534 }
        requires newest { AreBelow entry.id self.old }
        ensures put { self.new ≡ (result, entry) ∷ self.old }
        ensures fresh { has_place result (places_of self.old) ≡ false }
        ensures below { result < 65534 }
    {
        self.entries.insert_reserved(entry) as u16
    }

    /// The entry at a place.
    pub(crate) fn get(&self, place: u16) -> Option<&Entry>
        ensures entry { option_map (λ e. e.now) result ≡ entry_at place self.now }
        // No place has two entries.
        ensures once { AreOnce (places_of self.now) }
    {
        self.entries.get(usize::from(place))
    }

    /// Takes the entry at a place.
    pub(crate) fn take(&mut self, place: u16) -> Entry
        requires { has_place place (places_of self.old) ≡ true }
        ensures entry { entry_at place self.old ≡ Some result }
        ensures rest { self.new ≡ but_at place self.old }
    {
        self.entries.remove(usize::from(place))
    }
}
