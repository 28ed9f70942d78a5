// Entries at places, with their index.

use crate::entry::Entry;
use crate::entry_slab::EntrySlab;
use crate::index::Index;
use crate::index_key::IndexKey;
use crate::offers::Offers;
use crate::walk::Walk;
use message_view::View;
use std::alloc::{AllocError, Global};
use std::marker::Model;

/// A slab and the lists by which its entries are looked up. Contracts see the slab.
#[derive(Drop)]
pub(crate) struct IndexedEntries {
    slab: EntrySlab,
    index: Index,
}

impl Model for IndexedEntries {
    ghost use Rattle.std.specs.Prelude.{List};
    ghost use Rattle.entry_table.specs.PlacedEntries.{Placed};
    ghost use Rattle.entry_table.specs.IndexLists.{IsIndexed};

    ghost Value = { List Placed };

    ghost view = { λ s. s.slab };

    ghost invariant = { λ s. IsIndexed s.index s.slab };
}

impl IndexedEntries {
    ghost use Rattle.std.specs.Prelude.{◌≡◌, ◌<◌, ◌%◌, ◌∷◌, [], true, length, IfOk, option_map};
    ghost use Rattle.message_view.specs.Message.{Message};
    ghost use Rattle.message_view.specs.Valid.{Valid};
    ghost use Rattle.match_rule.specs.FixedTexts.{texts_from};
    ghost use Rattle.entry_table.specs.PlaceLists.{has_place, AreOnce};
    ghost use Rattle.entry_table.specs.declared.entry.Entry.{Entry};
    ghost use Rattle.entry_table.specs.OfferedEntries.{AreOffered};
    ghost use Rattle.entry_table.specs.PlacedEntries.{places_of, entry_at, but_at};
    ghost use Rattle.entry_table.specs.IndexLists.{places_with_key, connection_key, connection_lists};
    ghost use Rattle.entry_table.specs.Searching.{entries_of, AreBelow, IdsFall};

    /// A slab without entries. Only this call takes memory.
    pub(crate) fn new(alloc: Global, key: IndexKey) -> Result<IndexedEntries, AllocError>
        ensures { IfOk result (λ slab. slab ≡ []) }
    {
        Ok(IndexedEntries {
            slab: EntrySlab::new(alloc)?,
            index: Index::new(alloc, key.points())?,
        })
    }

    /// Puts an entry, newer than all others, at a place that none has.
    pub(crate) fn put(&mut self, entry: Entry) -> u16
        requires few { length self.old < 65534 }
        requires newest { AreBelow entry.id self.old }
        ensures { self.new ≡ (result, entry) ∷ self.old }
    {
        let standing = self.index.standing_of(&entry);
        let place = self.slab.put(entry);
        self.index.add(place, standing);
        place
    }

    /// The entry at a place.
    pub(crate) fn get(&self, place: u16) -> Option<&Entry>
        ensures { option_map (λ e. e.now) result ≡ entry_at place self.now }
    {
        self.slab.get(place)
    }

    /// The id of the entry at a place.
    pub(crate) fn id_at(&self, place: u16) -> Option<u32>
        ensures { result ≡ option_map (λ (e : Entry). e.id) (entry_at place self.now) }
    {
        match self.get(place) {
            Some(entry) => Some(entry.id),
            None => None,
        }
    }

    /// The places of the entries of the connections that share a list with this one, the newest first.
    pub(crate) fn of_connection(&self, connection: u64) -> Walk<'_>
        ensures value { result ≡ places_with_key connection_key (connection % connection_lists) self.now }
        // No place has two entries.
        ensures once { AreOnce (places_of self.now) }
    {
        self.index.of_connection(connection)
    }

    /// Takes the entry at a place.
    pub(crate) fn take(&mut self, place: u16) -> Entry
        requires { has_place place (places_of self.old) ≡ true }
        ensures entry { entry_at place self.old ≡ Some result }
        ensures rest { self.new ≡ but_at place self.old }
    {
        let entry = self.slab.take(place);
        let standing = self.index.standing_of(&entry);
        self.index.remove(place, standing);
        entry
    }

    /// The entries that a message from this sender is offered to.
    #[inline(always)]
    pub(crate) fn entries_for<'a>(&'a self, view: &View<'a>, sender: Option<&'a str>) -> Offers<'a>
        ensures { (m : Message) → Valid view.now m → IdsFall self.entry.now → AreOffered (entries_of self.entry.now) (texts_from (option_map (λ name. name.now) sender.entry) m) result }
    {
        self.index.entries_for(&self.slab, view, sender)
    }
}
