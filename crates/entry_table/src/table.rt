// The table of entries.

use crate::entry::{Entry, Filter};
use crate::index_key::IndexKey;
use crate::indexed_entries::IndexedEntries;
use crate::offers::Offers;
use crate::search::{Wanted, first_place, last_place};
use match_rule::Rule;
use message_view::View;
use std::alloc::{AllocError, Global};
use std::marker::Model;

/// How many entries a table holds at most.
pub const MAX_ENTRIES: usize = 65534;

/// The entries of a bus, by rising id.
#[derive(Drop)]
pub struct EntryTable {
    slab: IndexedEntries,
    last: u32,
    count: usize,
}

impl Model for EntryTable {
    ghost use Rattle.entry_table.specs.Entries.{Entries};
    ghost use Rattle.entry_table.specs.Searching.{entries_of, IsTable};

    ghost Value = { Entries };

    ghost view = { λ t. record { entries = entries_of t.slab; last = t.last } };

    ghost invariant = { λ t. IsTable t.slab t.last t.count };
}

impl EntryTable {
    ghost use Rattle.std.specs.Prelude.{◌≡◌, ◌+◌, Bool, true, false, ◌++◌, ◌∷◌, [], IfOk, IfNone, IfSome, Option, option_map, Contains, find, filter, length, ◌<◌, List, ◌==◌};
    ghost use Rattle.std.specs.List.{list_any};
    ghost use Rattle.message_view.specs.Message.{Message};
    ghost use Rattle.message_view.specs.Valid.{Valid};
    ghost use Rattle.match_rule.specs.FixedTexts.{texts_from};
    ghost use Rattle.entry_table.specs.declared.entry.Entry.{Entry};
    ghost use Rattle.entry_table.specs.Entries.{Entries, no_entries, is_full, AreEntries, is_of, is_entry, has_rule, is_attachment, is_rule_after, entries_but};
    ghost use Rattle.entry_table.specs.OfferedEntries.{AreOffered};
    ghost use Rattle.entry_table.specs.Searching.{is_wanted};

    /// A table without entries, whose index hashes texts with this key. Only this call takes memory.
    pub fn new(alloc: Global, key: IndexKey) -> Result<EntryTable, AllocError>
        ensures { IfOk result (λ table. table ≡ no_entries) }
    {
        Ok(EntryTable {
            slab: IndexedEntries::new(alloc, key)?,
            last: 0,
            count: 0,
        })
    }

    /// The id that was given last, 0 where none was.
    pub fn last_id(&self) -> u32
        ensures value { result ≡ self.now.last }
        // Ids rise, none is above the last, and there are at most 65,534.
        ensures sound { AreEntries self.now }
    {
        self.last
    }

    /// Whether no entry can be added: there are 65,534, or the greatest id was given.
    pub fn is_full(&self) -> bool
        ensures { result ≡ is_full self.now }
    {
        self.count >= MAX_ENTRIES || self.last == u32::MAX
    }

    /// Adds an entry, which gets the id after the last.
    pub fn add(&mut self, connection: u64, filter: Filter) -> u32
        requires { is_full self.old ≡ false }
        ensures id { result ≡ self.old.last + 1 }
        ensures added { self.new ≡ record { entries = self.old.entries ++ record { id = result; connection = connection; filter = filter } ∷ []; last = result } }
    {
        let id = self.last + 1;
        let _ = self.slab.put(Entry {
            id,
            connection,
            filter,
        });
        self.last = id;
        self.count += 1;
        id
    }

    /// The id of the connection's oldest entry with an equal rule.
    pub fn find_rule(&self, connection: u64, rule: &Rule) -> Option<u32>
        ensures { result ≡ option_map (λ (e : Entry). e.id) (find (has_rule connection rule.now) self.now.entries) }
    {
        let found = last_place(
            &self.slab,
            self.slab.of_connection(connection),
            Wanted::EqualRule(rule),
            connection,
        );
        match found {
            Some(place) => self.slab.id_at(place),
            None => None,
        }
    }

    /// Whether the id is that of a program that the connection attached.
    pub fn has_attachment(&self, connection: u64, id: u32) -> bool
        ensures { result ≡ list_any (is_attachment connection id) self.now.entries }
    {
        let found = last_place(
            &self.slab,
            self.slab.of_connection(connection),
            Wanted::Attachment(id),
            connection,
        );
        found.is_some()
    }

    /// How many entries there are.
    pub fn len(&self) -> usize
        ensures { result ≡ length self.now.entries }
    {
        self.count
    }

    /// The connection's oldest entry with a rule whose id is above this one.
    pub fn next_rule(&self, connection: u64, after: u32) -> Option<&Entry>
        ensures { option_map (λ e. e.now) result ≡ find (is_rule_after connection after) self.now.entries }
    {
        let found = last_place(
            &self.slab,
            self.slab.of_connection(connection),
            Wanted::RuleAfter(after),
            connection,
        );
        match found {
            Some(place) => self.slab.get(place),
            None => None,
        }
    }

    /// Takes out the oldest entry of a connection that is wanted.
    fn take(&mut self, connection: u64, wanted: Wanted<'_>) -> Option<Entry>
        ensures entry { result ≡ find (is_wanted wanted.entry connection) self.old.entries }
        ensures rest { IfSome result (λ e. self.new ≡ entries_but (λ f. f.id == e.id) self.old) }
        // Each other entry stays.
        ensures kept { IfSome result (λ e. (test : Entry → Bool) → test e ≡ false → filter test self.new.entries ≡ filter test self.old.entries) }
        ensures fewer { IfSome result (λ e. length self.new.entries < length self.old.entries) }
        ensures unchanged { IfNone result (self.new ≡ self.old) }
    {
        let found = last_place(
            &self.slab,
            self.slab.of_connection(connection),
            wanted,
            connection,
        );
        match found {
            None => None,
            Some(place) => {
                let entry = self.slab.take(place);
                self.count -= 1;
                Some(entry)
            }
        }
    }

    /// Takes out the connection's entry of this id, if it has one.
    pub fn remove(&mut self, connection: u64, id: u32) -> Option<Entry>
        ensures entry { result ≡ find (is_entry connection id) self.old.entries }
        ensures rest { IfSome result (λ e. self.new ≡ entries_but (λ f. f.id == e.id) self.old) }
        ensures unchanged { IfNone result (self.new ≡ self.old) }
    {
        self.take(connection, Wanted::Id(id))
    }

    /// Takes out the connection's oldest entry, if it has any.
    pub fn remove_oldest(&mut self, connection: u64) -> Option<Entry>
        ensures entry { result ≡ find (is_of connection) self.old.entries }
        ensures rest { IfSome result (λ e. self.new ≡ entries_but (λ f. f.id == e.id) self.old) }
        ensures unchanged { IfNone result (self.new ≡ self.old) }
    {
        self.take(connection, Wanted::Any)
    }

    /// Takes out one of a connection's entries, if it has any: the first that its list comes to.
    pub fn remove_any(&mut self, connection: u64) -> Option<Entry>
        ensures among { IfSome result (λ e. Contains self.old.entries e) }
        ensures theirs { IfSome result (λ e. is_of connection e ≡ true) }
        ensures rest { IfSome result (λ e. self.new ≡ entries_but (λ f. f.id == e.id) self.old) }
        // Each other entry stays.
        ensures kept { IfSome result (λ e. (test : Entry → Bool) → test e ≡ false → filter test self.new.entries ≡ filter test self.old.entries) }
        ensures last { self.new.last ≡ self.old.last }
        ensures fewer { IfSome result (λ e. length self.new.entries < length self.old.entries) }
        ensures none { IfNone result (find (is_of connection) self.old.entries ≡ None) }
        ensures unchanged { IfNone result (self.new ≡ self.old) }
    {
        let found = first_place(
            &self.slab,
            self.slab.of_connection(connection),
            Wanted::Any,
            connection,
        );
        match found {
            None => None,
            Some(place) => {
                let entry = self.slab.take(place);
                self.count -= 1;
                Some(entry)
            }
        }
    }

    /// Takes out all entries of a connection.
    pub fn remove_all(&mut self, connection: u64)
        ensures { self.new ≡ entries_but (is_of connection) self.old }
    {
        'theirs: while let Some(_) = self.remove_any(connection) {}
    }

    /// The entries that a message is offered to, were this its sender: attached programs, and the rules whose conditions on
    /// the member, the interface, the path, the argument 0 and their namespaces, and on a sender by its own name, where there
    /// are such, hold of it.
    #[inline(always)]
    pub fn entries_for<'a>(&'a self, view: &View<'a>, sender: Option<&'a str>) -> Offers<'a>
        ensures { (m : Message) → Valid view.now m → AreOffered self.now.entries (texts_from (option_map (λ name. name.now) sender.entry) m) result }
    {
        self.slab.entries_for(view, sender)
    }
}
