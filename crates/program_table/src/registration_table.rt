// Claims on names and entries, tied by the slots of names.

ghost use Rattle.std.specs.Prelude.{◌≡◌};
ghost use Rattle.program_table.specs.SlotSearch.{claim_refusal};

use crate::capacity::Capacity;
use crate::command::Reply;
use crate::refusal::Refusal;
use crate::removal::{self, sender_of};
use entry_table::{Attachment, Entry, EntryTable, Filter, IndexKey, Offers, RuleProgram};
use match_rule::Rule;
use message_view::View;
use owners::{ClaimError, Claims, Dropped, Queue, WellKnown};
use std::alloc::{AllocError, Global};
use std::marker::Model;
use summary::Slots;

/// What connections have registered. The rules that ask for a name as the sender are counted with the name's slot.
#[derive(Drop)]
pub(crate) struct RegistrationTable {
    names: Claims,
    entries: EntryTable,
}

impl Model for RegistrationTable {
    ghost use Rattle.program_table.specs.Registrations.{Registrations};
    ghost use Rattle.program_table.specs.Ties.{registrations_of, AreTied};

    ghost Value = { Registrations };

    ghost view = { λ t. registrations_of t.names t.entries };

    ghost invariant = { λ t. AreTied t.names t.entries };
}

impl RegistrationTable {
    ghost use Rattle.std.specs.Prelude.{◌≡◌, ◌<◌, ℕ, true, length, find, Ok, IfOk, IfSome, Some, option_map, is_ok};
    ghost use Rattle.message_view.specs.Message.{Message};
    ghost use Rattle.message_view.specs.Valid.{Valid};
    ghost use Rattle.match_rule.specs.RuleTree.{sender_name_of};
    ghost use Rattle.summary.specs.Sets.{has_slot, IsSet};
    ghost use Rattle.owners.specs.Queues.{owner_of, queue_of, after_requesting};
    ghost use Rattle.owners.specs.Registry.{max_names, next_name, least_of};
    ghost use Rattle.rule_compile.specs.Compiled.{IsSlotOf};
    ghost use Rattle.program_table.specs.SlotSearch.{rule_slot};
    ghost use Rattle.entry_table.specs.declared.entry.Filter.TheVariants as filters;
    ghost use Rattle.match_rule.specs.FixedTexts.{texts_from};
    ghost use Rattle.entry_table.specs.Entries.{is_rule_after};
    ghost use Rattle.entry_table.specs.OfferedEntries.{AreOffered};
    ghost use Rattle.program_table.specs.SlotNames.{slot_next};
    ghost use Rattle.program_table.specs.Recipients.{AreOwnedSlots};
    ghost use Rattle.program_table.specs.IsState.{AreRegistrations};
    ghost use Rattle.program_table.specs.Registrations.{no_registrations, with_entry, with_sender, without_entry, with_request, without_claim, without_all_of};
    ghost use Rattle.program_table.specs.Capacities.{entry_within, rule_within, claim_within, slot_within, is_over};
    ghost use Rattle.program_table.specs.Answers.{has_room, slot_fits, oldest_with, add_rule_answer, remove_rule_answer, attach_answer, detach_answer, request_answer, release_answer, drop_answer};

    /// A table without claims and entries. The index of entries hashes texts with this key.
    pub(crate) fn new(alloc: Global, key: IndexKey) -> Result<RegistrationTable, AllocError>
        ensures { IfOk result (λ table. table ≡ no_registrations) }
    {
        let names = Claims::new(alloc)?;
        let entries = EntryTable::new(alloc, key)?;
        let _ = entries.last_id();
        Ok(RegistrationTable { names, entries })
    }

    /// Whether one entry more is within the capacity.
    pub(crate) fn entry_within(&self, most: &Capacity) -> Result<(), Refusal>
        ensures { result ≡ entry_within most.now self.now }
    {
        if self.entries.len() >= most.entries as usize {
            Err(Refusal::EntriesFull)
        } else {
            Ok(())
        }
    }

    /// Whether a slot for this name is within the capacity.
    fn slot_within(&self, most: &Capacity, name: &str) -> Result<(), Refusal>
        ensures { result ≡ slot_within most.now (Some name.now) self.now.slots }
    {
        match self.slot_next(name) {
            Some(slot) if u32::from(slot) < most.names => Ok(()),
            _ => Err(Refusal::NamesFull),
        }
    }

    /// Whether an entry with the rule is within the capacity.
    pub(crate) fn rule_within(&self, most: &Capacity, rule: &Rule) -> Result<(), Refusal>
        ensures { result ≡ rule_within most.now (sender_name_of rule.now) self.now }
    {
        self.entry_within(most)?;
        match rule.sender_name() {
            Some(name) => self.slot_within(most, name),
            None => Ok(()),
        }
    }

    /// Whether a request for a name that has a slot or gets one would make one claim more than there may be.
    fn is_over(&self, most: &Capacity, name: &WellKnown, connection: u64, flags: u32) -> bool
        ensures { IfSome (slot_next name.now self.now.slots) (λ _. result ≡ is_over most.now.claims (length self.now.claims) (length (after_requesting name.now connection flags self.now.claims))) }
    {
        self.names.len() >= most.claims as usize && self.names.request_adds(name, connection, flags)
    }

    /// Whether a claim on the name is within the capacity.
    pub(crate) fn claim_within(
        &self,
        most: &Capacity,
        name: &WellKnown,
        connection: u64,
        flags: u32,
    ) -> Result<(), Refusal>
        ensures { result ≡ claim_within most.now name.now connection flags self.now }
    {
        self.slot_within(most, name.as_str())?;
        if self.is_over(most, name, connection, flags) {
            Err(Refusal::QueueFull)
        } else {
            Ok(())
        }
    }

    /// Whether there is room for an entry.
    fn room(&self) -> Result<(), Refusal>
        ensures { result ≡ has_room self.now }
    {
        if self.entries.is_full() {
            Err(Refusal::EntriesFull)
        } else {
            Ok(())
        }
    }

    /// Whether a rule was compiled for the slot that its sender name has or gets.
    fn slot_fits(&self, program: &RuleProgram) -> Result<(), Refusal>
        ensures { result ≡ slot_fits (sender_name_of program.now.rule) program.now.slot self.now.slots }
    {
        let Some(name) = program.rule().sender_name() else {
            return Ok(());
        };
        let slot = self.slot_next(name);
        if slot.is_none() {
            Err(Refusal::NamesFull)
        } else if program.slot() == slot {
            Ok(())
        } else {
            Err(Refusal::Stale)
        }
    }

    /// The slot for which a rule is compiled, where there is room for its entry.
    pub(crate) fn rule_slot(&self, rule: &Rule) -> Result<Option<u16>, Refusal>
        ensures answer { result ≡ rule_slot rule.now self.now }
        ensures fit { IfOk result (λ slot. IsSlotOf slot rule.now) }
    {
        self.room()?;
        let Some(name) = rule.sender_name() else {
            return Ok(None);
        };
        match self.slot_next(name) {
            Some(slot) => Ok(Some(slot)),
            None => Err(Refusal::NamesFull),
        }
    }

    pub(crate) fn add_rule_answer(&self, program: &RuleProgram) -> Result<Reply, Refusal>
        ensures { result ≡ add_rule_answer program.now self.now }
    {
        self.room()?;
        self.slot_fits(program)?;
        Ok(Reply::Entry(self.entries.last_id() + 1))
    }

    pub(crate) fn attach_answer(&self) -> Result<Reply, Refusal>
        ensures { result ≡ attach_answer self.now }
    {
        self.room()?;
        Ok(Reply::Entry(self.entries.last_id() + 1))
    }

    pub(crate) fn remove_rule_answer(&self, connection: u64, rule: &Rule) -> Result<Reply, Refusal>
        ensures { result ≡ remove_rule_answer connection rule.now self.now }
    {
        match self.entries.find_rule(connection, rule) {
            Some(_) => Ok(Reply::Done),
            None => Err(Refusal::RuleNotFound),
        }
    }

    pub(crate) fn detach_answer(&self, connection: u64, id: u32) -> Result<Reply, Refusal>
        ensures { result ≡ detach_answer connection id self.now }
    {
        if self.entries.has_attachment(connection, id) {
            Ok(Reply::Done)
        } else {
            Err(Refusal::NoAttachment)
        }
    }

    pub(crate) fn request_answer(
        &self,
        name: &WellKnown,
        connection: u64,
        flags: u32,
    ) -> Result<Reply, Refusal>
        ensures { result ≡ request_answer name.now connection flags self.now }
    {
        match self.names.request_reply(name, connection, flags) {
            Ok(named) => Ok(Reply::Name(named)),
            Err(error) => Err(claim_refusal(error)),
        }
    }

    pub(crate) fn release_answer(&self, name: &WellKnown, connection: u64) -> Reply
        ensures { result ≡ release_answer name.now connection self.now }
    {
        Reply::Name(self.names.release_reply(name, connection))
    }

    pub(crate) fn drop_answer(&self, connection: u64) -> Reply
        ensures { result ≡ drop_answer connection self.now }
    {
        match self.names.drop_one_reply(connection) {
            Dropped::Nothing => Reply::Nothing,
            Dropped::Waiting => Reply::Waiting,
            Dropped::Changed(change) => Reply::Changed(change),
        }
    }

    /// Adds an entry with a rule. The name that it asks for as the sender, if it does, gets a slot.
    pub(crate) fn add_rule(&mut self, connection: u64, program: RuleProgram)
        requires room { has_room self.old ≡ Ok tt }
        requires fits { slot_fits (sender_name_of program.rule) program.slot self.old.slots ≡ Ok tt }
        ensures { self.new ≡ with_sender (sender_name_of program.rule) (with_entry connection (filters.Rule program) self.old) }
    {
        match sender_of(&program) {
            Some(name) => {
                let _ = self.names.slot_for(&name);
                self.entries.add(connection, Filter::Rule(program));
                let _ = self.entries.last_id();
            }
            None => {
                self.entries.add(connection, Filter::Rule(program));
                let _ = self.entries.last_id();
            }
        }
    }

    /// Adds an entry with an attached program.
    pub(crate) fn attach(&mut self, connection: u64, attachment: Attachment)
        requires { has_room self.old ≡ Ok tt }
        ensures { self.new ≡ with_entry connection (filters.Attached attachment) self.old }
    {
        self.entries.add(connection, Filter::Attached(attachment));
        let _ = self.entries.last_id();
    }

    /// Takes out the connection's entry of this id, if it has one.
    pub(crate) fn remove_entry(&mut self, connection: u64, id: u32)
        ensures { self.new ≡ without_entry connection (Some id) self.old }
    {
        removal::remove_entry(&mut self.names, &mut self.entries, connection, id);
    }

    /// Takes out the connection's oldest entry with an equal rule.
    pub(crate) fn remove_rule(&mut self, connection: u64, rule: &Rule)
        ensures { self.new ≡ without_entry connection (oldest_with connection rule.now self.old.entries) self.old }
    {
        match self.entries.find_rule(connection, rule) {
            Some(id) => self.remove_entry(connection, id),
            None => {}
        }
    }

    pub(crate) fn request(&mut self, name: &WellKnown, connection: u64, flags: u32)
        requires { is_ok (request_answer name.now connection flags self.old) ≡ true }
        ensures { self.new ≡ with_request name.now connection flags self.old }
    {
        let _ = self.names.request(name, connection, flags);
    }

    pub(crate) fn release(&mut self, name: &WellKnown, connection: u64)
        ensures { self.new ≡ without_claim connection (Some name.now) self.old }
    {
        let _ = self.names.release(name, connection);
    }

    pub(crate) fn drop_one(&mut self, connection: u64)
        ensures { self.new ≡ without_claim connection (least_of connection self.old.claims) self.old }
    {
        let _ = self.names.drop_one(connection);
    }

    /// Takes out all claims and entries of a connection.
    pub(crate) fn close(&mut self, connection: u64)
        ensures { self.new ≡ without_all_of connection self.old }
    {
        removal::remove_all(&mut self.names, &mut self.entries, connection);
    }

    /// The slots of the names whose primary owner is the sender. None is the bus.
    pub(crate) fn slots_of(&self, sender: Option<u64>) -> Slots
        ensures { AreOwnedSlots self.now sender result }
    {
        match sender {
            Some(connection) => self.names.slots_of(connection),
            None => Slots::empty(),
        }
    }

    /// The entries that a message from this sender is offered to.
    #[inline(always)]
    pub(crate) fn entries_for<'a>(&'a self, view: &View<'a>, sender: Option<&'a str>) -> Offers<'a>
        ensures offers { (m : Message) → Valid view.now m → AreOffered self.now.entries (texts_from (option_map (λ name. name.now) sender.entry) m) result }
        ensures sound { AreRegistrations self.now }
    {
        self.entries.entries_for(view, sender)
    }

    /// How many entries there are.
    pub(crate) fn entry_count(&self) -> usize
        ensures { result ≡ length self.now.entries }
    {
        self.entries.len()
    }

    /// A connection's oldest entry with a rule whose id is above this one.
    pub(crate) fn next_rule(&self, connection: u64, after: u32) -> Option<&Entry>
        ensures { option_map (λ e. e.now) result ≡ find (is_rule_after connection after) self.now.entries }
    {
        self.entries.next_rule(connection, after)
    }

    /// The primary owner of a name.
    pub(crate) fn owner_of(&self, name: &str) -> Option<u64>
        ensures { result ≡ owner_of name.now self.now.claims }
    {
        self.names.owner_of(name)
    }

    /// The connections that own a name or wait for it, in order.
    pub(crate) fn queue_of(&self, name: &str) -> Queue<'_>
        ensures { result ≡ queue_of name.now self.now.claims }
    {
        self.names.queue_of(name)
    }

    /// The least owned name after another in the order of bytes, or the least of all.
    pub(crate) fn next_name(&self, after: Option<&WellKnown>) -> Option<WellKnown>
        ensures { result ≡ next_name (option_map (λ name. name.now) after.entry) self.now.claims }
    {
        self.names.next_name(after)
    }

    /// The slot that a name has, or gets when it needs one.
    pub(crate) fn slot_next(&self, name: &str) -> Option<u16>
        ensures slot { result ≡ slot_next name.now self.now.slots }
        ensures small { IfSome result (λ slot. slot < max_names) }
    {
        self.names.slot_next(name)
    }
}

/// Why a claim is refused. A name that was read is neither bad nor reserved.
fn claim_refusal(error: ClaimError) -> Refusal
    ensures { result ≡ claim_refusal error }
{
    match error {
        ClaimError::NamesFull => Refusal::NamesFull,
        ClaimError::QueueFull | ClaimError::BadName | ClaimError::Reserved => Refusal::QueueFull,
    }
}
