// The names with their claims and slots.

use crate::answer::{Dropped, Named};
use crate::claim::{SlotClaim, connection_of, first_on, has_any};
use crate::claim_list::ClaimList;
use crate::error::ClaimError;
use crate::holding::rules_at;
use crate::holdings::Holdings;
use crate::least::{copy_of, least_after, least_of};
use crate::marks::owned_slots;
use crate::plan::{adds_claim, plan_of};
use crate::queue::Queue;
use crate::release::{dropped_by, release_answer};
use crate::step::do_step;
use crate::well_known::WellKnown;
use std::alloc::{AllocError, Global};
use std::marker::Model;
use summary::Slots;

/// How many names can have a slot.
pub const MAX_NAMES: usize = 1024;

/// How many claims there can be.
pub const MAX_CLAIMS: usize = 4096;

/// How many rules can have one name as their sender.
pub const MAX_RULES: u32 = 65534;

/// The claims of connections on well-known names, and the slots of the names. All its room is taken by `new`.
#[derive(Drop)]
pub struct Claims {
    claims: ClaimList,
    slots: Holdings,
}

impl Model for Claims {
    ghost use Rattle.owners.specs.Registry.{Registry};

    ghost Value = { Registry };

    ghost use Rattle.owners.specs.Kept.{registry, IsKept};

    ghost view = { λ c. registry c.claims c.slots };

    ghost invariant = { λ c. IsKept c.claims c.slots };
}

impl Claims {
    ghost use Rattle.std.specs.Prelude.{◌≡◌, ◌<◌, ◌+◌, ℕ, List, Some, option_map, IfOk, IfSome, length, nat_lt};
    ghost use Rattle.summary.specs.Sets.{has_slot, IsSet};
    ghost use Rattle.owners.specs.Queues.{owner_of, queue_of, after_requesting};
    ghost use Rattle.owners.specs.Registry.{IsRegistry, opening, slot_of, slot_next, rules_of, request_answer, after_request, release_answer, after_release, least_of, drop_one_answer, after_drop_one, after_drop_all, after_slot_for, after_slot_free, slot_for_answer, is_owned_slot, next_name};

    /// No claims and no names.
    pub fn new(alloc: Global) -> Result<Claims, AllocError>
        ensures opening { IfOk result (λ names. names ≡ opening) }
        ensures registry { IfOk result (λ names. IsRegistry names) }
    {
        let claims = ClaimList::new(alloc)?;
        let slots = Holdings::new(alloc)?;
        Ok(Claims { claims, slots })
    }

    /// What `request` would answer.
    pub fn request_reply(
        &self,
        name: &WellKnown,
        connection: u64,
        flags: u32,
    ) -> Result<Named, ClaimError>
        ensures answer { result ≡ request_answer name.now connection flags self.now }
        ensures registry { IsRegistry self.now }
    {
        let plan = plan_of(&self.claims, &self.slots, name, connection, flags)?;
        Ok(plan.named)
    }

    /// How many claims there are.
    pub fn len(&self) -> usize
        ensures len { result ≡ length self.now.claims }
        ensures registry { IsRegistry self.now }
    {
        self.claims.len()
    }

    /// Whether `request` for a name that has a slot or gets one would make one more claim, were it not refused.
    pub fn request_adds(&self, name: &WellKnown, connection: u64, flags: u32) -> bool
        ensures adds { IfSome (slot_next name.now self.now.slots) (λ _. result ≡ nat_lt (length self.now.claims) (length (after_requesting name.now connection flags self.now.claims))) }
        ensures registry { IsRegistry self.now }
    {
        adds_claim(&self.claims, &self.slots, name, connection, flags)
    }

    /// A connection asks for a name (RequestName). After an error nothing has changed.
    ///
    /// # Errors
    ///
    /// NamesFull where the name has no slot and none is free, then QueueFull where there would be more than
    /// 4,096 claims.
    pub fn request(
        &mut self,
        name: &WellKnown,
        connection: u64,
        flags: u32,
    ) -> Result<Named, ClaimError>
        ensures answer { result ≡ request_answer name.now connection flags self.old }
        ensures after { self.new ≡ after_request name.now connection flags self.old }
        ensures registry { IsRegistry self.new }
    {
        let plan = plan_of(&self.claims, &self.slots, name, connection, flags)?;
        let claim = SlotClaim {
            connection,
            flags,
            slot: plan.slot,
        };
        let rules = rules_at(self.slots.as_slice(), plan.slot);
        do_step(&mut self.claims, plan.step, claim);
        self.slots.hold(plan.slot, name, rules);
        Ok(plan.named)
    }

    /// What `release` would answer.
    pub fn release_reply(&self, name: &WellKnown, connection: u64) -> Named
        ensures answer { result ≡ release_answer name.now connection self.now }
        ensures registry { IsRegistry self.now }
    {
        let slot = self.slots.known_slot(name.as_str());
        release_answer(&self.claims, slot, name, connection)
    }

    /// A connection gives up its claim on a name, whether it owns it or waits for it (ReleaseName).
    pub fn release(&mut self, name: &WellKnown, connection: u64) -> Named
        ensures answer { result ≡ release_answer name.now connection self.old }
        ensures after { self.new ≡ after_release name.now connection self.old }
        ensures registry { IsRegistry self.new }
    {
        let slot = self.slots.known_slot(name.as_str());
        let named = release_answer(&self.claims, slot, name, connection);
        self.claims.remove(Some(slot), connection);
        self.slots.let_go(self.claims.as_slice());
        named
    }

    /// The least of the names that a connection has a claim on.
    fn least_of(&self, connection: u64) -> Option<WellKnown>
        ensures name { result ≡ least_of connection self.now.claims }
        ensures registry { IsRegistry self.now }
    {
        least_of(self.claims.as_slice(), self.slots.as_slice(), connection)
    }

    /// What `drop_one` would answer.
    pub fn drop_one_reply(&self, connection: u64) -> Dropped
        ensures answer { result ≡ drop_one_answer connection self.now }
        ensures registry { IsRegistry self.now }
    {
        match self.least_of(connection) {
            Some(name) => dropped_by(self.release_reply(&name, connection)),
            None => Dropped::Nothing,
        }
    }

    /// A connection gives up its claim on the least of its names, in the order of bytes.
    pub fn drop_one(&mut self, connection: u64) -> Dropped
        ensures answer { result ≡ drop_one_answer connection self.old }
        ensures after { self.new ≡ after_drop_one connection self.old }
        ensures registry { IsRegistry self.new }
    {
        let Some(name) = self.least_of(connection) else {
            return Dropped::Nothing;
        };
        dropped_by(self.release(&name, connection))
    }

    /// A connection gives up all its claims.
    pub fn drop_all(&mut self, connection: u64)
        ensures after { self.new ≡ after_drop_all connection self.old }
        ensures registry { IsRegistry self.new }
    {
        if !has_any(self.claims.as_slice(), connection) {
            return;
        }
        self.claims.remove(None, connection);
        self.slots.let_go(self.claims.as_slice());
    }

    /// The primary owner of a name, if it has one.
    pub fn owner_of(&self, name: &str) -> Option<u64>
        ensures owner { result ≡ owner_of name.now self.now.claims }
        ensures registry { IsRegistry self.now }
    {
        let slot = self.slots.known_slot(name);
        connection_of(first_on(self.claims.as_slice(), slot))
    }

    /// The connections that own a name or wait for it, in order, the primary owner first.
    pub fn queue_of(&self, name: &str) -> Queue<'_>
        ensures queue { result ≡ queue_of name.now self.now.claims }
        ensures registry { IsRegistry self.now }
    {
        let slot = self.slots.known_slot(name);
        Queue::new(self.claims.as_slice(), slot)
    }

    /// The least owned name after another in the order of bytes, or the least of all.
    pub fn next_name(&self, after: Option<&WellKnown>) -> Option<WellKnown>
        ensures name { result ≡ next_name (option_map (λ name. name.now) after.entry) self.now.claims }
        ensures registry { IsRegistry self.now }
    {
        let other = copy_of(after);
        least_after(self.claims.as_slice(), self.slots.as_slice(), &other)
    }

    /// The slots of the names that a connection is the primary owner of.
    pub fn slots_of(&self, connection: u64) -> Slots
        ensures owned { (slot : ℕ) → has_slot result slot ≡ is_owned_slot connection self.now slot }
        ensures set { IsSet result }
        ensures registry { IsRegistry self.now }
    {
        owned_slots(self.claims.as_slice(), connection)
    }

    /// The slot that a name has.
    pub fn slot_of(&self, name: &str) -> Option<u16>
        ensures slot { result ≡ slot_of name.now self.now.slots }
        ensures registry { IsRegistry self.now }
    {
        self.slots.slot_of(name)
    }

    /// The slot that a name has, else the lowest free one; None where all are used.
    pub fn slot_next(&self, name: &str) -> Option<u16>
        ensures slot { result ≡ slot_next name.now self.now.slots }
        ensures registry { IsRegistry self.now }
    {
        self.slots.slot_next(name)
    }

    /// How many rules have a name as their sender.
    pub fn rules_of(&self, name: &str) -> u32
        ensures rules { result ≡ rules_of name.now self.now.slots }
        ensures registry { IsRegistry self.now }
    {
        let slot = self.slots.known_slot(name);
        rules_at(self.slots.as_slice(), slot)
    }

    /// A rule with the name as its sender is added; the name's slot. After an error nothing has changed.
    ///
    /// # Errors
    ///
    /// NamesFull where the name has no slot and none is free.
    pub fn slot_for(&mut self, name: &WellKnown) -> Result<u16, ClaimError>
        requires { rules_of name.now self.old.slots < 65534 }
        ensures slot { result ≡ slot_for_answer name.now self.old }
        ensures after { self.new ≡ after_slot_for name.now self.old }
        ensures registry { IsRegistry self.new }
    {
        let Some(slot) = self.slots.slot_next(name.as_str()) else {
            return Err(ClaimError::NamesFull);
        };
        let rules = rules_at(self.slots.as_slice(), slot);
        self.slots.hold(slot, name, rules + 1);
        Ok(slot)
    }

    /// A rule with the name as its sender is removed.
    pub fn slot_free(&mut self, name: &WellKnown)
        requires { 0 < rules_of name.now self.old.slots }
        ensures after { self.new ≡ after_slot_free name.now self.old }
        ensures registry { IsRegistry self.new }
    {
        let slot = self.slots.known_slot(name.as_str());
        let rules = rules_at(self.slots.as_slice(), slot);
        self.slots.hold(slot, name, rules - 1);
        self.slots.let_go(self.claims.as_slice());
    }
}
