// The slots of names, and how far they are used.

ghost use Rattle.std.specs.Prelude.{◌≡◌, ◌<◌, ◌≤◌, Some, None, length, replicate, slice_set, unwrap_or, true, IfOk};
ghost use Rattle.owners.specs.Registry.{slot_of, slot_next};
ghost use Rattle.owners.specs.Kept.{are_slots, IsFreeFrom, AreLetGo};

use crate::claim::SlotClaim;
use crate::claims::MAX_NAMES;
use crate::holding::{Holding, first_free, let_go, slot_of};
use crate::well_known::WellKnown;
use std::alloc::{AllocError, Global};
use std::marker::Model;

/// A number that is no slot's.
const NO_SLOT: u16 = u16::MAX;

/// The slots, each with the name that has it. All room is taken by `new`.
///
/// No slot from the mark `used` on is held, so that a search for a name looks at those below it alone.
#[derive(Drop)]
pub(crate) struct Holdings {
    slots: Vec<Option<Holding>>,
    used: usize,
}

impl Model for Holdings {
    ghost use Rattle.std.specs.Prelude.{List, Option};
    ghost use Rattle.owners.specs.declared.holding.Holding.{Holding};
    ghost use Rattle.owners.specs.Kept.{IsFreeFrom};

    ghost Value = { List (Option Holding) };

    ghost view = { λ holdings. holdings.slots.items };

    ghost invariant = { λ holdings. IsFreeFrom holdings.used holdings.slots.items };
}

/// As many free slots as there can be names.
fn free_slots(alloc: Global) -> Result<Vec<Option<Holding>>, AllocError>
    ensures { IfOk result (λ slots. slots.items ≡ replicate 1024 None) }
{
    let mut slots = Vec::with_capacity(alloc, MAX_NAMES)?;
    for _place in 0..MAX_NAMES {
        slots.push(None)?;
    }
    Ok(slots)
}

/// The least mark from which on no slot is held, by a mark of which that is known.
fn least_mark(slots: &[Option<Holding>], known: usize) -> usize
    requires { IsFreeFrom known slots.now }
    ensures { IsFreeFrom result slots.now }
{
    let mut used = known;
    while used > 0 && slots[used - 1].is_none() {
        used -= 1;
    }
    used
}

impl Holdings {
    /// No slot is held.
    pub(crate) fn new(alloc: Global) -> Result<Holdings, AllocError>
        ensures { IfOk result (λ holdings. holdings ≡ replicate 1024 None) }
    {
        let slots = free_slots(alloc)?;
        Ok(Holdings { slots, used: 0 })
    }

    pub(crate) fn as_slice(&self) -> &[Option<Holding>]
        ensures value { result.now ≡ self.now }
    {
        self.slots.as_slice()
    }

    /// The slot that a name has.
    pub(crate) fn slot_of(&self, name: &str) -> Option<u16>
        requires { length self.now ≤ 1024 }
        ensures { result ≡ slot_of name.now self.now }
    {
        slot_of(&self.slots[..self.used], name)
    }

    /// The slot that a name has, else the lowest free one.
    pub(crate) fn slot_next(&self, name: &str) -> Option<u16>
        requires { length self.now ≤ 1024 }
        ensures { result ≡ slot_next name.now self.now }
    {
        match self.slot_of(name) {
            Some(slot) => Some(slot),
            None => first_free(self.slots.as_slice()),
        }
    }

    /// The slot that a name has, or a number that is no slot's.
    pub(crate) fn known_slot(&self, name: &str) -> u16
        requires { length self.now ≤ 1024 }
        ensures { result ≡ unwrap_or (slot_of name.now self.now) NO_SLOT }
    {
        self.slot_of(name).unwrap_or(NO_SLOT)
    }

    /// Gives a slot to a name that has this number of rules.
    pub(crate) fn hold(&mut self, slot: u16, name: &WellKnown, rules: u32)
        requires { slot < length self.old }
        ensures slots { self.new ≡ slice_set self.old slot (Some (record { name = name.now; rules = rules })) }
        ensures size { length self.new ≡ length self.old }
    {
        self.slots[slot as usize] = Some(Holding {
            name: name.copy(),
            rules,
        });
        self.used = self.used.max(slot as usize + 1);
    }

    /// Lets go each slot whose name has neither a claim nor a rule.
    pub(crate) fn let_go(&mut self, claims: &[SlotClaim])
        requires size { length self.old ≤ 1024 }
        requires inside { are_slots claims.now ≡ true }
        ensures { AreLetGo claims.now self.old self.new }
    {
        let_go(&mut self.slots, self.used, claims);
        self.used = least_mark(self.slots.as_slice(), self.used);
    }
}
