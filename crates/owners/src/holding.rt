// The slots of names.

ghost use Rattle.std.specs.Prelude.{◌≡◌, ◌≤◌, length, slice_get, true};
ghost use Rattle.owners.specs.Registry.{is_unused, is_held_by, slot_of, first_free, rules_at};
ghost use Rattle.owners.specs.Kept.{are_slots, is_name, name_at, IsFreeFrom, AreLetGo};

use crate::claim::SlotClaim;
use crate::marks::claimed_slots;
use crate::well_known::WellKnown;

/// A name that has a slot, with the number of rules whose sender it is.
#[derive(Drop)]
pub struct Holding {
    pub name: WellKnown,
    pub rules: u32,
}

fn is_held_by(slot: &Option<Holding>, name: &str) -> bool
    ensures { result ≡ is_held_by name.now slot.now }
{
    match slot {
        Some(holding) => holding.name.as_str() == name,
        None => false,
    }
}

/// The slot that a name has.
pub(crate) fn slot_of(slots: &[Option<Holding>], name: &str) -> Option<u16>
    requires { length slots.now ≤ 1024 }
    ensures { result ≡ slot_of name.now slots.now }
{
    let mut place = 0;
    for slot in slots {
        if is_held_by(slot, name) {
            return Some(place);
        }
        place += 1;
    }
    None
}

/// The lowest free slot.
pub(crate) fn first_free(slots: &[Option<Holding>]) -> Option<u16>
    requires { length slots.now ≤ 1024 }
    ensures { result ≡ first_free slots.now }
{
    let mut place = 0;
    for slot in slots {
        if slot.is_none() {
            return Some(place);
        }
        place += 1;
    }
    None
}

/// The name that has a slot.
pub(crate) fn name_at(slots: &[Option<Holding>], slot: u16) -> &WellKnown
    requires { is_name (slice_get slots.now slot) ≡ true }
    ensures { result.now ≡ name_at (slice_get slots.now slot) }
{
    match slots.get(slot as usize) {
        Some(Some(holding)) => &holding.name,
        _ => unreachable!(),
    }
}

/// How many rules have the name of a slot as their sender.
pub(crate) fn rules_at(slots: &[Option<Holding>], slot: u16) -> u32
    ensures { result ≡ rules_at (slice_get slots.now slot) }
{
    match slots.get(slot as usize) {
        Some(Some(holding)) => holding.rules,
        _ => 0,
    }
}

/// Whether a slot is let go, by whether its name is claimed.
fn is_unused(slot: &Option<Holding>, claimed: bool) -> bool
    ensures { result ≡ is_unused claimed slot.now }
{
    match slot {
        Some(holding) => holding.rules == 0 && !claimed,
        None => false,
    }
}

/// Lets go each slot whose name has neither a claim nor a rule, where no slot from the mark `used` on is held.
pub(crate) fn let_go(slots: &mut Vec<Option<Holding>>, used: usize, claims: &[SlotClaim])
    requires size { length slots.old.items ≤ 1024 }
    requires used { IsFreeFrom used slots.old.items }
    requires inside { are_slots claims.now ≡ true }
    ensures { AreLetGo claims.now slots.old.items slots.new.items }
{
    let claimed = claimed_slots(claims);
    for i in 0..used {
        if is_unused(&slots[i], claimed.contains(i as u16)) {
            slots[i] = None;
        }
    }
}
