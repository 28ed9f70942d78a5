// Sets of slots, told by claims.

ghost use Rattle.std.specs.Prelude.{◌≡◌, ◌<◌, ◌&&◌, ◌||◌, ◌==◌, ℕ, true, Some, nat_eq};
ghost use Rattle.std.specs.List.{list_any};
ghost use Rattle.std.specs.Option.{option_eq};
ghost use Rattle.summary.specs.Sets.{has_slot, IsSet};
ghost use Rattle.owners.specs.Kept.{is_on_slot, slot_owner, are_slots};

use crate::claim::SlotClaim;
use summary::Slots;

/// Adds the slot if this is its first claim, and the connection's.
fn add_owned(owned: &mut Slots, slot: u16, is_first: bool, is_own: bool)
    requires inside { slot < 1024 }
    requires set { IsSet owned.old }
    ensures slots { (other : ℕ) → has_slot owned.new other ≡ (((is_first && is_own) && (other == slot)) || has_slot owned.old other) }
    ensures set { IsSet owned.new }
{
    if is_first && is_own {
        owned.insert(slot);
    }
}

/// The slots of the names that there is a claim on.
pub(crate) fn claimed_slots(claims: &[SlotClaim]) -> Slots
    requires { are_slots claims.now ≡ true }
    ensures { (slot : ℕ) → has_slot result slot ≡ list_any (is_on_slot slot) claims.now }
{
    let mut claimed = Slots::empty();
    for claim in claims {
        claimed.insert(claim.slot);
    }
    claimed
}

/// The slots of the names whose first claim is the connection's.
pub(crate) fn owned_slots(claims: &[SlotClaim], connection: u64) -> Slots
    requires { are_slots claims.now ≡ true }
    ensures owned { (slot : ℕ) → has_slot result slot ≡ option_eq nat_eq (slot_owner slot claims.now) (Some connection) }
    ensures set { IsSet result }
{
    let mut seen = Slots::empty();
    let mut owned = Slots::empty();
    for claim in claims {
        let is_first = !seen.contains(claim.slot);
        let is_own = claim.connection == connection;
        add_owned(&mut owned, claim.slot, is_first, is_own);
        seen.insert(claim.slot);
    }
    owned
}
