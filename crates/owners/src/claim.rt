// Claims as they are kept: each with the slot of its name.

ghost use Rattle.std.specs.Prelude.{◌≡◌, ◌++◌, find, option_map, if◌then◌else◌};
ghost use Rattle.std.specs.List.{list_any};
ghost use Rattle.std.specs.Cmp.{partial_equiv_from_equiv};
ghost use Rattle.std.specs.Hash as fed;
ghost use Rattle.owners.specs.Kept.{is_on_slot, is_by, is_slot_claim, slot_without, is_leaving};
ghost use Rattle.owners.specs.SameClaim.{same_claim, same_claim_equiv, same_claim_alike};

use std::hash::{Hash, Hasher};

/// A connection's claim on the name that has the slot, with the flags of its last request. Claims are compared by
/// the connection and the slot: a connection has one on a name at most.
#[derive(Clone, Copy)]
pub(crate) struct SlotClaim {
    pub(crate) connection: u64,
    pub(crate) flags: u32,
    pub(crate) slot: u16,
}

impl SlotClaim {
    /// The claim, with the other one's flags if both are the same connection's on the same name.
    pub(crate) fn flagged_as(self, other: SlotClaim) -> SlotClaim
        ensures { result ≡ (if is_slot_claim other.slot other.connection self then record self { flags = other.flags } else self) }
    {
        if self == other { other } else { self }
    }

    /// Whether it is the connection's, and on the name that has the slot, if one is given.
    pub(crate) fn is_leaving(&self, slot: Option<u16>, connection: u64) -> bool
        ensures { result ≡ is_leaving slot connection self.now }
    {
        let is_on_slot = match slot {
            Some(slot) => self.slot == slot,
            None => true,
        };
        is_on_slot && self.connection == connection
    }
}

impl PartialEq for SlotClaim {
    ghost eq = { same_claim };

    ghost laws = { partial_equiv_from_equiv same_claim_equiv };

    fn eq(&self, other: &SlotClaim) -> bool {
        other.slot == self.slot && other.connection == self.connection
    }
}

impl Eq for SlotClaim {
    ghost laws = { same_claim_equiv };
}

impl Hash for SlotClaim {
    ghost hash_input = { λ claim. fed.u16 claim.slot ++ fed.u64 claim.connection };

    ghost respects_eq = { same_claim_alike };

    fn hash<H: Hasher>(&self, state: &mut H) {
        state.write_u16(self.slot);
        state.write_u64(self.connection);
    }
}

/// The connection whose claim it is.
pub(crate) fn connection_of(claim: Option<SlotClaim>) -> Option<u64>
    ensures { result ≡ option_map (λ c. c.connection) claim }
{
    match claim {
        Some(claim) => Some(claim.connection),
        None => None,
    }
}

/// Whether the connection has a claim on any name.
pub(crate) fn has_any(claims: &[SlotClaim], connection: u64) -> bool
    ensures { result ≡ list_any (is_by connection) claims.now }
{
    for claim in claims {
        if claim.connection == connection {
            return true;
        }
    }
    false
}

/// The first claim on the name that has the slot, which is its owner's.
pub(crate) fn first_on(claims: &[SlotClaim], slot: u16) -> Option<SlotClaim>
    ensures { result ≡ find (is_on_slot slot) claims.now }
{
    for claim in claims {
        if claim.slot == slot {
            return Some(*claim);
        }
    }
    None
}

/// The first claim on the name that has the slot, that of one connection aside.
pub(crate) fn first_other(claims: &[SlotClaim], slot: u16, connection: u64) -> Option<SlotClaim>
    ensures { result ≡ find (is_on_slot slot) (slot_without slot connection claims.now) }
{
    for claim in claims {
        if claim.slot == slot && claim.connection != connection {
            return Some(*claim);
        }
    }
    None
}
