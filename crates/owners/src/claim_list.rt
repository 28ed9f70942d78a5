// The claims in queue order.

ghost use Rattle.std.specs.Prelude.{◌≡◌, ◌≤◌, ◌+◌, [], ◌∷◌, ◌++◌, false, filter, length, not, IfOk};
ghost use Rattle.std.specs.List.{list_any, IsDistinct};
ghost use Rattle.indexmap.specs.IndexSet.{spare, IsEmpty};
ghost use Rattle.owners.specs.Kept.{is_slot_claim, is_leaving, slot_with_flags, claim_put};
ghost use Rattle.owners.specs.SameClaim.{same_claim};

use crate::claim::SlotClaim;
use crate::claims::MAX_CLAIMS;
use indexmap::IndexSet;
use std::alloc::{AllocError, Global};
use std::marker::Model;
use std::mem;

/// The claims in queue order, a connection's on a name once. All room is taken by `new`.
///
/// A set that values are removed from need not hold as many as before without more memory, but one that is cleared
/// does. So the claims that stay after a removal are put into a second set, which is empty between calls.
#[derive(Drop)]
pub(crate) struct ClaimList {
    claims: IndexSet<SlotClaim>,
    cleared: IndexSet<SlotClaim>,
}

impl Model for ClaimList {
    ghost use Rattle.std.specs.Prelude.{List};
    ghost use Rattle.owners.specs.declared.claim.SlotClaim.{SlotClaim};
    ghost use Rattle.owners.specs.Rooms.{HasRooms};

    ghost Value = { List SlotClaim };

    ghost view = { λ list. list.claims.keys };

    ghost invariant = { λ list. HasRooms list.claims list.cleared };
}

/// Puts a claim last.
fn put_last(claims: &mut IndexSet<SlotClaim>, claim: SlotClaim)
    requires room { 4096 ≤ length claims.old.keys + spare claims.old }
    requires fits { length claims.old.keys + 1 ≤ 4096 }
    requires new { list_any (is_slot_claim claim.slot claim.connection) claims.old.keys ≡ false }
    ensures claims { claims.new.keys ≡ claims.old.keys ++ claim ∷ [] }
    ensures room { 4096 ≤ length claims.new.keys + spare claims.new }
    ensures apart { IsDistinct same_claim claims.new.keys }
{
    match claims.insert(claim) {
        Ok(_) => {}
        Err(_) => unreachable!(),
    }
}

/// Puts the claims that stay into an empty set.
fn put_staying(
    staying: &mut IndexSet<SlotClaim>,
    claims: &[SlotClaim],
    slot: Option<u16>,
    connection: u64,
)
    requires fits { length claims.now ≤ 4096 }
    requires apart { IsDistinct same_claim claims.now }
    requires empty { IsEmpty staying.old }
    requires room { 4096 ≤ spare staying.old }
    ensures claims { staying.new.keys ≡ filter (λ c. not (is_leaving slot connection c)) claims.now }
    ensures room { 4096 ≤ length staying.new.keys + spare staying.new }
    ensures apart { IsDistinct same_claim staying.new.keys }
{
    for claim in claims {
        if !claim.is_leaving(slot, connection) {
            put_last(staying, *claim);
        }
    }
}

/// Puts the claims into an empty set, one of them with other flags.
fn put_flagged(staying: &mut IndexSet<SlotClaim>, claims: &[SlotClaim], flagged: SlotClaim)
    requires fits { length claims.now ≤ 4096 }
    requires apart { IsDistinct same_claim claims.now }
    requires empty { IsEmpty staying.old }
    requires room { 4096 ≤ spare staying.old }
    ensures claims { staying.new.keys ≡ slot_with_flags flagged.slot flagged.connection flagged.flags claims.now }
    ensures room { 4096 ≤ length staying.new.keys + spare staying.new }
    ensures apart { IsDistinct same_claim staying.new.keys }
{
    for claim in claims {
        put_last(staying, claim.flagged_as(flagged));
    }
}

/// The second set takes the place of the first, which is emptied claim by claim: to clear it would write over all its room.
fn exchange(claims: &mut IndexSet<SlotClaim>, cleared: &mut IndexSet<SlotClaim>)
    ensures claims { claims.new ≡ cleared.old }
    ensures empty { IsEmpty cleared.new }
    ensures room { length claims.old.keys + spare claims.old ≤ spare cleared.new }
{
    claims.truncate(0);
    mem::swap(claims, cleared);
}

impl ClaimList {
    /// No claims.
    pub(crate) fn new(alloc: Global) -> Result<ClaimList, AllocError>
        ensures { IfOk result (λ list. list ≡ []) }
    {
        let claims = IndexSet::with_capacity(alloc, MAX_CLAIMS)?;
        let cleared = IndexSet::with_capacity(alloc, MAX_CLAIMS)?;
        Ok(ClaimList { claims, cleared })
    }

    pub(crate) fn as_slice(&self) -> &[SlotClaim]
        ensures value { result.now ≡ self.now }
    {
        self.claims.as_slice()
    }

    pub(crate) fn len(&self) -> usize
        ensures { result ≡ length self.now }
    {
        self.claims.len()
    }

    /// Whether the connection has a claim on the name that has the slot.
    pub(crate) fn has(&self, slot: u16, connection: u64) -> bool
        ensures { result ≡ list_any (is_slot_claim slot connection) self.now }
    {
        let claim = SlotClaim {
            connection,
            flags: 0,
            slot,
        };
        self.claims.contains(&claim)
    }

    /// The claim takes the place of the connection's on the name, or is put last.
    pub(crate) fn put(&mut self, claim: SlotClaim)
        requires { length (claim_put claim self.old) ≤ 4096 }
        ensures { self.new ≡ claim_put claim self.old }
    {
        if self.claims.contains(&claim) {
            put_flagged(&mut self.cleared, self.claims.as_slice(), claim);
            exchange(&mut self.claims, &mut self.cleared);
        } else {
            put_last(&mut self.claims, claim);
        }
    }

    /// The claim is put first.
    pub(crate) fn put_first(&mut self, claim: SlotClaim)
        requires fits { length self.old + 1 ≤ 4096 }
        requires new { list_any (is_slot_claim claim.slot claim.connection) self.old ≡ false }
        ensures { self.new ≡ claim ∷ self.old }
    {
        match self.claims.shift_insert(0, claim) {
            Ok(_) => {}
            Err(_) => unreachable!(),
        }
    }

    /// Takes away the connection's claim on the name that has the slot, or with no slot all its claims.
    pub(crate) fn remove(&mut self, slot: Option<u16>, connection: u64)
        ensures { self.new ≡ filter (λ c. not (is_leaving slot connection c)) self.old }
    {
        put_staying(&mut self.cleared, self.claims.as_slice(), slot, connection);
        exchange(&mut self.claims, &mut self.cleared);
    }
}
