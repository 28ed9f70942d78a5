// The connections that own a name or wait for it.

ghost use Rattle.std.specs.Prelude.{◌≡◌, [], ◌∷◌, MatchOption};
ghost use Rattle.owners.specs.Kept.{slot_queue};

use crate::claim::SlotClaim;
use std::marker::Model;

/// The connections of a name's queue that are still to come, in order, the primary owner first.
#[derive(Drop)]
pub struct Queue<'a> {
    claims: &'a [SlotClaim],
    slot: u16,
}

impl<'a> Model for Queue<'a> {
    ghost use Rattle.std.specs.Prelude.{ℕ, List};
    ghost use Rattle.owners.specs.Kept.{slot_queue};

    ghost Value = { List ℕ };

    ghost view = { λ q. slot_queue q.slot q.claims.now };
}

impl<'a> Queue<'a> {
    ghost use Rattle.std.specs.Prelude.{◌≡◌};
    ghost use Rattle.owners.specs.Kept.{slot_queue};

    /// The queue of the name that has the slot.
    pub(crate) fn new(claims: &'a [SlotClaim], slot: u16) -> Self
        ensures { result ≡ slot_queue slot claims.now }
    {
        Queue { claims, slot }
    }
}

/// The connection of the first claim on the name that has the slot, and the claims after it.
fn next_on(claims: &[SlotClaim], slot: u16) -> Option<(u64, &[SlotClaim])>
    ensures { MatchOption result (slot_queue slot claims.now ≡ []) (λ next. slot_queue slot claims.now ≡ next.0 ∷ slot_queue slot next.1.now) }
{
    let mut rest = claims;
    while let Some((first, others)) = rest.split_first() {
        if first.slot == slot {
            return Some((first.connection, others));
        }
        rest = others;
    }
    None
}

impl<'a> Iterator for Queue<'a> {
    ghost use Rattle.std.specs.Iterator.{YieldsFirst, item_count};

    type Item = u64;

    ghost next_gives = { YieldsFirst (λ s. s) };

    ghost remaining = { item_count (λ s. s) };

    fn next(&mut self) -> Option<u64> {
        let (connection, rest) = next_on(self.claims, self.slot)?;
        self.claims = rest;
        Some(connection)
    }
}
