// The least of the claimed names.

ghost use Rattle.std.specs.Prelude.{◌≡◌, ◌==◌, true, Some, filter, map, option_map, slice_get, if◌then◌else◌};
ghost use Rattle.owners.specs.Registry.{lesser, least, is_after};
ghost use Rattle.owners.specs.Kept.{is_by, is_named_after, are_held, claim_name};

use crate::claim::SlotClaim;
use crate::holding::{Holding, name_at};
use crate::well_known::WellKnown;

/// The lesser of two names in the order of bytes, if there is another.
fn lesser(name: &WellKnown, other: Option<WellKnown>) -> Option<WellKnown>
    ensures { result ≡ lesser name.now other }
{
    match other {
        Some(other) if other < *name => Some(other),
        _ => Some(name.copy()),
    }
}

/// The lesser of both names, or the other alone where the first doesn't count.
fn lesser_if(counts: bool, name: &WellKnown, other: Option<WellKnown>) -> Option<WellKnown>
    ensures { result ≡ (if counts then lesser name.now other else other) }
{
    if counts { lesser(name, other) } else { other }
}

fn is_after(other: &Option<WellKnown>, name: &WellKnown) -> bool
    ensures { result ≡ is_after other.now name.now }
{
    match other {
        Some(other) => *other < *name,
        None => true,
    }
}

/// A copy of the name, if there is one.
pub(crate) fn copy_of(name: Option<&WellKnown>) -> Option<WellKnown>
    ensures { result ≡ option_map (λ name. name.now) name.entry }
{
    match name {
        Some(name) => Some(name.copy()),
        None => None,
    }
}

/// The least of the names that the connection has a claim on.
pub(crate) fn least_of(
    claims: &[SlotClaim],
    slots: &[Option<Holding>],
    connection: u64,
) -> Option<WellKnown>
    requires { are_held claims.now slots.now ≡ true }
    ensures { result ≡ least (map (claim_name slots.now) (filter (is_by connection) claims.now)) }
{
    let mut least = None;
    let mut left = claims.len();
    while left > 0 {
        left -= 1;
        let claim = &claims[left];
        let counts = claim.connection == connection;
        least = lesser_if(counts, name_at(slots, claim.slot), least);
    }
    least
}

/// The least of the claimed names after another, or of all.
pub(crate) fn least_after(
    claims: &[SlotClaim],
    slots: &[Option<Holding>],
    other: &Option<WellKnown>,
) -> Option<WellKnown>
    requires { are_held claims.now slots.now ≡ true }
    ensures { result ≡ least (map (claim_name slots.now) (filter (is_named_after other.now slots.now) claims.now)) }
{
    let mut least = None;
    let mut left = claims.len();
    while left > 0 {
        left -= 1;
        let name = name_at(slots, claims[left].slot);
        let counts = is_after(other, name);
        least = lesser_if(counts, name, least);
    }
    least
}
