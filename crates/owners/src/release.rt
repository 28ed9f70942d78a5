// What a release is answered.

ghost use Rattle.std.specs.Prelude.{◌≡◌};
ghost use Rattle.owners.specs.Registry.{dropped_by};
ghost use Rattle.owners.specs.Kept.{slot_release_reply, slot_release_answer};

use crate::answer::{Dropped, NameReply, Named};
use crate::claim::{connection_of, first_on, first_other};
use crate::claim_list::ClaimList;
use crate::plan::change_of;
use crate::well_known::WellKnown;

/// The reply to a release of the name that has the slot.
fn release_reply(claims: &ClaimList, slot: u16, connection: u64) -> NameReply
    ensures { result ≡ slot_release_reply slot connection claims.now }
{
    if claims.has(slot, connection) {
        return NameReply::Released;
    }
    match first_on(claims.as_slice(), slot) {
        Some(_) => NameReply::NotOwner,
        None => NameReply::NonExistent,
    }
}

/// The answer to a release of the name, which has the slot.
pub(crate) fn release_answer(
    claims: &ClaimList,
    slot: u16,
    name: &WellKnown,
    connection: u64,
) -> Named
    ensures { result ≡ slot_release_answer slot name.now connection claims.now }
{
    let answer = release_reply(claims, slot, connection);
    let old = connection_of(first_on(claims.as_slice(), slot));
    let new = connection_of(first_other(claims.as_slice(), slot, connection));
    let change = change_of(name, old, new);
    Named { answer, change }
}

/// What giving up a claim did, from the answer to the release.
pub(crate) fn dropped_by(named: Named) -> Dropped
    ensures { result ≡ dropped_by named.change }
{
    match named.change {
        Some(change) => Dropped::Changed(change),
        None => Dropped::Waiting,
    }
}
