// What a request will do, before it is done.

ghost use Rattle.std.specs.Prelude.{◌≡◌, Err, None, IfSome, MatchOption, MatchResult, length, nat_lt};
ghost use Rattle.owners.specs.Queues.{after_requesting};
ghost use Rattle.owners.specs.Registry.{change_of, request_answer, slot_next};
ghost use Rattle.owners.specs.Kept.{registry, change_for, IsKept};
ghost use Rattle.owners.specs.Plan.{IsChoice, IsPlan};

use crate::answer::{Change, NameReply, Named};
use crate::claim::{SlotClaim, connection_of, first_on};
use crate::claim_list::ClaimList;
use crate::claims::MAX_CLAIMS;
use crate::error::ClaimError;
use crate::holdings::Holdings;
use crate::step::{Step, is_over, reply_of, step_of};
use crate::well_known::WellKnown;

/// The answer to a request, and what is done for it.
#[derive(Drop)]
pub(crate) struct Plan {
    pub(crate) slot: u16,
    pub(crate) step: Step,
    pub(crate) named: Named,
}

/// The change of a name's owner, if there is one.
pub(crate) fn change_of(name: &WellKnown, old: Option<u64>, new: Option<u64>) -> Option<Change>
    ensures { result ≡ change_of name.now old new }
{
    if old == new {
        None
    } else {
        Some(Change {
            name: name.copy(),
            old,
            new,
        })
    }
}

/// The change that a request brings about, by its reply.
fn change_for(
    name: &WellKnown,
    answer: NameReply,
    old: Option<u64>,
    connection: u64,
) -> Option<Change>
    ensures { result ≡ change_for name.now answer old connection }
{
    match answer {
        NameReply::PrimaryOwner => Some(Change {
            name: name.copy(),
            old,
            new: Some(connection),
        }),
        _ => None,
    }
}

/// What a request comes to: the slot of its name, the name's owner, the step that it makes, and whether the connection
/// has a claim on the name.
#[derive(Clone, Copy)]
struct Choice {
    slot: u16,
    owner: Option<SlotClaim>,
    step: Step,
    waits: bool,
}

/// What a request comes to; None where the name has no slot and none is free.
fn choose(
    claims: &ClaimList,
    slots: &Holdings,
    name: &WellKnown,
    connection: u64,
    flags: u32,
) -> Option<Choice>
    requires { IsKept claims.now slots.now }
    ensures { MatchOption result (slot_next name.now slots.now ≡ None) (λ choice. IsChoice claims.now slots.now name.now connection flags choice) }
{
    let slot = slots.slot_next(name.as_str())?;
    let owner = first_on(claims.as_slice(), slot);
    Some(Choice {
        slot,
        owner,
        step: step_of(owner, connection, flags),
        waits: claims.has(slot, connection),
    })
}

/// Whether a request for a name that has a slot or gets one would make one more claim, were it not refused.
pub(crate) fn adds_claim(
    claims: &ClaimList,
    slots: &Holdings,
    name: &WellKnown,
    connection: u64,
    flags: u32,
) -> bool
    requires { IsKept claims.now slots.now }
    ensures { IfSome (slot_next name.now slots.now) (λ _. result ≡ nat_lt (length (registry claims.now slots.now).claims) (length (after_requesting name.now connection flags (registry claims.now slots.now).claims))) }
{
    match choose(claims, slots, name, connection, flags) {
        Some(choice) => is_over(claims.len(), choice.step, choice.waits, claims.len()),
        None => false,
    }
}

/// The answer to a request, and the step that it makes.
pub(crate) fn plan_of(
    claims: &ClaimList,
    slots: &Holdings,
    name: &WellKnown,
    connection: u64,
    flags: u32,
) -> Result<Plan, ClaimError>
    requires { IsKept claims.now slots.now }
    ensures { MatchResult result (λ plan. IsPlan claims.now slots.now name.now connection flags plan) (λ error. request_answer name.now connection flags (registry claims.now slots.now) ≡ Err error) }
{
    let Some(choice) = choose(claims, slots, name, connection, flags) else {
        return Err(ClaimError::NamesFull);
    };
    if is_over(MAX_CLAIMS, choice.step, choice.waits, claims.len()) {
        return Err(ClaimError::QueueFull);
    }
    let answer = reply_of(choice.owner, connection, flags);
    let change = change_for(name, answer, connection_of(choice.owner), connection);
    Ok(Plan {
        slot: choice.slot,
        step: choice.step,
        named: Named { answer, change },
    })
}
