// What a request does to the claims.

ghost use Rattle.std.specs.Prelude.{◌≡◌, ◌≤◌, ◌&&◌, length};
ghost use Rattle.owners.specs.Queues.{has_flag};
ghost use Rattle.owners.specs.Kept.{leaving_owner, reply_of, step_of, step_done, adds, is_over, without_owner};

use crate::answer::NameReply;
use crate::claim::SlotClaim;
use crate::claim_list::ClaimList;

/// The claim may be replaced (DBUS_NAME_FLAG_ALLOW_REPLACEMENT).
const ALLOW_REPLACEMENT: u32 = 1;

/// The caller replaces an owner that allows it (DBUS_NAME_FLAG_REPLACE_EXISTING).
const REPLACE_EXISTING: u32 = 2;

/// The connection doesn't wait where it isn't the owner (DBUS_NAME_FLAG_DO_NOT_QUEUE).
const DO_NOT_QUEUE: u32 = 4;

/// What a request does to the claims.
#[derive(Clone, Copy)]
pub(crate) enum Step {
    /// The caller's claim keeps its place and gets the flags, or is put last.
    Put,
    /// The caller doesn't wait any more.
    Remove,
    /// The caller's claim comes first, and the owner leaves, if it is named.
    Replace(Option<u64>),
}

fn has_flag(flags: u32, flag: u32) -> bool
    ensures { result ≡ has_flag flags flag }
{
    flags & flag != 0
}

/// The connection that leaves when its claim, the owner's, is replaced.
fn leaving_owner(owner: SlotClaim) -> Option<u64>
    ensures { result ≡ leaving_owner owner }
{
    if has_flag(owner.flags, DO_NOT_QUEUE) {
        Some(owner.connection)
    } else {
        None
    }
}

fn may_replace(owner: SlotClaim, flags: u32) -> bool
    ensures { result ≡ has_flag owner.flags ALLOW_REPLACEMENT && has_flag flags REPLACE_EXISTING }
{
    has_flag(owner.flags, ALLOW_REPLACEMENT) && has_flag(flags, REPLACE_EXISTING)
}

/// What a request of the connection does, where `owner` is the first claim on the name.
pub(crate) fn step_of(owner: Option<SlotClaim>, connection: u64, flags: u32) -> Step
    ensures { result ≡ step_of owner connection flags }
{
    let Some(owner) = owner else {
        return Step::Put;
    };
    if owner.connection == connection {
        return Step::Put;
    }
    if may_replace(owner, flags) {
        return Step::Replace(leaving_owner(owner));
    }
    if has_flag(flags, DO_NOT_QUEUE) {
        Step::Remove
    } else {
        Step::Put
    }
}

/// What the request is answered.
pub(crate) fn reply_of(owner: Option<SlotClaim>, connection: u64, flags: u32) -> NameReply
    ensures { result ≡ reply_of owner connection flags }
{
    let Some(owner) = owner else {
        return NameReply::PrimaryOwner;
    };
    if owner.connection == connection {
        return NameReply::AlreadyOwner;
    }
    if may_replace(owner, flags) {
        return NameReply::PrimaryOwner;
    }
    if has_flag(flags, DO_NOT_QUEUE) {
        NameReply::Exists
    } else {
        NameReply::InQueue
    }
}

/// Whether the step makes one more claim, where the connection has none on the name.
fn adds(step: Step) -> bool
    ensures { result ≡ adds step }
{
    match step {
        Step::Put => true,
        Step::Remove => false,
        Step::Replace(leaving) => leaving.is_none(),
    }
}

/// Whether the step makes one claim more than `most`, where there are `len` claims and `waits` says whether the
/// connection has one on the name.
pub(crate) fn is_over(most: usize, step: Step, waits: bool, len: usize) -> bool
    ensures { result ≡ is_over most step waits len }
{
    !waits && adds(step) && len >= most
}

/// The owner's claim goes, if it leaves.
fn remove_leaving(claims: &mut ClaimList, slot: u16, leaving: Option<u64>)
    ensures { claims.new ≡ without_owner leaving slot claims.old }
{
    if let Some(owner) = leaving {
        claims.remove(Some(slot), owner);
    }
}

/// Does the step of a request.
pub(crate) fn do_step(claims: &mut ClaimList, step: Step, claim: SlotClaim)
    requires { length (step_done step claim claims.old) ≤ 4096 }
    ensures { claims.new ≡ step_done step claim claims.old }
{
    match step {
        Step::Put => claims.put(claim),
        Step::Remove => claims.remove(Some(claim.slot), claim.connection),
        Step::Replace(leaving) => {
            remove_leaving(claims, claim.slot, leaving);
            claims.remove(Some(claim.slot), claim.connection);
            claims.put_first(claim);
        }
    }
}
