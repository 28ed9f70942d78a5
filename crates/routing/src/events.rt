// Messages of a sender that are held until they are put at all their recipients.

ghost use Rattle.std.specs.Prelude.{◌≡◌, Bool, false, None, Some, IfOk, OnErr};
ghost use Rattle.outbox.specs.Released.{hold_of};
ghost use Rattle.routing.specs.Settled.{IsSettled, IsPutting, IsOwn, GoesOn};

use bytes::Bytes;
use outbox::{Item, Releases, Shares};
use std::alloc::{AllocError, Global};

/// Shares of a message, as many as there are puts to be made.
pub(crate) fn begin(
    releases: &mut Option<Releases>,
    alloc: Global,
    bytes: Bytes,
    mark: Option<(u64, u64)>,
    place: Option<u64>,
    puts: usize,
) -> Result<Shares, AllocError>
    requires { (holding : Bool) × IsSettled holding releases.old }
    ensures shares { IfOk result (λ shares. (shares.left ≡ puts) × (shares.message.mark ≡ mark) × (shares.message.place ≡ place) × (shares.message.bytes ≡ bytes)) }
    ensures putting { IfOk result (λ shares. IsPutting shares.message.hold releases.new) }
    ensures own { IfOk result (λ shares. IsOwn releases.new shares.message.hold) }
    ensures on { IfOk result (λ shares. GoesOn releases.old releases.new) }
    ensures err { OnErr result (releases.new ≡ releases.old) }
{
    match releases {
        Some(releases) => releases.begin(alloc, bytes, mark, place, puts),
        None => begin_first(releases, alloc, bytes, mark, place, puts),
    }
}

// The same for the first message that is held.
fn begin_first(
    releases: &mut Option<Releases>,
    alloc: Global,
    bytes: Bytes,
    mark: Option<(u64, u64)>,
    place: Option<u64>,
    puts: usize,
) -> Result<Shares, AllocError>
    requires none { releases.old ≡ None }
    ensures shares { IfOk result (λ shares. (shares.left ≡ puts) × (shares.message.mark ≡ mark) × (shares.message.place ≡ place) × (shares.message.bytes ≡ bytes)) }
    ensures putting { IfOk result (λ shares. IsPutting shares.message.hold releases.new) }
    ensures own { IfOk result (λ shares. IsOwn releases.new shares.message.hold) }
    ensures on { IfOk result (λ shares. GoesOn releases.old releases.new) }
    ensures err { OnErr result (releases.new ≡ releases.old) }
{
    let mut first = Releases::new(alloc)?;
    let shares = first.begin(alloc, bytes, mark, place, puts)?;
    *releases = Some(first);
    Ok(shares)
}

/// No put of the message is left: it is released, unless further messages are to be held with it.
pub(crate) fn end(releases: &mut Option<Releases>, shares: Shares, is_holding: bool)
    requires left { shares.left ≡ 0 }
    requires putting { IsPutting shares.message.hold releases.old }
    ensures settled { IsSettled is_holding releases.new }
    ensures on { GoesOn releases.old releases.new }
{
    match releases {
        Some(releases) => end_of(releases, shares, is_holding),
        None => unreachable!(),
    }
}

fn end_of(releases: &mut Releases, shares: Shares, is_holding: bool)
    requires left { shares.left ≡ 0 }
    requires own { shares.message.hold ≡ hold_of releases.old }
    ensures settled { IsSettled is_holding (Some releases.new) }
    ensures on { GoesOn (Some releases.old) (Some releases.new) }
{
    releases.end(shares);
    if !is_holding {
        releases.release();
    }
}

/// Releases all that is held.
pub(crate) fn release(releases: &mut Option<Releases>)
    requires { (holding : Bool) × IsSettled holding releases.old }
    ensures settled { IsSettled false releases.new }
    ensures on { GoesOn releases.old releases.new }
{
    match releases {
        Some(releases) => releases.release(),
        None => {}
    }
}

/// A message that isn't a broadcast, for a put at one outbox, which is held if such messages are.
pub(crate) fn message(
    releases: &mut Option<Releases>,
    is_holding: bool,
    alloc: Global,
    bytes: Bytes,
    place: Option<u64>,
) -> Result<Item, AllocError>
    requires { IsSettled is_holding releases.old }
    ensures item { IfOk result (λ item. (item.bytes ≡ bytes) × (item.mark ≡ None) × (item.place ≡ place)) }
    ensures own { IfOk result (λ item. IsOwn releases.new item.hold) }
    ensures settled { IsSettled is_holding releases.new }
    ensures on { GoesOn releases.old releases.new }
{
    if !is_holding {
        return Item::new(alloc, bytes, place);
    }
    let mut shares = begin(releases, alloc, bytes, None, place, 1)?;
    let item = shares.next();
    end(releases, shares, is_holding);
    Ok(item)
}
