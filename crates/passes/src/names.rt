// Names on the bus: whose each is, and which there are.

ghost use Rattle.std.specs.Prelude.{◌≡◌, ◌≤◌, ◌↔◌, ℕ, true, length, Some, IsTrue, IfOk, MatchOption};
ghost use Rattle.owners.specs.WellKnown.{is_unique};
ghost use Rattle.owners.specs.Queues.{owner_of};
ghost use Rattle.program_table.specs.Connections.{is_connected, numbers_of};
ghost use Rattle.routing.specs.RecipientSeats.{is_in};
ghost use Rattle.unique_name.specs.UniqueNames.{unique_name};
ghost use Rattle.passes.specs.Names.{AreNames};
ghost use Rattle.passes.specs.NameOwners.{IsOwner};
ghost use Rattle.passes.specs.NameSearch.{NoneIsNamed};

use arrayvec::ArrayVec;
use fan_out::MAX_RECIPIENTS;
use owners::WellKnown;
use program_table::{BusState, Connection};
use routing::Mailbox;
use std::alloc::{AllocError, Global};
use unique_name::UniqueName;

// Whether the text begins with `:`, as unique names do.
fn is_unique(text: &str) -> bool
    ensures { result ≡ is_unique text.now }
{
    match text.as_bytes() {
        [first, ..] => *first == b':',
        [] => false,
    }
}

// Whether the text is the unique name of the connection of this number.
fn names(text: &str, number: u64) -> bool
    ensures { IsTrue result ↔ (text.now ≡ unique_name number) }
{
    let name = UniqueName::new(number);
    text == name.as_str()
}

// The number of the connection that has this unique name.
fn named_in<M>(connections: &[Connection<M>], text: &str) -> Option<u64>
    ensures { MatchOption result (NoneIsNamed text.now (numbers_of connections.now)) (λ n. (text.now ≡ unique_name n) × (is_in n (numbers_of connections.now) ≡ true)) }
{
    for connection in connections {
        if names(text, connection.number) {
            return Some(connection.number);
        }
    }
    None
}

// The connected owner of a unique name.
fn unique_owner<M: Mailbox>(state: &BusState<M>, name: &str) -> Option<u64>
    ensures { MatchOption result ((n : ℕ) → name.now ≡ unique_name n → is_connected n state.now.connections ≡ true → ⊥) (λ n. (name.now ≡ unique_name n) × (is_connected n state.now.connections ≡ true)) }
{
    if let Some(number) = UniqueName::number_of(name)
        && state.mailbox_of(number).is_some()
    {
        return Some(number);
    }
    named_in(state.connections(), name)
}

// The connected primary owner of a name.
fn first_owner<M: Mailbox>(state: &BusState<M>, name: &str) -> Option<u64>
    ensures { MatchOption result ((n : ℕ) → owner_of name.now state.now.registrations.claims ≡ Some n → is_connected n state.now.connections ≡ true → ⊥) (λ n. (owner_of name.now state.now.registrations.claims ≡ Some n) × (is_connected n state.now.connections ≡ true)) }
{
    let number = state.owner_of(name)?;
    if state.mailbox_of(number).is_some() {
        Some(number)
    } else {
        None
    }
}

/// The connection that owns a name, which is unique or well-known.
pub(crate) fn owner_in<M: Mailbox>(state: &BusState<M>, name: &str) -> Option<u64>
    ensures { MatchOption result ((n : ℕ) → IsOwner state.now name.now n → ⊥) (λ n. IsOwner state.now name.now n) }
{
    if is_unique(name) {
        unique_owner(state, name)
    } else {
        first_owner(state, name)
    }
}

fn numbers_of<M>(connections: &[Connection<M>]) -> ArrayVec<u64, MAX_RECIPIENTS>
    requires { length connections.now ≤ MAX_RECIPIENTS }
    ensures { result.items ≡ numbers_of connections.now }
{
    let mut numbers = ArrayVec::new();
    for connection in connections {
        numbers.push(connection.number);
    }
    numbers
}

/// The owned names in the order of bytes.
pub(crate) fn names_in<M: Mailbox>(
    state: &BusState<M>,
    alloc: Global,
) -> Result<Vec<WellKnown>, AllocError>
    ensures { IfOk result (λ names. AreNames state.now.registrations.claims names.items) }
{
    let mut names: Vec<WellKnown> = Vec::new(alloc);
    let mut last: Option<WellKnown> = None;
    'names: while let Some(name) = state.next_name(last.as_ref()) {
        names.push(name.copy())?;
        last = Some(name);
    }
    Ok(names)
}

/// The numbers of the connections, rising.
pub(crate) fn numbers_in<M: Mailbox>(state: &BusState<M>) -> ArrayVec<u64, MAX_RECIPIENTS>
    ensures { result.items ≡ numbers_of state.now.connections }
{
    // This call's contract says that the list has room for all connections.
    let _ = state.connection_count();
    numbers_of(state.connections())
}

/// Whether there is a connection of this number.
pub(crate) fn is_there<M: Mailbox>(state: &BusState<M>, number: u64) -> bool
    ensures { result ≡ is_connected number state.now.connections }
{
    state.mailbox_of(number).is_some()
}
