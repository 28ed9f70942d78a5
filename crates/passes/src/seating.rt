// The seats that a sender needs for its recipients.

ghost use Rattle.std.specs.Prelude.{◌≡◌, ℕ, true, [], IfOk, OnOk, MatchOption};
ghost use Rattle.message_view.specs.Message.{Message};
ghost use Rattle.message_view.specs.Valid.{Valid};
ghost use Rattle.program_table.specs.Connections.{is_connected};
ghost use Rattle.passes.specs.NameOwners.{IsOwner};
ghost use Rattle.program_table.specs.Recipients.{AreRecipients};
ghost use Rattle.routing.specs.RecipientSeats.{RisesFrom, is_in, HasSeat, AllHave};
ghost use Rattle.passes.specs.Routes.{IsOutboxOf};
ghost use Rattle.passes.specs.Seats.{KeepsThere, NothingPut, KeepsShut};

use crate::names::{numbers_in, owner_in};
use arrayvec::ArrayVec;
use fan_out::{MAX_RECIPIENTS, Marks, select_into};
use message_view::View;
use program_table::BusState;
use routing::{Mailbox, Recipient, Sender};
use std::alloc::AllocError;

/// By how many seats a sender may have more than there are connections, before it gives up those at the outboxes of
/// closed ones.
const SPARE_SEATS: usize = 256;

// Whether many of the sender's seats are at the outboxes of closed connections.
fn has_many_closed<M: Mailbox>(state: &BusState<M>, sender: &Sender<M>) -> bool {
    sender.seats() > SPARE_SEATS + state.connection_count()
}

// Gives up the seats at the outboxes of closed connections, where the sender has many.
fn give_up_closed<M: Mailbox>(state: &BusState<M>, sender: &mut Sender<M>)
    ensures keeps { KeepsThere M.outbox_of state.now sender.old sender.new }
    ensures put { NothingPut state.now sender.old sender.new }
{
    if has_many_closed(state, sender) {
        keep_connected(state, sender);
    }
}

// Keeps the seats at the outboxes of connections that are there. It is a function of its own, since a function clears room for
// its values whenever it is called, and there are seldom many to give up.
#[inline(never)]
fn keep_connected<M: Mailbox>(state: &BusState<M>, sender: &mut Sender<M>)
    ensures keeps { KeepsThere M.outbox_of state.now sender.old sender.new }
    ensures put { NothingPut state.now sender.old sender.new }
{
    let numbers = numbers_in(state);
    sender.retain(numbers.as_slice());
}

// Whether nothing has to be done: the sender has its seats, and not many others.
fn is_ready<M: Mailbox>(state: &BusState<M>, sender: &Sender<M>, recipients: &[u64]) -> bool
    ensures { result ≡ true → AllHave recipients.now sender.now.recipient_seats }
{
    !has_many_closed(state, sender) && has_all(sender, recipients)
}

// Whether the sender has a seat at each of these connections' outboxes.
fn has_all<M: Mailbox>(sender: &Sender<M>, numbers: &[u64]) -> bool
    ensures { result ≡ true → AllHave numbers.now sender.now.recipient_seats }
{
    for number in numbers {
        if !sender.has(*number) {
            return false;
        }
    }
    true
}

// A connection with a share of its mailbox.
fn recipient<M: Mailbox>(state: &BusState<M>, number: u64) -> Result<Recipient<M>, AllocError>
    requires { is_connected number state.now.connections ≡ true }
    ensures { IfOk result (λ r. (r.number ≡ number) × IsOutboxOf M.outbox_of state.now number r.outbox) }
{
    match state.mailbox_of(number) {
        Some(mailbox) => Ok(Recipient::new(number, mailbox.share()?)),
        None => unreachable!(),
    }
}

// Takes a seat at the connection's outbox, where the sender has none there.
fn take_seat<M: Mailbox>(
    state: &BusState<M>,
    sender: &mut Sender<M>,
    number: u64,
) -> Result<(), AllocError>
    requires { is_connected number state.now.connections ≡ true }
    ensures keeps { KeepsThere M.outbox_of state.now sender.old sender.new }
    ensures put { NothingPut state.now sender.old sender.new }
    ensures has { OnOk result (HasSeat number sender.new.recipient_seats) }
{
    if sender.has(number) {
        return Ok(());
    }
    let recipient = recipient(state, number)?;
    sender.take_seat(recipient)
}

// Takes a seat at each of these connections' outboxes, where the sender has none there.
fn take_seats<M: Mailbox>(
    state: &BusState<M>,
    sender: &mut Sender<M>,
    numbers: &[u64],
) -> Result<(), AllocError>
    requires { (n : ℕ) → is_in n numbers.now ≡ true → is_connected n state.now.connections ≡ true }
    ensures keeps { KeepsThere M.outbox_of state.now sender.old sender.new }
    ensures put { NothingPut state.now sender.old sender.new }
    ensures all { OnOk result (AllHave numbers.now sender.new.recipient_seats) }
{
    for number in numbers {
        take_seat(state, sender, *number)?;
    }
    Ok(())
}

/// Lists the recipients of a broadcast, and takes the seats that the sender needs for them.
pub(crate) fn seat_recipients<'a, M: Mailbox>(
    state: &'a BusState<M>,
    view: &View<'a>,
    from: Option<u64>,
    sender: &mut Sender<M>,
    marks: &mut Marks,
    recipients: &mut ArrayVec<u64, MAX_RECIPIENTS>,
) -> Result<(), AllocError>
    requires { recipients.old.items ≡ [] }
    ensures recipients { (m : Message) → Valid view.now m → AreRecipients state.now from m recipients.new.items }
    ensures rising { RisesFrom 0 recipients.new.items }
    ensures shut { KeepsShut recipients.new.items sender.old sender.new }
    ensures keeps { KeepsThere M.outbox_of state.now sender.old sender.new }
    ensures put { NothingPut state.now sender.old sender.new }
    ensures all { OnOk result (AllHave recipients.new.items sender.new.recipient_seats) }
{
    let _ = view.raw();
    select_into(state, from, view, marks, recipients);
    if is_ready(state, sender, recipients.as_slice()) {
        return Ok(());
    }
    // This call's contract says that entries are of connections.
    let _ = state.entries_for(view, None);
    give_up_closed(state, sender);
    take_seats(state, sender, recipients.as_slice())
}

/// As `seat_recipients`, and says that the recipients are there.
pub(crate) fn seat_those_there<'a, M: Mailbox>(
    state: &'a BusState<M>,
    view: &View<'a>,
    from: Option<u64>,
    sender: &mut Sender<M>,
    marks: &mut Marks,
    recipients: &mut ArrayVec<u64, MAX_RECIPIENTS>,
) -> Result<(), AllocError>
    requires { recipients.old.items ≡ [] }
    ensures recipients { (m : Message) → Valid view.now m → AreRecipients state.now from m recipients.new.items }
    ensures there { (n : ℕ) → is_in n recipients.new.items ≡ true → is_connected n state.now.connections ≡ true }
    ensures rising { RisesFrom 0 recipients.new.items }
    ensures shut { KeepsShut recipients.new.items sender.old sender.new }
    ensures keeps { KeepsThere M.outbox_of state.now sender.old sender.new }
    ensures put { NothingPut state.now sender.old sender.new }
    ensures all { OnOk result (AllHave recipients.new.items sender.new.recipient_seats) }
{
    // These calls' contracts say that the view is of a message, and that entries are of connections.
    let _ = view.raw();
    let _ = state.entries_for(view, None);
    seat_recipients(state, view, from, sender, marks, recipients)
}

/// Finds the connection that owns a name, and takes the seat that the sender needs for it. None where nobody owns the
/// name.
pub(crate) fn seat_owner<M: Mailbox>(
    state: &BusState<M>,
    sender: &mut Sender<M>,
    name: &str,
) -> Result<Option<u64>, AllocError>
    ensures owner { IfOk result (λ owner. MatchOption owner ((n : ℕ) → IsOwner state.now name.now n → ⊥) (λ n. IsOwner state.now name.now n × HasSeat n sender.new.recipient_seats)) }
    ensures keeps { KeepsThere M.outbox_of state.now sender.old sender.new }
    ensures put { NothingPut state.now sender.old sender.new }
{
    let Some(number) = owner_in(state, name) else {
        return Ok(None);
    };
    give_up_closed(state, sender);
    take_seat(state, sender, number)?;
    Ok(Some(number))
}
