// A sender's seats at the outboxes of its recipients.

ghost use Rattle.std.specs.Prelude.{◌≡◌, ◌<◌, ◌≤◌, ◌++◌, ◌∷◌, [], ℕ, cond, false, Some, IfOk, OnOk, IfSome, IsSomeAnd, filter, length};
ghost use Rattle.outbox.specs.Views.{Follows, blank};
ghost use Rattle.routing.specs.SenderView.{RecipientSeatView};
ghost use Rattle.routing.specs.RecipientSeats.{RisesFrom, is_in, seat_at, all_written, HasSeat, AllHave};
ghost use Rattle.routing.specs.Numbers.{SeatsRise};
ghost use Rattle.routing.specs.Turns.{queue_at, KeepsTurns, MayStand, StandsAt};
ghost use Rattle.routing.specs.Puts.{PutThere, PutAt, PutTo, SeatsTaken};

use crate::mailbox::Mailbox;
use crate::numbers::{Numbered, place_near, place_of};
use crate::recipient::Recipient;
use crate::turns::Turns;
use arrayvec::ArrayVec;
use outbox::{Item, Outbox, Seat, Shares};
use std::alloc::AllocError;
use std::marker::Model;
use std::sync::Wait;

/// A seat at a recipient's outbox.
#[derive(Drop)]
pub(crate) struct RecipientSeat<C> {
    recipient: u64,
    carrier: C,
    outbox: Outbox,
    seat: Seat,
    // Something was put since the outbox was last written out.
    is_waiting: bool,
}

impl<C> Model for RecipientSeat<C> {
    ghost use Rattle.std.specs.Prelude.{◌≡◌};
    ghost use Rattle.routing.specs.SenderView.{RecipientSeatView};

    ghost Value = { RecipientSeatView };

    ghost view = { λ s. record { recipient = s.recipient; outbox = s.outbox; seat = s.seat; is_waiting = s.is_waiting } };

    ghost invariant = { λ s. s.seat.outbox ≡ s.outbox };
}

impl<C> Numbered for RecipientSeat<C> {
    ghost use Rattle.routing.specs.Numbers.{recipient_of};

    ghost number_of = { recipient_of };

    fn number(&self) -> u64 {
        self.recipient
    }
}

impl<C> RecipientSeat<C> {
    /// Puts an item there, and says whether it was put. One that bears a place is put by the outbox's turn.
    pub(crate) fn put<R: Wait>(&mut self, rt: &R, turns: &mut Turns, item: Item) -> bool
        requires follows { Follows self.old.seat.view.put item.mark }
        requires stands { IfSome item.place (λ p. (p ≡ turns.old.latest) × (queue_at self.old.recipient turns.old.turns ≡ Some self.old.outbox.queue)) }
        ensures put { PutThere item result self.old self.new }
        ensures turns { KeepsTurns turns.old turns.new }
    {
        self.is_waiting = true;
        let put = match item.place() {
            None => self.outbox.put(rt, &mut self.seat, item),
            Some(_) => turns.put(rt, self.recipient, &self.outbox, &mut self.seat, item),
        };
        put.is_ok()
    }
}

impl<C: Mailbox> RecipientSeat<C> {
    /// A new seat there.
    pub(crate) fn at(recipient: Recipient<C>) -> Result<RecipientSeat<C>, AllocError>
        ensures { IfOk result (λ s. (s.recipient ≡ recipient.number) × (s.outbox ≡ recipient.outbox) × (s.seat.view ≡ blank) × (s.is_waiting ≡ false)) }
    {
        let (number, carrier) = recipient.into_parts();
        let outbox = carrier.outbox().share()?;
        let seat = outbox.seat();
        Ok(RecipientSeat {
            recipient: number,
            carrier,
            outbox,
            seat,
            is_waiting: false,
        })
    }
}

/// Puts an item at the recipient's outbox, and says whether it was put. The seat there is found at once if it is where it is
/// guessed to be, and the next guess is the seat after it.
pub(crate) fn put_at<C, R: Wait>(
    rt: &R,
    recipient_seats: &mut [RecipientSeat<C>],
    turns: &mut Turns,
    recipient: u64,
    guess: &mut usize,
    item: Item,
) -> bool
    requires rise { SeatsRise recipient_seats.old }
    requires follows { IsSomeAnd (seat_at recipient recipient_seats.old) (λ s. Follows s.seat.view.put item.mark) }
    requires stands { StandsAt item.place recipient recipient_seats.old turns.old }
    ensures rise { SeatsRise recipient_seats.new }
    ensures put { PutAt recipient item result recipient_seats.old recipient_seats.new }
    ensures turns { KeepsTurns turns.old turns.new }
{
    match place_near(recipient_seats, *guess, recipient) {
        Ok(place) => {
            *guess = place + 1;
            recipient_seats[place].put(rt, turns, item)
        }
        Err(_) => unreachable!(),
    }
}

/// Takes a seat at the recipient's outbox, where the sender has none there.
pub(crate) fn take_seat<C: Mailbox>(
    recipient_seats: &mut Vec<RecipientSeat<C>>,
    recipient: Recipient<C>,
) -> Result<(), AllocError>
    requires rise { SeatsRise recipient_seats.old.items }
    ensures rise { SeatsRise recipient_seats.new.items }
    ensures taken { SeatsTaken (recipient ∷ []) recipient_seats.old.items recipient_seats.new.items }
    ensures has { OnOk result (HasSeat recipient.number recipient_seats.new.items) }
{
    match place_of(recipient_seats.as_slice(), recipient.number()) {
        Ok(_) => Ok(()),
        Err(place) => {
            let recipient_seat = RecipientSeat::at(recipient)?;
            recipient_seats.insert(place, recipient_seat)?;
            Ok(())
        }
    }
}

// Lists the recipient, where its outbox refused the put.
fn note(refused: &mut ArrayVec<u64, 4096>, recipient: u64, put: bool)
    requires { length refused.old.items < 4096 }
    ensures { refused.new.items ≡ cond put refused.old.items (refused.old.items ++ recipient ∷ []) }
{
    if !put {
        refused.push(recipient);
    }
}

/// Puts a broadcast to each recipient, one share for each, and lists those whose outbox refused it.
pub(crate) fn put_all<C, R: Wait>(
    rt: &R,
    recipient_seats: &mut [RecipientSeat<C>],
    turns: &mut Turns,
    recipients: &[u64],
    shares: &mut Shares,
    refused: &mut ArrayVec<u64, 4096>,
)
    requires rise { SeatsRise recipient_seats.old }
    requires has { AllHave recipients.now recipient_seats.old }
    requires rising { RisesFrom 0 recipients.now }
    requires shares { shares.old.left ≡ length recipients.now }
    requires few { length recipients.now ≤ 4096 }
    requires follows { (n : ℕ) → IfSome (seat_at n recipient_seats.old) (λ s. Follows s.seat.view.put shares.old.message.mark) }
    requires stands { MayStand shares.old.message.place recipients.now recipient_seats.old turns.old }
    requires none { refused.old.items ≡ [] }
    ensures rise { SeatsRise recipient_seats.new }
    ensures turns { KeepsTurns turns.old turns.new }
    ensures put { PutTo shares.old.message recipients.now refused.new.items recipient_seats.old recipient_seats.new }
    ensures left { (shares.new.left ≡ 0) × (shares.new.message ≡ shares.old.message) }
{
    let mut guess = 0;
    for recipient in recipients {
        let put = put_at(
            rt,
            recipient_seats,
            turns,
            *recipient,
            &mut guess,
            shares.next(),
        );
        note(refused, *recipient, put);
    }
}

/// Writes out each outbox in which something was put since it last was written out.
pub(crate) fn push_out_all<C: Mailbox, R: Wait>(rt: &R, recipient_seats: &mut [RecipientSeat<C>])
    ensures { recipient_seats.new ≡ all_written recipient_seats.old }
{
    for place in 0..recipient_seats.len() {
        let recipient_seat = &mut recipient_seats[place];
        if recipient_seat.is_waiting {
            recipient_seat.is_waiting = false;
            recipient_seat.carrier.push_out(rt);
        }
    }
}

/// Shuts each outbox in which something was put since it last was written out.
pub(crate) fn shut_waiting<C>(recipient_seats: &[RecipientSeat<C>]) {
    for recipient_seat in recipient_seats {
        if recipient_seat.is_waiting {
            recipient_seat.outbox.shut();
        }
    }
}

// Whether the number is among these numbers.
fn is_among(number: u64, numbers: &[u64]) -> bool
    ensures { result ≡ is_in number numbers.now }
{
    numbers.iter().any(|n| *n == number)
}

/// Drops the recipient_seats of all recipients but these.
pub(crate) fn retain<C: Drop>(recipient_seats: &mut Vec<RecipientSeat<C>>, recipients: &[u64])
    ensures { recipient_seats.new.items ≡ filter (λ s. is_in s.recipient recipients.now) recipient_seats.old.items }
{
    recipient_seats.retain(|recipient_seat| is_among(recipient_seat.number(), recipients));
}
