// Senders.

ghost use Rattle.std.specs.Prelude.{◌≡◌, ◌<◌, ◌≤◌, [], ◌∷◌, ◌↔◌, ℕ, false, true, IfOk, OnOk, OnErr, None, filter, is_some, length};
ghost use Rattle.routing.specs.RecipientSeats.{RisesFrom, all_written, is_in, seat_at, shut_at, waits_at, HasSeat, AllHave, AllFit, Keeps, Routed, SentTo, Unrouted, is_sent};
ghost use Rattle.routing.specs.Turns.{KeepsTurns, MayStand, StandsAt};
ghost use Rattle.routing.specs.Puts.{RoutedTo, PutOnce};

use crate::error::RouteError;
use crate::events::{begin, end, message, release};
use crate::gate::Gate;
use crate::mailbox::Mailbox;
use crate::numbers::place_of;
use crate::recipient::Recipient;
use crate::recipient_seats::{
    RecipientSeat, push_out_all, put_all, put_at, retain, shut_waiting, take_seat,
};
use crate::turns::Turns;
use arrayvec::ArrayVec;
use bytes::Bytes;
use outbox::{Item, Releases};
use std::alloc::{AllocError, Global};
use std::marker::Model;
use std::sync::Wait;

/// What became of a unicast message.
#[derive(Clone, Copy, Debug, PartialEq, Eq)]
pub enum Sent {
    Put,
    /// The recipient's outbox is full or shut.
    Full,
}

/// The sender of a pass's broadcasts: the pass's connection, which is their origin, the count of the last one, and a
/// seat at each outbox that it needed so far. The broadcasts of the bus itself have the origin and a count of the pass
/// that routes them too. A broadcast is given out by no outbox before it was put at all its recipients: it is held until it
/// is released, which is at the end of `broadcast`, or, after `hold`, with all that was put since.
#[derive(Drop)]
pub struct Sender<C> {
    origin: u64,
    count: u64,
    recipient_seats: Vec<RecipientSeat<C>>,
    // None before the first message that is held.
    releases: Option<Releases>,
    is_holding: bool,
    // Something that was held was given up, and is held for ever.
    has_withdrawn: bool,
}

impl<C> Model for Sender<C> {
    ghost use Rattle.routing.specs.SenderView.{SenderView};
    ghost use Rattle.routing.specs.RecipientSeats.{AllFit};
    ghost use Rattle.routing.specs.Numbers.{SeatsRise};
    ghost use Rattle.routing.specs.Settled.{IsSettled, HoldsOwn};

    ghost Value = { SenderView };

    ghost view = { λ s. record { origin = s.origin; count = s.count; recipient_seats = s.recipient_seats.items } };

    ghost invariant = { λ s. AllFit s.origin s.count s.recipient_seats.items × SeatsRise s.recipient_seats.items × IsSettled s.is_holding s.releases × HoldsOwn s.has_withdrawn s.releases s.recipient_seats.items };
}

impl<C> Sender<C> {
    /// A sender that has put nothing. It takes no memory.
    pub fn new(alloc: Global, origin: u64) -> Sender<C>
        ensures { (result.origin ≡ origin) × (result.count ≡ 0) × (result.recipient_seats ≡ []) }
    {
        Sender {
            origin,
            count: 0,
            recipient_seats: Vec::new(alloc),
            releases: None,
            is_holding: false,
            has_withdrawn: false,
        }
    }
}

impl<C: Mailbox> Sender<C> {
    /// Whether it has a seat at this recipient's outbox.
    pub fn has(&self, recipient: u64) -> bool
        ensures { result ≡ is_some (seat_at recipient self.now.recipient_seats) }
    {
        place_of(self.recipient_seats.as_slice(), recipient).is_ok()
    }

    /// Takes a seat at the recipient's outbox, where it has none there.
    pub fn take_seat(&mut self, recipient: Recipient<C>) -> Result<(), AllocError>
        ensures keeps { Keeps (recipient ∷ []) self.old self.new }
        ensures unrouted { Unrouted self.old self.new }
        ensures has { OnOk result (HasSeat recipient.number self.new.recipient_seats) }
    {
        take_seat(&mut self.recipient_seats, recipient)
    }

    /// Puts a broadcast with these bytes into the outboxes of its recipients, whose numbers rise, and lists those whose outbox
    /// refused it, a shut one included, in an empty list of the caller's. The shares of the message are taken before the first
    /// put, so after an error nothing was put and the count isn't used. `gate.before(0)` is called once the shares are there,
    /// before the first put, and `gate.after(0)` after the last put, before the broadcast is released; neither is called if the
    /// answer is an error.
    pub fn broadcast<R: Wait, G: Gate>(
        &mut self,
        rt: &R,
        alloc: Global,
        recipients: &[u64],
        bytes: &Bytes,
        place: Option<u64>,
        turns: &mut Turns,
        gate: &G,
        refused: &mut ArrayVec<u64, 4096>,
    ) -> Result<(), RouteError>
        requires few { length recipients.now ≤ 4096 }
        requires rising { RisesFrom 0 recipients.now }
        requires seats { AllHave recipients.now self.old.recipient_seats }
        requires stands { MayStand place recipients.now self.old.recipient_seats turns.old }
        requires none { refused.old.items ≡ [] }
        ensures turns { KeepsTurns turns.old turns.new }
        ensures ok { OnOk result (Routed place bytes.now recipients.now refused.new.items self.old self.new) }
        ensures keeps { Keeps [] self.old self.new }
        ensures err { OnErr result (self.new ≡ self.old) }
        ensures counts { (result ≡ Err RouteError.Counts) ↔ (self.old.count ≡ u64.MAX) }
    {
        if self.count == u64::MAX {
            return Err(RouteError::Counts);
        }
        self.put_broadcast(rt, alloc, recipients, bytes, place, turns, gate, refused)?;
        Ok(())
    }

    // Puts one broadcast more, and then releases it.
    fn put_broadcast<R: Wait, G: Gate>(
        &mut self,
        rt: &R,
        alloc: Global,
        recipients: &[u64],
        bytes: &Bytes,
        place: Option<u64>,
        turns: &mut Turns,
        gate: &G,
        refused: &mut ArrayVec<u64, 4096>,
    ) -> Result<(), AllocError>
        requires count { self.old.count < u64.MAX }
        requires few { length recipients.now ≤ 4096 }
        requires rising { RisesFrom 0 recipients.now }
        requires seats { AllHave recipients.now self.old.recipient_seats }
        requires stands { MayStand place recipients.now self.old.recipient_seats turns.old }
        requires none { refused.old.items ≡ [] }
        ensures turns { KeepsTurns turns.old turns.new }
        ensures ok { OnOk result (RoutedTo place bytes.now recipients.now refused.new.items self.old self.new) }
        ensures err { OnErr result (self.new ≡ self.old) }
    {
        let mark = Some((self.origin, self.count + 1));
        let bytes = bytes.clone()?;
        let mut shares = begin(
            &mut self.releases,
            alloc,
            bytes,
            mark,
            place,
            recipients.len(),
        )?;
        gate.before(0);
        put_all(
            rt,
            self.recipient_seats.as_mut_slice(),
            turns,
            recipients,
            &mut shares,
            refused,
        );
        gate.after(0);
        end(&mut self.releases, shares, self.is_holding);
        self.count += 1;
        Ok(())
    }

    /// Puts a message that isn't a broadcast into the recipient's outbox, and nothing else anywhere.
    pub fn unicast<R: Wait>(
        &mut self,
        rt: &R,
        alloc: Global,
        recipient: u64,
        bytes: &Bytes,
        place: Option<u64>,
        turns: &mut Turns,
    ) -> Result<Sent, AllocError>
        requires has { HasSeat recipient self.old.recipient_seats }
        requires stands { StandsAt place recipient self.old.recipient_seats turns.old }
        ensures turns { KeepsTurns turns.old turns.new }
        ensures sent { IfOk result (λ sent. SentTo place recipient bytes.now (is_sent sent) self.old self.new) }
        ensures err { OnErr result (self.new ≡ self.old) }
        ensures keeps { Keeps [] self.old self.new }

        // `Full` is answered only by an outbox that is shut, which then answers so always.
        ensures full { result ≡ Ok Sent.Full → shut_at recipient self.new.recipient_seats ≡ true }
        ensures shut { shut_at recipient self.old.recipient_seats ≡ true → IfOk result (λ sent. sent ≡ Sent.Full) }
    {
        if self.put(rt, alloc, recipient, bytes.clone()?, place, turns)? {
            Ok(Sent::Put)
        } else {
            Ok(Sent::Full)
        }
    }

    // Puts a message that isn't a broadcast, and says whether it was put.
    fn put<R: Wait>(
        &mut self,
        rt: &R,
        alloc: Global,
        recipient: u64,
        bytes: Bytes,
        place: Option<u64>,
        turns: &mut Turns,
    ) -> Result<bool, AllocError>
        requires has { HasSeat recipient self.old.recipient_seats }
        requires stands { StandsAt place recipient self.old.recipient_seats turns.old }
        ensures put { IfOk result (λ put. PutOnce place bytes recipient put self.old self.new) }
        ensures turns { KeepsTurns turns.old turns.new }
        ensures err { OnErr result (self.new ≡ self.old) }
    {
        let item = message(&mut self.releases, self.is_holding, alloc, bytes, place)?;
        let put = put_at(
            rt,
            self.recipient_seats.as_mut_slice(),
            turns,
            recipient,
            &mut 0,
            item,
        );
        Ok(put)
    }

    /// A message that isn't a broadcast, for a put at one outbox. It is held with what is put while the sender holds.
    pub fn message(
        &mut self,
        alloc: Global,
        bytes: Bytes,
        place: Option<u64>,
    ) -> Result<Item, AllocError>
        ensures ok { IfOk result (λ item. (item.bytes ≡ bytes) × (item.mark ≡ None) × (item.place ≡ place)) }
        ensures same { self.new ≡ self.old }
    {
        message(&mut self.releases, self.is_holding, alloc, bytes, place)
    }

    /// Holds what is put from now on until `release`: no outbox gives it out before.
    pub fn hold(&mut self)
        ensures { self.new ≡ self.old }
    {
        self.is_holding = true;
    }

    /// Releases all that was put, and holds nothing any more.
    pub fn release(&mut self)
        ensures { self.new ≡ self.old }
    {
        self.is_holding = false;
        release(&mut self.releases);
    }

    /// Gives up what is held: no outbox ever gives it out. Nor does it give out what stands after it, so each outbox in which
    /// something was put since it last was written out is shut.
    pub fn withdraw(&mut self)
        ensures { self.new ≡ self.old }
    {
        self.is_holding = false;
        self.releases = None;
        self.has_withdrawn = true;
        shut_waiting(self.recipient_seats.as_slice());
    }

    /// Writes out each outbox in which something was put since it last was written out. Nothing is held any more.
    pub fn push_out<R: Wait>(&mut self, rt: &R)
        ensures written { self.new ≡ record self.old { recipient_seats = all_written self.old.recipient_seats } }
        ensures none { (n : ℕ) → waits_at n self.new.recipient_seats ≡ false }
    {
        self.release();
        push_out_all(rt, self.recipient_seats.as_mut_slice());
    }

    /// At how many outboxes it has a seat.
    pub fn seats(&self) -> usize
        ensures seats { result ≡ length self.now.recipient_seats }
        // Its seats have put broadcasts of its origin alone, and no count is above its count.
        ensures fits { AllFit self.now.origin self.now.count self.now.recipient_seats }
    {
        self.recipient_seats.len()
    }

    /// Gives up its seats at the outboxes of all others than these recipients.
    pub fn retain(&mut self, recipients: &[u64])
        ensures { self.new ≡ record self.old { recipient_seats = filter (λ s. is_in s.recipient recipients.now) self.old.recipient_seats } }
    {
        retain(&mut self.recipient_seats, recipients);
    }
}
