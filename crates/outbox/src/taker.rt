// Who takes from an outbox.

ghost use Rattle.std.specs.Prelude.{◌≡◌, ◌++◌, ◌∷◌, [], ℕ, false, true, IfOk, IsTrue, MatchOption, MatchResult};
ghost use Rattle.outbox.specs.Counts.{InOrder};
ghost use Rattle.outbox.specs.Places.{PlacesRise};
ghost use Rattle.outbox.specs.Taken.{Taking, deliveries};

use crate::handle::Outbox;
use crate::item::Item;
use crate::rule::ReleaseView;
use crate::seats::Seat;
use atomic_table::Seat as WordSeat;
use bytes::Bytes;
use std::alloc::AllocError;
use std::marker::Model;
use std::sync::Wait;

/// A message that an outbox gives out: where it was held, a seat shows that its sender has released it.
#[derive(Drop)]
pub struct Delivery {
    item: Item,
    seat: Option<WordSeat<(), ReleaseView>>,
}

impl Model for Delivery {
    ghost use Rattle.std.specs.Prelude.{option_map};
    ghost use Rattle.outbox.specs.Items.{Item};
    ghost use Rattle.outbox.specs.Released.{IsReleased};

    ghost Value = { Item };

    ghost view = { λ d. d.item };

    ghost invariant = { λ d. IsReleased d.item.hold (option_map (λ s. (s.table_id, s.me.0.released)) d.seat) };
}

impl Delivery {
    // The item, if it may be given out.
    fn of(item: Item) -> Result<Delivery, Item>
        ensures { MatchResult result (λ delivery. delivery ≡ item) (λ back. back ≡ item) }
    {
        match item.hold() {
            None => Ok(Delivery { item, seat: None }),
            Some(hold) => match hold.find_released() {
                Some(seat) => Ok(Delivery {
                    item,
                    seat: Some(seat),
                }),
                None => Err(item),
            },
        }
    }

    pub fn bytes(&self) -> &Bytes
        ensures { result.now ≡ self.now.bytes }
    {
        self.item.bytes()
    }

    pub fn mark(&self) -> Option<(u64, u64)>
        ensures { result ≡ self.now.mark }
    {
        self.item.mark()
    }

    pub fn place(&self) -> Option<u64>
        ensures { result ≡ self.now.place }
    {
        self.item.place()
    }
}

/// Takes from an outbox. A message that isn't released yet is held, and with it all after it.
#[derive(Drop)]
pub struct Taker {
    outbox: Outbox,
    seat: Seat,
    held: Option<Item>,
}

impl Model for Taker {
    ghost use Rattle.std.specs.Prelude.{◌≡◌, is_some};
    ghost use Rattle.outbox.specs.Counts.{InOrder};
    ghost use Rattle.outbox.specs.Places.{PlacesRise};
    ghost use Rattle.outbox.specs.Taken.{Taking, EndsWith};

    ghost Value = { Taking };

    ghost view = { λ t. record { seat = t.seat; is_holding = is_some t.held } };

    ghost invariant = { λ t. (t.seat.outbox ≡ t.outbox) × EndsWith t.held t.seat.view.taken × InOrder t.seat.view.taken × PlacesRise t.seat.view.taken };
}

impl Taker {
    /// A taker at an outbox, which has taken nothing.
    pub fn new(outbox: &Outbox) -> Result<Taker, AllocError>
        ensures { IfOk result (λ taker. (taker.seat.outbox ≡ outbox.now) × (deliveries taker ≡ [])) }
    {
        let outbox = outbox.share()?;
        let seat = outbox.seat();
        Ok(Taker {
            outbox,
            seat,
            held: None,
        })
    }

    /// Takes the oldest message, if one is there and its sender has released it.
    pub fn take<R: Wait>(&mut self, rt: &R) -> Option<Delivery>
        ensures outbox { self.new.seat.outbox ≡ self.old.seat.outbox }
        ensures deliveries { MatchOption result
            (deliveries self.new ≡ deliveries self.old)
            (λ delivery. (by : ℕ) × (deliveries self.new ≡ deliveries self.old ++ (by, delivery) ∷ [])) }
        ensures order { InOrder (deliveries self.new) }
        ensures places { PlacesRise (deliveries self.new) }
    {
        let item = self.next(rt)?;
        match Delivery::of(item) {
            Ok(delivery) => Some(delivery),
            Err(item) => {
                self.held = Some(item);
                None
            }
        }
    }

    // The item that is held, or else the oldest in the outbox.
    fn next<R: Wait>(&mut self, rt: &R) -> Option<Item>
        ensures outbox { self.new.seat.outbox ≡ self.old.seat.outbox }
        ensures none_held { self.new.is_holding ≡ false }
        ensures taken { MatchOption result
            (self.new.seat.view.taken ≡ deliveries self.old)
            (λ item. (by : ℕ) × (self.new.seat.view.taken ≡ deliveries self.old ++ (by, item) ∷ [])) }
        ensures order { InOrder self.new.seat.view.taken }
        ensures places { PlacesRise self.new.seat.view.taken }
    {
        match self.held.take() {
            Some(item) => Some(item),
            None => self.outbox.pop(rt, &mut self.seat),
        }
    }

    /// Whether the outbox is shut. Once shut it stays so.
    pub fn is_shut(&mut self) -> bool
        ensures outbox { self.new.seat.outbox ≡ self.old.seat.outbox }
        ensures deliveries { deliveries self.new ≡ deliveries self.old }
        ensures shut { result ≡ self.new.seat.knows_shut }
        ensures stays { self.old.seat.knows_shut ≡ true → IsTrue result }
    {
        self.outbox.is_shut(&mut self.seat)
    }
}
