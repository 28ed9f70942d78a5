// The turns of the outboxes of connections.

ghost use Rattle.std.specs.Prelude.{◌≡◌, ◌≤◌, ◌==◌, [], ℕ, None, Some, cond, true, IsErr, IsSomeAnd, OnErr, OnOk, nat_le};
ghost use Rattle.outbox.specs.Views.{Follows, after_put};
ghost use Rattle.routing.specs.Numbers.{TurnsRise};
ghost use Rattle.routing.specs.Puts.{TurnUsed};
ghost use Rattle.routing.specs.Turns.{TurnView, TurnsView, queue_at, turn_at, AllBefore, KeepsTurns};

use crate::numbers::{Numbered, place_of};
use outbox::{Item, Outbox, Seat, Turn};
use std::alloc::{AllocError, Global};
use std::marker::Model;
use std::sync::Wait;

/// The turn of a connection's outbox.
#[derive(Drop)]
pub(crate) struct NumberedTurn {
    number: u64,
    turn: Turn,
}

impl Model for NumberedTurn {
    ghost use Rattle.routing.specs.Turns.{TurnView};

    ghost Value = { TurnView };

    ghost view = { λ t. record { number = t.number; queue = t.turn.queue; last = t.turn.last } };
}

impl Numbered for NumberedTurn {
    ghost use Rattle.routing.specs.Numbers.{connection_of};

    ghost number_of = { connection_of };

    fn number(&self) -> u64 {
        self.number
    }
}

impl NumberedTurn {
    // Puts an item at the turn's outbox, by one's own seat.
    fn put<R: Wait>(
        &mut self,
        rt: &R,
        outbox: &Outbox,
        seat: &mut Seat,
        item: Item,
    ) -> Result<(), Item>
        requires place { seat.old.outbox ≡ outbox.now }
        requires turn { self.old.queue ≡ outbox.now.queue }
        requires follows { Follows seat.old.view.put item.mark }
        requires placed { IsSomeAnd item.place (λ place. self.old.last ≤ place) }
        ensures seat { (seat.new.outbox ≡ seat.old.outbox) × (seat.new.number ≡ seat.old.number) }
        ensures put { OnOk result (seat.new.view ≡ after_put seat.old.view item) }
        ensures back { OnErr result ((seat.new.view ≡ seat.old.view) × (seat.new.knows_shut ≡ true)) }
        ensures shut { seat.old.knows_shut ≡ true → IsErr result × (seat.new.knows_shut ≡ true) }
        ensures turn { (self.new.number ≡ self.old.number) × (self.new.queue ≡ self.old.queue) × IsSomeAnd item.place (λ place. self.new.last ≤ place) }
    {
        outbox.put_placed(rt, seat, &mut self.turn, item)
    }
}

/// The turns of the outboxes of a bus's connections, which lie under the lock of the bus: by them alone is put what bears a
/// place in the bus's history. Whoever has the lock puts by seats of its own, and the places never go back.
#[derive(Drop)]
pub struct Turns {
    latest: u64,
    turns: Vec<NumberedTurn>,
}

impl Model for Turns {
    ghost use Rattle.std.specs.Prelude.{nat_lt, vec_len, vec_capacity};
    ghost use Rattle.routing.specs.Turns.{TurnsView, AllBefore};
    ghost use Rattle.routing.specs.Numbers.{TurnsRise};

    ghost Value = { TurnsView };

    ghost view = { λ t. record { latest = t.latest; turns = t.turns.items; has_room = nat_lt (vec_len t.turns) (vec_capacity t.turns) } };

    ghost invariant = { λ t. AllBefore t.latest t.turns.items × TurnsRise t.turns.items };
}

impl Turns {
    /// No turns, before the first place. It takes no memory.
    pub fn new(alloc: Global) -> Turns
        ensures { (result.latest ≡ 0) × (result.turns ≡ []) }
    {
        Turns {
            latest: 0,
            turns: Vec::new(alloc),
        }
    }

    /// Puts at this place from now on, unless something was put at a later one.
    pub fn stand_at(&mut self, place: u64) -> bool
        ensures rises { result ≡ nat_le self.old.latest place }
        ensures latest { self.new ≡ record self.old { latest = cond result place self.old.latest } }
    {
        if place < self.latest {
            return false;
        }
        self.latest = place;
        true
    }

    /// Has room for one more turn.
    pub fn reserve(&mut self) -> Result<(), AllocError>
        ensures room { OnOk result (self.new.has_room ≡ true) }
        ensures same { (self.new.latest ≡ self.old.latest) × (self.new.turns ≡ self.old.turns) }
    {
        self.turns.reserve(1)
    }

    /// Keeps the turn of a connection's outbox, at which nothing was put yet.
    pub fn add(&mut self, number: u64, turn: Turn)
        requires room { self.old.has_room ≡ true }
        requires new { queue_at number self.old.turns ≡ None }
        requires unused { turn.last ≡ 0 }
        ensures latest { self.new.latest ≡ self.old.latest }
        ensures added { (n : ℕ) → queue_at n self.new.turns ≡ cond (number == n) (Some turn.queue) (queue_at n self.old.turns) }
    {
        let place = match place_of(self.turns.as_slice(), number) {
            Ok(_) => unreachable!(),
            Err(place) => place,
        };
        match self.turns.insert(place, NumberedTurn { number, turn }) {
            Ok(()) => {}
            Err(_) => unreachable!(),
        }
    }

    /// Gives up the turn of a connection's outbox.
    pub fn remove(&mut self, number: u64)
        ensures latest { self.new.latest ≡ self.old.latest }
        ensures gone { (n : ℕ) → queue_at n self.new.turns ≡ cond (number == n) None (queue_at n self.old.turns) }
    {
        self.turns.retain(|turn| turn.number() != number);
    }

    /// Puts an item that bears the latest place at the outbox of the connection, by one's own seat there. A put that is refused,
    /// as `Outbox::put_placed` refuses it, gives the item back, and the outbox is shut.
    pub(crate) fn put<R: Wait>(
        &mut self,
        rt: &R,
        number: u64,
        outbox: &Outbox,
        seat: &mut Seat,
        item: Item,
    ) -> Result<(), Item>
        requires place { seat.old.outbox ≡ outbox.now }
        requires turn { queue_at number self.old.turns ≡ Some outbox.now.queue }
        requires follows { Follows seat.old.view.put item.mark }
        requires placed { item.place ≡ Some self.old.latest }
        ensures seat { (seat.new.outbox ≡ seat.old.outbox) × (seat.new.number ≡ seat.old.number) }
        ensures put { OnOk result (seat.new.view ≡ after_put seat.old.view item) }
        ensures back { OnErr result ((seat.new.view ≡ seat.old.view) × (seat.new.knows_shut ≡ true)) }
        ensures shut { seat.old.knows_shut ≡ true → IsErr result × (seat.new.knows_shut ≡ true) }
        ensures turns { KeepsTurns self.old self.new }
    {
        put_by(rt, self.turns.as_mut_slice(), number, outbox, seat, item)
    }
}

// Puts an item that bears a place at the outbox of the connection, by its turn.
fn put_by<R: Wait>(
    rt: &R,
    turns: &mut [NumberedTurn],
    number: u64,
    outbox: &Outbox,
    seat: &mut Seat,
    item: Item,
) -> Result<(), Item>
    requires place { seat.old.outbox ≡ outbox.now }
    requires turn { IsSomeAnd (turn_at number turns.old) (λ t. (t.queue ≡ outbox.now.queue) × IsSomeAnd item.place (λ p. t.last ≤ p)) }
    requires follows { Follows seat.old.view.put item.mark }
    requires rise { TurnsRise turns.old }
    ensures rise { TurnsRise turns.new }
    ensures seat { (seat.new.outbox ≡ seat.old.outbox) × (seat.new.number ≡ seat.old.number) }
    ensures put { OnOk result (seat.new.view ≡ after_put seat.old.view item) }
    ensures back { OnErr result ((seat.new.view ≡ seat.old.view) × (seat.new.knows_shut ≡ true)) }
    ensures shut { seat.old.knows_shut ≡ true → IsErr result × (seat.new.knows_shut ≡ true) }
    ensures turn { IsSomeAnd item.place (λ p. TurnUsed number p turns.old turns.new) }
{
    match place_of(turns, number) {
        Ok(place) => turns[place].put(rt, outbox, seat, item),
        Err(_) => unreachable!(),
    }
}
