// Outboxes, as threads share them.

ghost use Rattle.std.specs.Prelude.{◌≡◌, ◌⊎◌, ◌≤◌, ℕ, None, cond, is_ok, true, IsTrue, IsSomeAnd, IfErr, IfOk, OnOk, IsErr, MatchOption, MatchResult};
ghost use Rattle.outbox.specs.Counts.{InOrder};
ghost use Rattle.outbox.specs.Places.{PlacesRise};
ghost use Rattle.outbox.specs.Views.{blank, Follows, after_put, after_taken, last_in};
ghost use Rattle.outbox.specs.Seated.{Seated, Turning};

use crate::item::Item;
use crate::room::{Room, Waiting};
use crate::rule::{Lends, Look, Merging, Mints, Puts, PutsPlaced, SeatView, Shut, Shutting, Takes};
use crate::seats::{Seat, Turn};
use crate::tally::Tally;
use atomic_table::Table;
use crossbeam_queue::RuledSegQueue;
use std::alloc::{AllocError, Global};
use std::marker::Model;
use std::mem;
use std::sync::{Arc, Wait};

// What waits and how much it is, and the word that is 1 once the outbox is shut.
pub(crate) struct Inner {
    queue: RuledSegQueue<Item, SeatView, Merging>,
    waiting: Waiting,
    tally: Tally,
    word: Table<(), bool, (), Shutting, Global>,
    ghost words: { word.shared.table_id.words ≡ 1 },
}

impl Inner {
    // Puts an item that bears a place: the seat takes the turn in for the put, and gives it back.
    fn push_placed<R: Wait>(
        &self,
        rt: &R,
        seat: &mut Seat,
        turn: &mut Turn,
        item: Item,
    ) -> Result<(), Item>
        requires seat { seat.old.outbox.queue ≡ self.now.queue }
        requires turn { turn.old.queue ≡ self.now.queue }
        requires follows { Follows seat.old.view.put item.mark }
        requires placed { IsSomeAnd item.place (λ place. turn.old.last ≤ place) }
        ensures seat { seat.new ≡ record seat.old { view = cond (is_ok result) (after_put seat.old.view item) seat.old.view } }
        ensures back { IfErr result (λ back. back ≡ item) }
        ensures turn { turn.new ≡ record turn.old { last = cond (is_ok result) (last_in item.place) turn.old.last } }
    {
        let spare = self.queue.pass();
        let lent = mem::replace(&mut turn.pass, spare);
        self.queue.absorb::<Lends>(&mut seat.pass, lent);
        let put = self
            .queue
            .push_as::<PutsPlaced, R>(rt, &mut seat.pass, item);
        turn.pass = self.queue.another::<Lends>(&mut seat.pass);
        put
    }
}

impl Drop for Inner {
    fn drop(self) {
        let Inner {
            queue,
            waiting: _,
            tally: _,
            word: _,
        } = self;
        queue.destroy();
    }
}

/// A handle on an outbox. Each share of it is the same outbox.
#[derive(Drop)]
pub struct Outbox {
    inner: Arc<Inner, Global>,
}

impl Model for Outbox {
    ghost use Rattle.std.specs.Prelude.{◌≡◌};
    ghost use Rattle.std.specs.Arc.{arc_value};
    ghost use Rattle.outbox.specs.Seated.{OutboxId};

    ghost Value = { OutboxId };

    ghost view = { λ o. record { queue = (arc_value o.inner).queue; word = (arc_value o.inner).word.shared.table_id } };
}

impl Outbox {
    /// An open outbox with nothing in it, of the standard room.
    pub fn new(alloc: Global) -> Result<Outbox, AllocError> {
        Outbox::with_room(alloc, Room::standard())
    }

    /// An open outbox with nothing in it. Its memory grows and shrinks with what waits.
    pub fn with_room(alloc: Global, room: Room) -> Result<Outbox, AllocError> {
        Ok(Outbox::with_turn(alloc, room)?.0)
    }

    /// The same, and its turn, by which alone anything that bears a place is put.
    pub fn with_turn(alloc: Global, room: Room) -> Result<(Outbox, Turn), AllocError>
        ensures { IfOk result (λ r. r.1 ≡ record { queue = r.0.queue; last = 0 }) }
    {
        let word = Table::of_words(alloc, &[0], &())?.0;
        let waiting = Waiting::new(room);
        let (queue, mut first) = RuledSegQueue::with_rule(alloc)?;
        let pass = queue.another::<Mints>(&mut first);
        let inner = Inner {
            queue,
            waiting,
            tally: Tally::new(),
            word,
        };
        let inner = Arc::new(alloc, inner)?;
        Ok((Outbox { inner }, Turn { pass }))
    }

    /// Another handle on the same outbox.
    pub fn share(&self) -> Result<Outbox, AllocError>
        ensures { IfOk result (λ o. o ≡ self.now) }
    {
        let inner = Arc::try_clone(&self.inner)?;
        Ok(Outbox { inner })
    }

    /// A new seat, which has put and taken nothing. It takes no memory.
    pub fn seat(&self) -> Seat
        ensures { (result.outbox ≡ self.now) × (result.view ≡ blank) }
    {
        let inner: &Inner = &self.inner;
        let pass = inner.queue.pass();
        let (_, word) = inner.word.shared.load_new_seat::<Look>(0);
        Seat { pass, word }
    }

    /// Puts an item after the others. A put into a full outbox, or one for which memory is refused, is refused and shuts it,
    /// and a put into a shut one is refused; the item comes back, and nothing is put. A seat puts broadcasts of one origin,
    /// by rising counts. A put that began before another seat's shut may still land after it. The item bears no place.
    pub fn put<R: Wait>(&self, rt: &R, seat: &mut Seat, item: Item) -> Result<(), Item>
        requires place { seat.old.outbox ≡ self.now }
        requires follows { Follows seat.old.view.put item.mark }
        requires unplaced { item.place ≡ None }
        ensures seat { (seat.new.outbox ≡ seat.old.outbox) × (seat.new.number ≡ seat.old.number) }
        ensures put { MatchResult result
            (λ _. seat.new.view ≡ after_put seat.old.view item)
            (λ back. (back ≡ item) × (seat.new.view ≡ seat.old.view) × (seat.new.knows_shut ≡ true)) }
        ensures shut { seat.old.knows_shut ≡ true → IsErr result × (seat.new.knows_shut ≡ true) }
        ensures open { OnOk result (seat.new.knows_shut ≡ seat.old.knows_shut) }
    {
        let inner: &Inner = &self.inner;
        if inner.word.shared.load::<Look>(&mut seat.word, 0) == 1 {
            return Err(item);
        }
        let len = item.bytes().len();
        let put = if inner.waiting.enter(len) {
            inner.queue.push_as::<Puts, R>(rt, &mut seat.pass, item)
        } else {
            Err(item)
        };
        if put.is_err() {
            inner.waiting.leave(len);
            inner.word.shared.store::<Shut>(&mut seat.word, 0, 1);
        }
        put
    }

    /// Puts an item that bears a place, as `put` does, by one's own seat and with the outbox's turn. The place is no less than
    /// any that was put before, by whatever seat.
    pub fn put_placed<R: Wait>(
        &self,
        rt: &R,
        seat: &mut Seat,
        turn: &mut Turn,
        item: Item,
    ) -> Result<(), Item>
        requires place { seat.old.outbox ≡ self.now }
        requires turn { turn.old.queue ≡ self.now.queue }
        requires follows { Follows seat.old.view.put item.mark }
        requires placed { IsSomeAnd item.place (λ place. turn.old.last ≤ place) }
        ensures seat { (seat.new.outbox ≡ seat.old.outbox) × (seat.new.number ≡ seat.old.number) }
        ensures put { MatchResult result
            (λ _. seat.new.view ≡ after_put seat.old.view item)
            (λ back. (back ≡ item) × (seat.new.view ≡ seat.old.view) × (seat.new.knows_shut ≡ true)) }
        ensures turn { turn.new ≡ record turn.old { last = cond (is_ok result) (last_in item.place) turn.old.last } }
        ensures shut { seat.old.knows_shut ≡ true → IsErr result × (seat.new.knows_shut ≡ true) }
        ensures open { OnOk result (seat.new.knows_shut ≡ seat.old.knows_shut) }
    {
        let inner: &Inner = &self.inner;
        if inner.word.shared.load::<Look>(&mut seat.word, 0) == 1 {
            return Err(item);
        }
        let len = item.bytes().len();
        let put = if inner.waiting.enter(len) {
            inner.push_placed(rt, seat, turn, item)
        } else {
            Err(item)
        };
        if put.is_err() {
            inner.waiting.leave(len);
            inner.word.shared.store::<Shut>(&mut seat.word, 0, 1);
        }
        put
    }

    /// Shuts the outbox, so that each later put is refused.
    pub fn shut(&self) {
        let mut seat = self.seat();
        let inner: &Inner = &self.inner;
        inner.word.shared.store::<Shut>(&mut seat.word, 0, 1);
    }

    /// Takes the oldest item, if one is there. The list that the seat has taken stays in each putting seat's order.
    pub(crate) fn pop<R: Wait>(&self, rt: &R, seat: &mut Seat) -> Option<Item>
        requires { seat.old.outbox ≡ self.now }
        ensures seat { (seat.new.outbox ≡ seat.old.outbox) × (seat.new.number ≡ seat.old.number) × (seat.new.knows_shut ≡ seat.old.knows_shut) }
        ensures taken { MatchOption result
            (seat.new.view ≡ seat.old.view)
            (λ item. (by : ℕ) × (seat.new.view ≡ after_taken seat.old.view (by, item))) }
        ensures order { InOrder seat.new.view.taken }
        ensures places { PlacesRise seat.new.view.taken }
    {
        let inner: &Inner = &self.inner;
        let item = inner.queue.pop_as::<Takes, R>(rt, &mut seat.pass)?;
        inner.waiting.leave(item.bytes().len());
        Some(item)
    }

    /// How much waits: messages, and their bytes. Others may put some and take some at any time.
    pub fn waiting(&self) -> Room {
        let inner: &Inner = &self.inner;
        inner.waiting.count()
    }

    /// What is counted of its client.
    pub fn tally(&self) -> &Tally {
        let inner: &Inner = &self.inner;
        &inner.tally
    }

    /// Whether the outbox is shut. Once shut it stays so.
    pub fn is_shut(&self, seat: &mut Seat) -> bool
        requires { seat.old.outbox ≡ self.now }
        ensures seat { (seat.new.outbox ≡ seat.old.outbox) × (seat.new.number ≡ seat.old.number) × (seat.new.view ≡ seat.old.view) }
        ensures shut { result ≡ seat.new.knows_shut }
        ensures stays { seat.old.knows_shut ≡ true → IsTrue result }
    {
        let inner: &Inner = &self.inner;
        inner.word.shared.load::<Look>(&mut seat.word, 0) == 1
    }
}
