// Seats, by which calls of an outbox are made.

use crate::item::Item;
use crate::rule::SeatView;
use atomic_table::Seat as WordSeat;
use crossbeam_queue::SegPass;
use std::alloc::Global;
use std::marker::Model;

/// A place at an outbox, by which one thread puts and takes. It takes up no bytes.
#[derive(Drop)]
pub struct Seat {
    pub(crate) pass: SegPass<Item, SeatView, Global>,
    pub(crate) word: WordSeat<(), bool>,
}

impl Model for Seat {
    ghost use Rattle.std.specs.Prelude.{◌≡◌, [], None};
    ghost use Rattle.outbox.specs.Counts.{InOrder};
    ghost use Rattle.outbox.specs.Places.{PlacesRise};
    ghost use Rattle.outbox.specs.Seated.{Seated};

    ghost Value = { Seated };

    ghost view = { λ s. record { outbox = record { queue = record { web = s.pass.web; heap = s.pass.heap }; word = s.word.table_id }; number = s.pass.id; view = s.pass.me.view.client; knows_shut = s.word.me.0 } };

    ghost invariant = { λ s. (s.pass.me.hand ≡ None) × (s.pass.me.spare ≡ None) × (s.word.me.1 ≡ []) × InOrder s.pass.me.view.client.taken × PlacesRise s.pass.me.view.client.taken × (s.pass.me.view.client.turn ≡ None) };
}

/// The turn of an outbox: who has it puts what bears a place. There is one, it takes up no bytes, and it can't be copied.
#[derive(Drop)]
pub struct Turn {
    pub(crate) pass: SegPass<Item, SeatView, Global>,
}

impl Model for Turn {
    ghost use Rattle.std.specs.Prelude.{◌≡◌, None};
    ghost use Rattle.outbox.specs.Seated.{Turning};
    ghost use Rattle.outbox.specs.Views.{last_in, turn_at};

    ghost Value = { Turning };

    ghost view = { λ t. record { queue = record { web = t.pass.web; heap = t.pass.heap }; last = last_in t.pass.me.view.client.turn } };

    ghost invariant = { λ t. (t.pass.me.hand ≡ None) × (t.pass.me.spare ≡ None) × (t.pass.me.view.client ≡ turn_at (last_in t.pass.me.view.client.turn)) };
}
