// What an outbox holds, and the rule over it and over what each seat knows.

ghost use Rattle.std.specs.Prelude.{false};

use crate::item::Item;
use atomic_table::{Play, TableRule};
use crossbeam_queue::protocol::{Join, Lesson, Outcome, Protocol, Split};
use std::collections::LinkedList;

/// What a seat knows: the items that it put, and the items that it took, each with the number of the seat that put it; the
/// last place that anybody put, if it has the outbox's turn; and whether the turn was made of it. Contracts alone speak of
/// it; no value of it is made.
pub struct SeatView {
    pub put: LinkedList<Item>,
    pub taken: LinkedList<(u64, Item)>,
    pub turn: Option<u64>,
    pub minted: bool,
}

pub struct Merging;

impl Protocol<Item, SeatView> for Merging {
    ghost use Rattle.outbox.specs.Views.{blank, Merged};

    ghost holds = { Merged };

    ghost first = { blank };
}

pub struct Puts;

impl Outcome<Item, SeatView> for Puts {
    ghost use Rattle.std.specs.Prelude.{◌≡◌};
    ghost use Rattle.outbox.specs.Views.{after_put};

    ghost then = { λ v x w. w ≡ after_put v x };
}

impl Lesson<Item, SeatView> for Puts {
    ghost fact = { λ v items. Unit {0} };
}

/// As `Puts`, of an item that bears a place.
pub struct PutsPlaced;

impl Outcome<Item, SeatView> for PutsPlaced {
    ghost use Rattle.std.specs.Prelude.{◌≡◌};
    ghost use Rattle.outbox.specs.Views.{after_placed};

    ghost then = { λ v x w. w ≡ after_placed v x };
}

pub struct Takes;

impl Outcome<Item, SeatView> for Takes {
    ghost use Rattle.outbox.specs.Taking.{TakesNext};

    ghost then = { TakesNext };
}

impl Lesson<Item, SeatView> for Takes {
    ghost fact = { λ v items. Unit {0} };
}

/// The first seat makes the turn.
pub struct Mints;

impl Split<SeatView> for Mints {
    ghost use Rattle.outbox.specs.Views.{minter, turn_at};

    ghost left = { λ v. minter };

    ghost right = { λ v. turn_at 0 };
}

/// A seat takes the turn in, and gives it back.
pub struct Lends;

impl Join<SeatView> for Lends {
    ghost use Rattle.outbox.specs.Views.{blank, with_turn};

    ghost both = { λ v u. with_turn v u.turn };

    ghost spent = { blank };
}

impl Split<SeatView> for Lends {
    ghost use Rattle.std.specs.Prelude.{None};
    ghost use Rattle.outbox.specs.Views.{blank, with_turn};

    ghost left = { λ v. with_turn v None };

    ghost right = { λ v. with_turn blank v.turn };
}

/// The rule of the word that says whether the outbox is shut.
pub struct Shutting;

impl TableRule<(), bool, ()> for Shutting {
    ghost use Rattle.std.specs.Prelude.{false};
    ghost use Rattle.outbox.specs.Shut.{ShutIs};

    ghost holds = { λ _. ShutIs };

    ghost first = { λ _. false };
}

pub struct Look;

impl Play<(), bool> for Look {
    ghost use Rattle.outbox.specs.Shut.{Read};

    ghost then = { λ s. Read };
}

pub struct Shut;

impl Play<(), bool> for Shut {
    ghost use Rattle.outbox.specs.Shut.{Written};

    ghost then = { λ s me n. Written me };
}

/// What a seat at a sender's word knows: whether it is the sender's, and how many events are released at least. Contracts
/// alone speak of it; no value of it is made.
pub struct ReleaseView {
    pub is_sender: bool,
    pub released: u64,
}

/// The rule of the word that counts the events that a sender has released.
pub struct Releasing;

impl TableRule<(), ReleaseView, ()> for Releasing {
    ghost use Rattle.outbox.specs.Released.{Counts, sender_at};

    ghost holds = { λ _. Counts };

    ghost first = { λ _. sender_at 0 };
}

pub struct Finds;

impl Play<(), ReleaseView> for Finds {
    ghost use Rattle.outbox.specs.Released.{Found};

    ghost then = { λ s me. Found };
}

pub struct Raises;

impl Play<(), ReleaseView> for Raises {
    ghost use Rattle.outbox.specs.Released.{Raised};

    ghost then = { λ s me n. Raised n me };
}
