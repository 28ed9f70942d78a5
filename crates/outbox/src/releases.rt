// What a sender puts is held in all outboxes until it is released.

ghost use Rattle.std.specs.Prelude.{◌≡◌, ◌≤◌, ◌<◌, ◌+◌, false, true, replicate, IfOk, IfSome, OnOk, OnErr};
ghost use Rattle.outbox.specs.Items.{Hold, Shares};
ghost use Rattle.outbox.specs.Released.{Events, hold_of, next_event, all_released, sender_at};

use crate::item::Item;
use crate::rule::{Finds, Raises, ReleaseView, Releasing};
use atomic_table::{Seat as WordSeat, Table};
use bytes::Bytes;
use std::alloc::{AllocError, Global};
use std::marker::Model;
use std::sync::Arc;

// How many events a sender has released, as all threads see it.
#[derive(Drop)]
struct Progress {
    word: Table<(), ReleaseView, (), Releasing, Global>,
    ghost words: { word.shared.table_id.words ≡ 1 },
}

/// Until when a message is held: until its sender has released this event.
#[derive(Drop)]
pub(crate) struct Hold {
    progress: Arc<Progress, Global>,
    event: u64,
}

impl Model for Hold {
    ghost use Rattle.std.specs.Arc.{arc_value};
    ghost use Rattle.outbox.specs.Items.{Hold};

    ghost Value = { Hold };

    ghost view = { λ h. record { word = (arc_value h.progress).word.shared.table_id; event = h.event } };
}

impl Hold {
    /// A seat that knows that the event is released, if it is.
    pub(crate) fn find_released(&self) -> Option<WordSeat<(), ReleaseView>>
        ensures { IfSome result (λ seat. (seat.table_id ≡ self.now.word) × (self.now.event ≤ seat.me.0.released)) }
    {
        let progress: &Progress = &self.progress;
        let (released, seat) = progress.word.shared.load_new_seat::<Finds>(0);
        if self.event <= released {
            Some(seat)
        } else {
            None
        }
    }
}

/// The shares of a message, one for each put that is left. They can't be dropped, only given back by `Releases::end` when
/// no put is left.
pub struct Shares {
    message: Item,
    // That of the last put, so that one put takes no further memory.
    last: Option<Item>,
    others: Vec<Item>,
}

impl Model for Shares {
    ghost use Rattle.std.specs.Prelude.{◌≡◌, ◌+◌, true, [], IfSome, is_none, is_some, length, replicate, if◌then◌else◌};
    ghost use Rattle.outbox.specs.Items.{Shares};

    ghost Value = { Shares };

    ghost view = { λ s. record { message = s.message; left = length s.others.items + (if is_some s.last then 1 else 0) } };

    ghost invariant = { λ s. (s.others.items ≡ replicate (length s.others.items) s.message) × IfSome s.last (λ item. item ≡ s.message) × (is_none s.last ≡ true → s.others.items ≡ []) };
}

impl Shares {
    fn new(alloc: Global, message: Item, puts: usize) -> Result<Shares, AllocError>
        ensures { IfOk result (λ shares. shares ≡ record { message = message; left = puts }) }
    {
        if puts == 0 {
            return Ok(Shares {
                message,
                last: None,
                others: Vec::new(alloc),
            });
        }
        let last = Some(message.share()?);
        let others = shares_of(alloc, &message, puts - 1)?;
        Ok(Shares {
            message,
            last,
            others,
        })
    }

    /// The share for the next put.
    pub fn next(&mut self) -> Item
        requires { 0 < self.old.left }
        ensures item { result ≡ self.old.message }
        ensures left { (self.new.left + 1 ≡ self.old.left) × (self.new.message ≡ self.old.message) }
    {
        match self.others.pop() {
            Some(item) => item,
            None => self.last.take().unwrap(),
        }
    }
}

// As many shares of an item.
fn shares_of(alloc: Global, item: &Item, count: usize) -> Result<Vec<Item>, AllocError>
    ensures { IfOk result (λ shares. shares.items ≡ replicate count item.now) }
{
    let mut shares = Vec::with_capacity(alloc, count)?;
    for _ in 0..count {
        shares.push(item.share()?)?;
    }
    Ok(shares)
}

/// The events of a sender. What it puts in one event is held in all outboxes until the event is released, which can't be
/// while a put is left.
#[derive(Drop)]
pub struct Releases {
    progress: Arc<Progress, Global>,
    seat: WordSeat<(), ReleaseView>,
    released: u64,
    // Something was put since.
    is_open: bool,
    // Puts of a message are left.
    is_putting: bool,
}

impl Model for Releases {
    ghost use Rattle.std.specs.Prelude.{◌≡◌, true, []};
    ghost use Rattle.std.specs.Arc.{arc_value};
    ghost use Rattle.outbox.specs.Released.{Events, sender_at};

    ghost Value = { Events };

    ghost view = { λ r. record { word = (arc_value r.progress).word.shared.table_id; released = r.released; is_open = r.is_open; is_putting = r.is_putting } };

    ghost invariant = { λ r. (r.seat.table_id ≡ (arc_value r.progress).word.shared.table_id) × (r.seat.me ≡ (sender_at r.released, [])) };
}

impl Releases {
    /// A sender that has put nothing.
    pub fn new(alloc: Global) -> Result<Releases, AllocError>
        ensures { IfOk result (λ r. (r.is_open ≡ false) × (r.is_putting ≡ false)) }
    {
        let (word, seat) = Table::of_words(alloc, &[0], &())?;
        let progress = Arc::new(alloc, Progress { word })?;
        Ok(Releases {
            progress,
            seat,
            released: 0,
            is_open: false,
            is_putting: false,
        })
    }

    fn hold(&self) -> Result<Option<Hold>, AllocError>
        ensures { IfOk result (λ hold. hold ≡ hold_of self.now) }
    {
        if self.released == u64::MAX {
            return Ok(None);
        }
        let progress = Arc::try_clone(&self.progress)?;
        Ok(Some(Hold {
            progress,
            event: self.released + 1,
        }))
    }

    /// Shares of a message, as many as there are puts to be made.
    pub fn begin(
        &mut self,
        alloc: Global,
        bytes: Bytes,
        mark: Option<(u64, u64)>,
        place: Option<u64>,
        puts: usize,
    ) -> Result<Shares, AllocError>
        requires { self.old.is_putting ≡ false }
        ensures ok { OnOk result (self.new ≡ record self.old { is_open = true; is_putting = true }) }
        ensures shares { IfOk result (λ shares. shares ≡ record { message = record { bytes = bytes; mark = mark; place = place; hold = hold_of self.old }; left = puts }) }
        ensures err { OnErr result (self.new ≡ self.old) }
    {
        let hold = self.hold()?;
        let message = Item::of(alloc, bytes, mark, place, hold)?;
        let shares = Shares::new(alloc, message, puts)?;
        self.is_open = true;
        self.is_putting = true;
        Ok(shares)
    }

    /// No put of the message is left. The shares are those that the last `begin` gave.
    pub fn end(&mut self, shares: Shares)
        requires left { shares.left ≡ 0 }
        requires own { shares.message.hold ≡ hold_of self.old }
        ensures { self.new ≡ record self.old { is_putting = false } }
    {
        let Shares {
            message: _,
            last: _,
            others: _,
        } = shares;
        self.is_putting = false;
    }

    /// Releases all that was put.
    pub fn release(&mut self)
        requires { self.old.is_putting ≡ false }
        ensures { self.new ≡ all_released self.old }
    {
        if !self.is_open {
            return;
        }
        self.is_open = false;
        self.raise();
    }

    fn raise(&mut self)
        ensures { self.new ≡ record self.old { released = next_event self.old.released } }
    {
        if self.released == u64::MAX {
            return;
        }
        self.released += 1;
        let progress: &Progress = &self.progress;
        progress
            .word
            .shared
            .store::<Raises>(&mut self.seat, 0, self.released);
    }
}
