// What an outbox holds.

ghost use Rattle.std.specs.Prelude.{◌≡◌, IfOk, None, option_map};
ghost use Rattle.outbox.specs.Items.{Item, Hold};

use crate::releases::Hold;
use bytes::Bytes;
use std::alloc::{AllocError, Global};
use std::marker::Model;
use std::sync::Arc;

// What all shares of a message have in common.
#[derive(Drop)]
struct Letter {
    bytes: Bytes,
    mark: Option<(u64, u64)>,
    place: Option<u64>,
    // None if it may be given out at once.
    hold: Option<Hold>,
}

/// A share of a message, which is one pointer. A broadcast has a mark: its origin, which is the connection that sent it,
/// and its count among the origin's broadcasts, from 1 on. A unicast message has none. A message that tells of names bears a
/// place in the history of the bus: none is given out after what bears a later one.
#[derive(Drop)]
pub struct Item {
    letter: Arc<Letter, Global>,
}

impl Model for Item {
    ghost use Rattle.std.specs.Arc.{arc_value};
    ghost use Rattle.outbox.specs.Items.{Item};

    ghost Value = { Item };

    ghost view = { λ i. record { bytes = (arc_value i.letter).bytes; mark = (arc_value i.letter).mark; place = (arc_value i.letter).place; hold = (arc_value i.letter).hold } };
}

impl Item {
    /// A message that an outbox gives out as soon as it holds it, and that is no broadcast. It bears this place, if any.
    pub fn new(alloc: Global, bytes: Bytes, place: Option<u64>) -> Result<Item, AllocError>
        ensures { IfOk result (λ item. item ≡ record { bytes = bytes; mark = None; place = place; hold = None }) }
    {
        Item::of(alloc, bytes, None, place, None)
    }

    pub(crate) fn of(
        alloc: Global,
        bytes: Bytes,
        mark: Option<(u64, u64)>,
        place: Option<u64>,
        hold: Option<Hold>,
    ) -> Result<Item, AllocError>
        ensures { IfOk result (λ item. item ≡ record { bytes = bytes; mark = mark; place = place; hold = hold }) }
    {
        let letter = Arc::new(
            alloc,
            Letter {
                bytes,
                mark,
                place,
                hold,
            },
        )?;
        Ok(Item { letter })
    }

    /// Another share of the same message.
    pub(crate) fn share(&self) -> Result<Item, AllocError>
        ensures { IfOk result (λ item. item ≡ self.now) }
    {
        let letter = Arc::try_clone(&self.letter)?;
        Ok(Item { letter })
    }

    pub fn bytes(&self) -> &Bytes
        ensures { result.now ≡ self.now.bytes }
    {
        let letter: &Letter = &self.letter;
        &letter.bytes
    }

    pub fn mark(&self) -> Option<(u64, u64)>
        ensures { result ≡ self.now.mark }
    {
        let letter: &Letter = &self.letter;
        letter.mark
    }

    pub fn place(&self) -> Option<u64>
        ensures { result ≡ self.now.place }
    {
        let letter: &Letter = &self.letter;
        letter.place
    }

    pub(crate) fn hold(&self) -> Option<&Hold>
        ensures { option_map (λ hold. hold.now) result ≡ self.now.hold }
    {
        let letter: &Letter = &self.letter;
        letter.hold.as_ref()
    }
}
