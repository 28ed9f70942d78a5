//! Outboxes: bounded queues of messages, one for each connection, which shut when they are full. What an outbox holds
//! and has given out is a merge of what its seats have put, in every interleaving. The layers above use what `put`
//! ensures of the list of what a seat has put, and what `take` ensures: that the list given out has each putting seat's
//! broadcasts in rising order, none twice, and each message only once its sender has released it.
#![tactic(auto)]

mod handle;
mod item;
mod laws;
mod releases;
mod room;
mod rule;
mod seats;
mod taker;
mod tally;

pub use handle::Outbox;
pub use item::Item;
pub use laws::{
    in_order_of_each_origin, known_is_released, places_rise, put_is_taken_or_stands, taken_was_put,
};
pub use releases::{Releases, Shares};
pub use room::{ROOM, Room};
pub use rule::{ReleaseView, SeatView};
pub use seats::{Seat, Turn};
pub use taker::{Delivery, Taker};
pub use tally::{Counts, Tally};
