//! One that writes, for which several threads call and for which none waits. A connection's outbox is written out by
//! whichever thread put a message there, by the one that is told of room, and by the one that ends the connection: `SoleWriter`
//! has one of them write at a time, and nothing is left lying that was put before a call.
#![tactic(auto)]

mod line;
mod sole_writer;
mod stage;

pub use line::{Line, Stand};
pub use sole_writer::{SoleWriter, Words};
pub use stage::{Place, Stage};
