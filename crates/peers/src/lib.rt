//! A client that is on the bus, its peer: its pass, its unique name, the outbox through which all that it gets goes, and
//! the serials of the messages that the bus makes for it. A message of the client is handled here: a call of the bus is
//! answered by the table of methods, a row for each (`perform`), a broadcast or a message to a name is passed on, stamped
//! with the client's name. What a client takes of the bus
//! has a share. Changes of names are announced, and a peer leaves the bus. Sessions, which stand above, use
//! what `handle` ensures: whose name a message is stamped with and to whom it goes, and that a call whose caller waits
//! for no answer never ends for want of room for one.
#![tactic(auto)]

mod all_instructions;
mod announcements;
mod answers;
mod asked_texts;
mod calls;
mod context;
mod dispatch;
mod error;
mod filters;
mod hello;
mod holdings;
mod identity;
mod leaving;
mod matches;
mod methods;
mod monitoring;
mod names;
mod own_outbox;
mod owner;
mod peer;
mod queries;
mod reach;
mod refused;
mod request;
mod sending;
mod serial;
mod shares;
mod stats;
mod subject;

pub use all_instructions::AllInstructions;
pub use context::Context;
pub use dispatch::is_for_bus;
pub use error::AnswerError;
pub use hello::{join, put_refusal};
pub use identity::{BUS_NAME, Identity};
pub use leaving::Leaving;
pub use own_outbox::OwnOutbox;
pub use peer::Peer;
pub use refused::Refused;
pub use request::Request;
pub use shares::Shares;

// Passed on from the crates below, so that the crates above need not name those in crates.txt.
pub use router::{
    AskedTexts, Bus, BusBrand, BusError, Capacity, Command, Control, IndexKey, Mailbox, Opened,
    Pass, PlainMailbox, Published, RouteLists, Shown, StateReader,
};
