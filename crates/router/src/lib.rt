//! The bus as threads share it: each command of a pass under its lock, and messages to outboxes without it. The layers
//! above use that each call's reply is the table's after one history, which begins with all that its pass had seen, and
//! that a pass's own commands are those that were accepted of it, each once and in order.
#![tactic(auto)]

mod bus;
mod plain_mailbox;
mod routes;
mod unicasts;
mod watching;

pub use bus::Bus;
pub use monitors::Monitors;
pub use open_calls::{OpenCall, OpenCalls, SHARDS};
pub use passes::{BusError, Control, NameCall, Pass, RouteLists, Sent, Source, Standing};
pub use plain_mailbox::PlainMailbox;
pub use routing::OpenGate;

// Passed on from the crates below, so that the crates above need not name those in crates.txt.
pub use passes::{
    AskedTexts, BusBrand, Capacity, Command, IndexKey, Mailbox, Opened, Published, Refusal, Reply,
    Shown, StateReader,
};
