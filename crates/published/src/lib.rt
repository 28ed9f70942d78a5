//! The published state of a bus: one history of commands under the writer, and readers that enter the state without a
//! lock. The layers above use that `Publisher::publish` adds just its command to the history, that a guard shows the
//! state after a history that begins with all that its reader had seen, and that of two histories of one bus one begins
//! the other.
#![tactic(auto)]

mod history;
mod history_reader;
mod publisher;
mod shown;

pub use history::{BusBrand, HistoryPrefix, Law, Opened};
pub use history_reader::{HistoryReader, ReadGuard, StateReader};
pub use publisher::{PublishError, Publisher};
pub use shown::{Entry, Published, Shown};
