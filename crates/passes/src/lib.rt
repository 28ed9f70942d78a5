//! What one user of a bus sees, asks and sends. A `Pass` reads the published state without a lock and sends by it; a
//! `Control`, which lies under the lock of the bus, publishes a pass's commands. The layer above uses that each call's
//! reply is the table's after one history, which begins with all that its pass had seen, and that a pass's own commands
//! are those that were accepted of it, each once and in order.
#![tactic(auto)]

mod asking;
mod by_workers;
mod calls;
mod census;
mod control;
mod error;
mod holding;
mod kept;
mod laws;
mod name_call;
mod names;
mod pass;
mod reading;
mod route_lists;
mod routes;
mod seating;
mod standing;
mod telling;
mod texts;
mod unicasts;

pub use control::Control;
pub use error::BusError;
pub use kept::KeptPasses;
pub use laws::{accepted_is_in_force, bus_is_heard_by_the_same, what_is_put_waits};
pub use name_call::NameCall;
pub use pass::Pass;
pub use reading::Source;
pub use route_lists::RouteLists;
pub use standing::Standing;
pub use unicasts::Sent;

// Passed on from the crates below, so that the crates above need not name those in crates.txt.
pub use entry_table::{AskedTexts, IndexKey};
pub use fan_out::MAX_RECIPIENTS;
pub use program_table::{Capacity, Command, Refusal, Reply};
pub use published::{BusBrand, HistoryPrefix, Opened, Published, Shown, StateReader};
pub use routing::Mailbox;
