//! The state of the bus: its connections, claims and entries, and what each command is answered and does. The layers
//! above use what `answer` and `apply` ensure, which is the table of commands.
#![tactic(auto)]

mod capacity;
mod command;
mod connection;
mod connections;
mod handle;
mod laws;
mod refusal;
mod registration_table;
mod removal;
mod state;

pub use capacity::Capacity;
pub use command::{Command, Reply};
pub use connection::Connection;
pub use connections::MAX_CONNECTIONS;
pub use handle::Handle;
pub use laws::commands_are_counted;
pub use refusal::Refusal;
pub use state::BusState;
