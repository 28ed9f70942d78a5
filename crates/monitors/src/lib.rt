//! The clients that watch all that goes through a bus. The layer above uses that whoever sends looks at one number
//! where nobody watches, and what `Monitor::show` ensures: that a monitor gets a message just where it has no rules,
//! or one of them holds.
#![tactic(auto)]

mod asking;
mod monitor;
mod monitors;
mod shown;

pub use asking::Owners;
pub use monitors::Monitors;
pub use routing::Mailbox;
