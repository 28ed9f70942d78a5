//! The bus on its listening sockets: a few workers, each of which waits at a poll of its own for its share of the
//! connections; the first one accepts them, and hands the others theirs. A session never waits for its client, and
//! whoever puts a message writes it. What happens is noted, and a thread of its own writes the notes.
#![tactic(auto)]

mod accepting;
mod acceptor;
mod clients;
mod connection;
mod endpoint;
mod input;
mod limit;
mod limits;
mod mechanisms;
mod newcomers;
mod note;
mod notes;
mod scratch;
mod serving;
mod shared;
mod socket_probe;
mod spare_descriptor;
mod unfinished;
mod worker;
mod worker_setup;

pub use endpoint::Endpoint;
pub use input::can_watch_input;
pub use limit::Limit;
pub use limits::Limits;
pub use mechanisms::Mechanisms;
pub use note::{Cause, Note, Verbosity};
pub use notes::Log;
pub use serving::{Start, serve};

// Passed on from the crates below, so that the crates above need not name those in crates.txt.
pub use sessions::{External, Identity, IndexKey};
