//! A connection as all threads of a server see it: its outbox, and whoever writes what stands there to its socket. The
//! server hands a `SocketMailbox` of each connection to the bus; the threads that put messages write them too.
#![tactic(auto)]

mod batch;
mod socket_mailbox;
mod unsent;
mod whole_message;
mod worker_handle;
mod writer;

pub use outbox::Room;
pub use program_table::Handle;
pub use socket_mailbox::SocketMailbox;
pub use worker_handle::{Arrival, BELL, WorkerHandle};
