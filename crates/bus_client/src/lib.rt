//! The client's side of a bus: where it listens, the authentication talk, and calls with their answers. The layer above
//! uses that a talk ends after five of the client's lines at most, and that BEGIN follows OK alone, or the answer to
//! NEGOTIATE_UNIX_FD, which follows OK alone.
#![tactic(auto)]

mod address;
mod calls;
mod client;
mod descriptors;
mod error;
mod escapes;
mod lines;
mod places;
mod refusal;
mod sockets;
mod strings;
mod talk;
mod timed;
mod transport;

pub use address::{Address, AddressError, read_addresses};
pub use client::Client;
pub use error::ClientError;
pub use places::addresses_of;
pub use refusal::Refusal;
pub use sockets::connect;
pub use talk::{Answer, Say, Stage};
pub use timed::Timed;
pub use transport::Transport;
