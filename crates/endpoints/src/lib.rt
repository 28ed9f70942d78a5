//! Where a bus listens, and connected sockets of both ends: TCP and Unix sockets as one type. The layers above use the
//! texts of addresses; what the system does at a socket no contract says.
#![tactic(auto)]

mod address;
mod escapes;
mod link;
mod listener;
mod node;
mod own;
mod shortage;
mod socket_file;
mod socket_lock;

pub use address::Address;
pub use escapes::{escape, respell, unescape};
pub use link::Link;
pub use listener::Listener;
pub use own::own_user;
pub use shortage::is_of_descriptors;
pub use socket_file::SocketFile;
