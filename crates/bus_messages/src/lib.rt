//! What the bus itself says and understands: the table of its methods, the calls that clients make of them, and the
//! answers, errors and signals that it sends. Nothing here knows of connections but their numbers. The sessions above
//! use that each message which is built is valid and the one that its arguments ask for.
#![tactic(auto)]

mod arguments;
mod body;
mod call;
mod error_name;
mod exceeded;
mod filter_fault;
mod interface;
mod introspect;
mod laws;
mod prepared;
mod property;
mod reading;
mod sent;

pub use body::Body;
pub use bytes::Bytes;
pub use call::{Call, CallError};
pub use error_name::ErrorName;
pub use exceeded::Exceeded;
pub use filter_fault::FilterFault;
pub use introspect::introspection;
pub use laws::{number_is_read, text_is_read, text_is_there};
pub use message_build::{BuildError, Fact, NamedFact, TextList};
pub use property::Property;
pub use sent::{bad_filter, error, name_acquired, name_lost, name_owner_changed, reply};
pub use unique_name::UniqueName;
