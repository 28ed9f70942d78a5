//! The calls that were passed on and wait for their replies. The layers above use that a reply is handed on only where its
//! call is among them, and that none of a connection stays when it goes.
#![tactic(auto)]

mod open_call;
mod open_calls;
mod shards;

pub use open_call::OpenCall;
pub use open_calls::OpenCalls;
pub use shards::{SHARDS, Shards};
