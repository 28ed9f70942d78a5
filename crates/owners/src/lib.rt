//! Who owns which well-known name: the claims of connections on names, in queue order, and the slots that names
//! have. The layer above uses that each call of `Claims` is a step of the definitions in specs/Registry.antt, and
//! that a name has one slot at most (`IsRegistry`).
#![tactic(auto)]

mod answer;
mod claim;
mod claim_list;
mod claims;
mod error;
mod holding;
mod holdings;
mod least;
mod marks;
mod plan;
mod queue;
mod release;
mod step;
mod well_known;

pub use answer::{Change, Dropped, NameReply, Named};
pub use claims::{Claims, MAX_CLAIMS, MAX_NAMES, MAX_RULES};
pub use error::ClaimError;
pub use queue::Queue;
pub use well_known::WellKnown;
