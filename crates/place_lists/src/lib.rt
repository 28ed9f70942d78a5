//! Lists over the places 0 to N - 1, each place in one list at most: a place is put at the front of a list, or taken
//! out wherever it stands, in constant time, and nothing grows. The layers above use that each list is as it was but
//! for the place that was put or taken.
#![tactic(auto)]

mod lists;
mod walk;

pub use lists::{END, Lists};
pub use walk::Walk;
