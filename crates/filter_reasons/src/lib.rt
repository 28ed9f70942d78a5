//! Which tests of a filter expression hold of a message, in lines for people. The layer above uses that `push_tests` writes a
//! line for each test, in the order of the text, and that it says that the test holds exactly if `FilterHolds` says so; and that
//! `near_tests` gives the tests that make the filter hold if they alone come out the other way.
#![tactic(auto)]

mod holding;
mod near;
mod slots;
mod telling;
mod tests;

pub use near::near_tests;
pub use slots::slots_of;
pub use telling::{push_near_tests, push_tests};
