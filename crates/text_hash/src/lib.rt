//! A hash of texts under a point that nobody outside knows, for tables that are looked up by texts. The layers above
//! use that the hash is a function of the point and the text.
#![tactic(auto)]

mod hash;
mod point;
mod wide;
mod word;

pub use hash::text_hash;
pub use point::Point;
