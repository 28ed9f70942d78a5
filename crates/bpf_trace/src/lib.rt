//! A run of a program step by step, in lines for people. The layer above uses that `push_trace` adds a line for each step,
//! each a `Step` from the start on, and that its verdict is the one of `run`.
#![tactic(auto)]

mod configuration;
mod effect;
mod image_words;
mod line;
mod step;
mod tracing;

pub use tracing::push_trace;
