//! What the benchmarks of messages, of programs and rules, and of recipients call from C.
#![tactic(auto)]

mod messages;
mod programs;
mod recipients;
mod rules;
mod states;
