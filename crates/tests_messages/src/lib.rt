//! Tests of signatures, messages, their building and stamping, streams and images, and of the rules and programs that choose
//! among messages: what no line of a case can say, and what each does without memory. The cases are in `cases`.
//!
//! A failure ends a test at once: a function that holds a message or a program then has one way out, and its proof is short.
#![tactic(auto)]

#[cfg(test)]
mod builders;
#[cfg(test)]
mod byte_forms;
#[cfg(test)]
mod compiled;
#[cfg(test)]
mod errors;
#[cfg(test)]
mod faults;
#[cfg(test)]
mod images;
#[cfg(test)]
mod kinds;
#[cfg(test)]
mod limits;
#[cfg(test)]
mod lowered;
#[cfg(test)]
mod many_labels;
#[cfg(test)]
mod program_refusals;
#[cfg(test)]
mod refusals;
#[cfg(test)]
mod rule_refusals;
#[cfg(test)]
mod rules;
#[cfg(test)]
mod s1;
#[cfg(test)]
mod signatures;
#[cfg(test)]
mod stamps;
#[cfg(test)]
mod streams;
#[cfg(test)]
mod verdicts;
#[cfg(test)]
mod views;
