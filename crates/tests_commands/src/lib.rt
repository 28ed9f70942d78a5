//! What no line of text can say of the commands: their help, rules as programs, writers that fail, the words of `watch`,
//! and a client's addresses and talks, with servers that a script plays in place of a socket. Words, faults and output of
//! the other commands stand in the files of `cases_tool`.
//!
//! A failure ends a test at once: a function that holds a client or an output then has one way out, and its proof is
//! short.
#![tactic(auto)]

#[cfg(test)]
mod addresses;
#[cfg(test)]
mod colours;
#[cfg(test)]
mod compiling;
#[cfg(test)]
mod faults;
#[cfg(test)]
mod help;
#[cfg(test)]
mod match_rules;
#[cfg(test)]
mod reasons;
#[cfg(test)]
mod running;
#[cfg(test)]
mod scripts;
#[cfg(test)]
mod talks;
#[cfg(test)]
mod two_files;
#[cfg(test)]
mod words;
#[cfg(test)]
mod writers;
