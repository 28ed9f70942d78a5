//! Tests of the bus's own messages (the bytes that the public examples give, and a call of each method), of talks that
//! don't admit everybody, and of the command `serve`: a bus and its clients in one process, over sockets of both kinds.
#![tactic(auto)]

#[cfg(test)]
mod admissions;
#[cfg(test)]
mod announced;
#[cfg(test)]
mod attachments;
#[cfg(test)]
mod calls;
#[cfg(test)]
mod client;
#[cfg(test)]
mod described;
#[cfg(test)]
mod folders;
#[cfg(test)]
mod messages;
#[cfg(test)]
mod two_clients;
#[cfg(test)]
mod unique_names;
#[cfg(test)]
mod words;
