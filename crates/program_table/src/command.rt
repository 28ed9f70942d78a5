// What is asked of the bus, and what it answers.

use crate::capacity::Capacity;
use crate::refusal::Refusal;
use entry_table::{Attachment, RuleProgram};
use match_rule::Rule;
use owners::{Change, Named, WellKnown};

/// A change of the bus that is asked for. All but Limit and Connect are of a connection, by its number. A rule comes with its
/// program, which decides exactly where the rule holds; it and an attached program are shared, so that the state copies
/// neither.
#[derive(Drop)]
pub enum Command<M> {
    /// How much there may be from now on. What is there stays.
    Limit(Capacity),
    /// A new connection, whose messages go to the mailbox.
    Connect(M),
    /// Adds an entry with a rule (AddMatch).
    AddRule(u64, RuleProgram),
    /// Removes the oldest entry with an equal rule (RemoveMatch).
    RemoveRule(u64, Rule),
    /// Adds an entry with an attached program.
    Attach(u64, Attachment),
    /// Removes the attached program of this id.
    Detach(u64, u32),
    /// Asks for a name, with these flags (RequestName).
    Request(u64, WellKnown, u32),
    /// Gives up a claim on a name (ReleaseName).
    Release(u64, WellKnown),
    /// Gives up the claim on the least of the connection's names.
    DropOne(u64),
    /// Closes the connection, with its entries and claims.
    Close(u64),
}

/// What a command is answered.
#[derive(Debug, PartialEq, Eq, Drop)]
pub enum Reply {
    /// The number of the new connection.
    Connected(u64),
    /// The id of the new entry.
    Entry(u32),
    Done,
    /// What RequestName or ReleaseName answers.
    Name(Named),
    /// There was no claim to give up.
    Nothing,
    /// A waiting claim was given up.
    Waiting,
    /// A name's owner gave it up.
    Changed(Change),
    /// The command changed nothing.
    Refused(Refusal),
}
