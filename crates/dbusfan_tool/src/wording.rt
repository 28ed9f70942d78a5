// Whose words are used.

/// What is said of messages: whether a rule matches, or what a program's run comes to.
#[derive(Clone, Copy, Debug, PartialEq, Eq)]
pub(crate) enum Wording {
    OfRule,
    /// Of a rule, and of a capture's messages only this many that it misses by the fewest conditions.
    OfNearest(u64),
    OfProgram,
}
