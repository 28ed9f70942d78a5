// What a step of a session did.

/// What a step did.
#[derive(Clone, Copy, Debug, PartialEq, Eq)]
pub enum Step {
    /// A line or a message was handled.
    Done,
    /// The next line or message isn't there whole.
    Waits,
}
