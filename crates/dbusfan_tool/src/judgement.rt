// What is said of a message.

/// The verdict on a message, whose steps say nothing where a rule or a filter judges; and why the rule doesn't match, or which tests
/// of the filter hold, if that is wanted.
#[derive(Drop)]
pub(crate) struct Judgement {
    pub(crate) verdict: u32,
    pub(crate) steps: u32,
    /// A line for each reason or test, what comes before it included.
    pub(crate) reasons: String,
    /// How many reasons there are, if those of a rule are wanted.
    pub(crate) misses: usize,
    /// The lines of the steps of a program, where they are wanted.
    pub(crate) trace: String,
}
