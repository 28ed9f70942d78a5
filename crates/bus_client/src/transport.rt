// What a connection to a bus goes by.

/// What a connection to a bus goes by.
#[derive(Clone, Copy, Debug, PartialEq, Eq)]
pub enum Transport {
    /// A Unix socket, which can pass file descriptors.
    Unix,
    /// TCP, which can't.
    Tcp,
}
