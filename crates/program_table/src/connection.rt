/// A connection of the bus.
#[derive(Drop)]
pub struct Connection<M> {
    /// Its number: connection N has the unique name `:1.N`.
    pub number: u64,
    /// Where its messages go.
    pub mailbox: M,
    /// How many commands of it were accepted, its Connect included.
    pub commands: u64,
}
