/// What is called round each piece, in the thread of the piece's worker.
pub trait Gate: Sync {
    /// Called before the connections of the piece are looked at. Pieces count from 1.
    fn before(&self, piece: u32);

    /// Called after they were looked at.
    fn after(&self, piece: u32);
}
