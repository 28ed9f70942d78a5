ghost use Rattle.std.specs.Prelude.{◌≡◌, ◌↔◌, ◌<◌, ◌≤◌, IsTrue};
ghost use Rattle.fan_out.specs.Pieces.{IsInPiece};

/// A share of the connections: those whose number leaves `part` - 1 when divided by `of`.
#[derive(Clone, Copy)]
pub(crate) struct Piece {
    /// From 1.
    pub(crate) part: u32,
    pub(crate) of: u32,
    ghost some: { 0 < part },
    ghost within: { part ≤ of },
}

impl Piece {
    /// Whether the connection of this number is in the piece.
    pub(crate) fn has(self, number: u64) -> bool
        ensures { IsTrue result ↔ IsInPiece self.part self.of number }
    {
        self.of == 1 || number % u64::from(self.of) == u64::from(self.part - 1)
    }
}
