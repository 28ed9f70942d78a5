// Where a piece of a program goes on.
ghost use Rattle.std.specs.Prelude.{◌≡◌};
ghost use Rattle.filter_compile.specs.Pieces.{turned};
ghost use Rattle.filter_compile.specs.TestCode.{exits_for};

use filter::Equality;

/// The two exits of a piece, places further on, each as the number of instructions from it to the program's end.
#[derive(Clone, Copy)]
pub(crate) struct Exits {
    /// Where the piece's fact holds.
    pub(crate) holds: usize,
    /// Where it doesn't.
    pub(crate) fails: usize,
}

impl Exits {
    /// Those of the piece that is to hold where this one doesn't.
    pub(crate) fn turned(self) -> Exits
        ensures { result ≡ turned self }
    {
        Exits {
            holds: self.fails,
            fails: self.holds,
        }
    }

    /// Those of a piece that is to hold, or not to.
    pub(crate) fn for_equality(self, equality: Equality) -> Exits
        ensures { result ≡ exits_for equality self }
    {
        match equality {
            Equality::Equal => self,
            Equality::Unequal => self.turned(),
        }
    }
}
