// The lists of a broadcast.

ghost use Rattle.std.specs.Prelude.{◌≡◌, []};

use arrayvec::ArrayVec;
use fan_out::{Cost, MAX_RECIPIENTS, Marks};

/// The recipients of a broadcast, and those whose outbox refused it, by rising number, with the marks by which they are
/// found. Each list has room for as many connections as a bus may have, 32 kilobytes, so whoever sends many messages keeps the
/// lists from one to the next: they needn't be made for each.
#[derive(Drop)]
pub struct RouteLists {
    pub(crate) marks: Marks,
    pub recipients: ArrayVec<u64, MAX_RECIPIENTS>,
    pub refused: ArrayVec<u64, MAX_RECIPIENTS>,
}

impl RouteLists {
    /// Lists of nobody.
    pub fn new() -> RouteLists
        ensures recipients { result.recipients.items ≡ [] }
        ensures refused { result.refused.items ≡ [] }
    {
        RouteLists {
            marks: Marks::new(),
            recipients: ArrayVec::new(),
            refused: ArrayVec::new(),
        }
    }

    /// What it cost to find the recipients of the last broadcast.
    pub fn cost(&self) -> Cost {
        self.marks.cost()
    }

    /// Empties both lists.
    pub(crate) fn clear(&mut self)
        ensures recipients { self.new.recipients.items ≡ [] }
        ensures refused { self.new.refused.items ≡ [] }
    {
        self.recipients.clear();
        self.refused.clear();
    }
}
