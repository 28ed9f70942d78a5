ghost use Rattle.std.specs.Prelude.{◌≡◌, ◌<◌, ℕ, false, ◌||◌, ◌==◌};
ghost use Rattle.summary.specs.Sets.{has_slot, IsSet};

use std::marker::Model;

/// A set of the slots 0 to 1,023.
#[derive(Clone, Copy, Debug, PartialEq, Eq)]
pub struct Slots {
    words: [u32; 32],
}

impl Model for Slots {
    ghost use Rattle.std.specs.Prelude.{ℕ, List};
    ghost use Rattle.summary.specs.Sets.{IsSet};

    ghost Value = { List ℕ };

    ghost view = { λ s. s.words };

    ghost inverse = { λ words. record { words = words } };

    ghost invariant = { λ s. IsSet s.words };
}

impl Slots {
    /// No slot.
    pub fn empty() -> Slots
        ensures none { (slot : ℕ) → has_slot result slot ≡ false }
        ensures set { IsSet result }
    {
        Slots { words: [0; 32] }
    }

    /// Adds a slot.
    pub fn insert(&mut self, slot: u16)
        requires { slot < 1024 }
        ensures inserted { (other : ℕ) → has_slot self.new other ≡ ((other == slot) || has_slot self.old other) }
        ensures set { IsSet self.new }
    {
        self.words[slot as usize / 32] |= 1 << (slot % 32);
    }

    /// Whether the slot is in the set.
    pub fn contains(&self, slot: u16) -> bool
        ensures { result ≡ has_slot self.now slot }
    {
        slot < 1024 && (self.words[slot as usize / 32] >> (slot % 32)) & 1 == 1
    }

    /// The words of the bits: slot s is bit s mod 32 of word s / 32.
    pub(crate) fn words(&self) -> &[u32; 32]
        ensures { result.now ≡ self.now }
    {
        &self.words
    }
}
