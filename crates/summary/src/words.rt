ghost use Rattle.std.specs.Prelude.{◌≡◌, ◌+◌, ◌*◌, ◌≤◌, ◌++◌, [], length, replicate};
ghost use Rattle.std.specs.Int.{w32, to_be_bytes};
ghost use Rattle.summary.specs.ImageBytes.{words_bytes};
ghost use Rattle.summary.specs.Parts.{with_word};

use std::marker::Model;

/// Words written one after the other, the highest byte of each first.
#[derive(Drop)]
pub struct Words {
    bytes: [u8; 976],
    len: usize,
}

impl Model for Words {
    ghost use Rattle.std.specs.Prelude.{◌≡◌, ℕ, ◌-◌, ◌≤◌, List, take, drop, replicate};

    ghost Value = { List ℕ };

    ghost view = { λ w. take w.len w.bytes };

    // After the words there are zeros.
    ghost invariant = { λ w. (w.len ≤ 976) × (drop w.len w.bytes ≡ replicate (976 - w.len) 0) };
}

impl Words {
    /// No words.
    pub fn new() -> Words
        ensures { result ≡ [] }
    {
        Words {
            bytes: [0; 976],
            len: 0,
        }
    }

    /// Writes one more word.
    #[inline(always)]
    pub fn put(&mut self, word: u32)
        requires { length self.old + 4 ≤ 976 }
        ensures { self.new ≡ self.old ++ to_be_bytes w32 word }
    {
        let start = self.len;
        let bytes = &mut self.bytes;
        bytes[start..start + 4].copy_from_slice(&word.to_be_bytes());
        self.len = start + 4;
    }

    /// Writes `count` words that are 0.
    #[inline(always)]
    pub fn put_zeros(&mut self, count: usize)
        requires { length self.old + 4 * count ≤ 976 }
        ensures { self.new ≡ self.old ++ words_bytes (replicate count 0) }
    {
        self.len += 4 * count;
    }

    /// Writes over the word at a place.
    #[inline(always)]
    pub fn set(&mut self, at: usize, word: u32)
        requires { at + 4 ≤ length self.old }
        ensures { self.new ≡ with_word self.old at word }
    {
        let bytes = &mut self.bytes;
        bytes[at..at + 4].copy_from_slice(&word.to_be_bytes());
    }

    /// The bytes.
    #[inline(always)]
    pub fn bytes(&self) -> &[u8]
        ensures { result.now ≡ self.now }
    {
        &self.bytes[..self.len]
    }
}
