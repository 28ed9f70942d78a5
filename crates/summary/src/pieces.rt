ghost use Rattle.std.specs.Prelude.{◌≡◌, ◌≤◌, ◌+◌, ◌^◌, ◌++◌, Some, IfSome, length};
ghost use Rattle.bpf_code.specs.Loads.{load_byte, load_half, load_word};

use crate::joined;
use std::marker::Model;

/// The bytes of an image where they lie: those of the summary, and after them those of the message.
#[derive(Drop)]
pub struct Pieces<'a> {
    pub(crate) summary: &'a [u8],
    pub(crate) message: &'a [u8],
}

impl<'a> Model for Pieces<'a> {
    ghost use Rattle.std.specs.Prelude.{ℕ, List, ◌++◌, length, ◌≤◌, ◌^◌};

    ghost Value = { List ℕ };

    ghost view = { λ p. p.summary.now ++ p.message.now };

    ghost invariant = { λ p. (length p.summary.now ≤ 976) × (length p.message.now ≤ 2 ^ 27) };
}

impl<'a> Pieces<'a> {
    /// The number of bytes.
    #[inline(always)]
    pub fn len(&self) -> u64
        ensures value { result ≡ length self.now }
        ensures small { result ≤ 976 + 2 ^ 27 }
    {
        self.summary.len() as u64 + self.message.len() as u64
    }

    /// The byte at a place; `None` outside.
    #[inline(always)]
    pub fn byte(&self, at: u64) -> Option<u32>
        ensures { result ≡ load_byte self.now at }
    {
        joined::byte(self.summary, self.message, at)
    }

    /// The two bytes from a place on, the highest first; `None` where one lies outside.
    #[inline(always)]
    pub fn half(&self, at: u64) -> Option<u32>
        ensures { result ≡ load_half self.now at }
    {
        joined::half(self.summary, self.message, at)
    }

    /// The four bytes from a place on, the highest first; `None` where one lies outside.
    #[inline(always)]
    pub fn word(&self, at: u64) -> Option<u32>
        ensures { result ≡ load_word self.now at }
    {
        joined::word(self.summary, self.message, at)
    }

    /// The four bytes from a place on, where the summary has all of them. It is quicker than `word`, which tells of every
    /// place: `None` says nothing here.
    #[inline(always)]
    pub fn summary_word(&self, at: u64) -> Option<u32>
        ensures { IfSome result (λ word. load_word self.now at ≡ Some word) }
    {
        joined::word_in_front(self.summary, at)
    }
}
