ghost use Rattle.std.specs.Prelude.{◌≡◌, ◌+◌, ◌<◌, ◌≤◌, ◌^◌, ◌++◌, [], length};
ghost use Rattle.bpf_code.specs.Loads.{load_byte, load_half, load_word};
ghost use Rattle.message_view.specs.Message.{Message};
ghost use Rattle.message_view.specs.Valid.{Valid};
ghost use Rattle.summary.specs.ImageBytes.{image_bytes};

use crate::edition::Edition;
use crate::pieces::Pieces;
use crate::slots::Slots;
use crate::summary_bytes::put_summary;
use crate::words::Words;
use message_view::View;
use std::marker::Model;

/// What a program reads: a summary and a message's bytes, side by side.
#[derive(Drop)]
pub struct Image<'a> {
    words: Words,
    message: &'a [u8],
}

impl<'a> Model for Image<'a> {
    ghost use Rattle.std.specs.Prelude.{ℕ, List, ◌++◌, length, ◌≤◌, ◌^◌};

    ghost Value = { List ℕ };

    ghost view = { λ i. i.words ++ i.message.now };

    ghost invariant = { λ i. (length i.words ≤ 976) × (length i.message.now ≤ 2 ^ 27) };
}

impl<'a> Image<'a> {
    /// The image of a message whose sender owns the names of these slots: its summary, and its bytes where they
    /// lie. No memory is taken.
    pub fn new(view: &View<'a>, owned: &Slots, edition: Edition) -> Image<'a>
        ensures { (m : Message) → Valid view.now m → result ≡ image_bytes edition m owned.now }
    {
        let mut image = Image::empty();
        image.fill(view, owned, edition);
        image
    }

    /// No bytes. It is room for an image that is made where it stays: a summary that was just written is dear to move.
    pub fn empty() -> Image<'a>
        ensures { result ≡ [] }
    {
        Image {
            words: Words::new(),
            message: &[],
        }
    }

    /// Makes the image of a message, as `new` does, where there are no bytes yet.
    pub fn fill(&mut self, view: &View<'a>, owned: &Slots, edition: Edition)
        requires { self.old ≡ [] }
        ensures { (m : Message) → Valid view.now m → self.new ≡ image_bytes edition m owned.now }
    {
        put_summary(&mut self.words, view, owned, edition);
        self.message = view.raw();
    }

    /// The bytes where they lie, for many loads.
    pub fn pieces(&self) -> Pieces<'_>
        ensures { result ≡ self.now }
    {
        Pieces {
            summary: self.words.bytes(),
            message: self.message,
        }
    }

    /// The number of bytes.
    pub fn len(&self) -> u64
        ensures value { result ≡ length self.now }
        ensures small { result ≤ 976 + 2 ^ 27 }
    {
        self.pieces().len()
    }

    /// The byte at a place; `None` outside.
    pub fn byte(&self, at: u64) -> Option<u32>
        ensures { result ≡ load_byte self.now at }
    {
        self.pieces().byte(at)
    }

    /// The two bytes from a place on, the highest first; `None` where one lies outside.
    pub fn half(&self, at: u64) -> Option<u32>
        ensures { result ≡ load_half self.now at }
    {
        self.pieces().half(at)
    }

    /// The four bytes from a place on, the highest first; `None` where one lies outside.
    pub fn word(&self, at: u64) -> Option<u32>
        ensures { result ≡ load_word self.now at }
    {
        self.pieces().word(at)
    }
}
