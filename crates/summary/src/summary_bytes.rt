ghost use Rattle.std.specs.Prelude.{◌≡◌, [], length};
ghost use Rattle.message_view.specs.Message.{Message};
ghost use Rattle.message_view.specs.Valid.{Valid};
ghost use Rattle.summary.specs.Layout.{IsSize};
ghost use Rattle.summary.specs.ImageBytes.{summary_bytes};

use crate::edition::Edition;
use crate::layout::COUNT_PLACE;
use crate::parts::{put_arguments, put_head, put_rest, put_texts};
use crate::slots::Slots;
use crate::words::Words;
use message_view::View;
use std::marker::Model;

/// The summary of a message: words of four bytes, the highest first.
#[derive(Drop)]
pub struct Summary {
    words: Words,
}

impl Model for Summary {
    ghost use Rattle.std.specs.Prelude.{ℕ, List, length};
    ghost use Rattle.summary.specs.Layout.{IsSize};

    ghost Value = { List ℕ };

    ghost view = { λ s. s.words };

    ghost invariant = { λ s. IsSize (length s.words) };
}

impl Summary {
    /// The bytes.
    pub fn bytes(&self) -> &[u8]
        ensures value { result.now ≡ self.now }
        ensures size { IsSize (length self.now) }
    {
        self.words.bytes()
    }
}

/// Writes the summary of a message whose sender owns the names of these slots, before which there are no words.
pub(crate) fn put_summary(words: &mut Words, view: &View<'_>, owned: &Slots, edition: Edition)
    requires { words.old ≡ [] }
    ensures bytes { (m : Message) → Valid view.now m → words.new ≡ summary_bytes edition m owned.now }
    ensures size { IsSize (length words.new) }
{
    put_head(words, view, edition);
    put_texts(words, view, edition);
    let count = put_arguments(words, edition, view.args());
    words.set(COUNT_PLACE, count as u32);
    put_rest(words, view, owned, edition);
}

/// The summary of a message whose sender owns the names of these slots. No memory is taken.
pub fn summarise(view: &View<'_>, owned: &Slots, edition: Edition) -> Summary
    ensures { (m : Message) → Valid view.now m → result ≡ summary_bytes edition m owned.now }
{
    let mut words = Words::new();
    put_summary(&mut words, view, owned, edition);
    Summary { words }
}
