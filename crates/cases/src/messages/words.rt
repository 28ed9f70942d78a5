// The words of a summary.

ghost use Rattle.std.specs.Prelude.{◌≤◌};

use super::asked::{edition_of, image_of};
use case_files::{Fields, Judge, LineError};
use std::alloc::{AllocError, Global};
use std::fmt::Write;
use summary::{Edition, Image};

/// A message, an edition and the slots whose names its sender owns: the number of the image's bytes, and each word of
/// its summary that isn't 0, with its place.
pub(crate) struct Words;

impl Judge for Words {
    const INPUTS: usize = 3;

    fn came(&self, alloc: Global, inputs: &Fields) -> Result<String, LineError> {
        let bytes = inputs.digits(alloc, 0)?;
        let image = image_of(inputs, bytes.as_slice())?;
        let mut words = String::new(alloc);
        push_words(&mut words, &image, edition_of(inputs)?)?;
        Ok(words)
    }
}

fn push_words(words: &mut String, image: &Image<'_>, edition: Edition) -> Result<(), AllocError> {
    let len = image.len();
    write!(words, "{len} bytes")?;
    for index in 0..word_count(edition) {
        let place = 4 * index;
        match image.word(place) {
            Some(0) => {}
            Some(word) => write!(words, " {place}={word}")?,
            None => write!(words, " {place} outside")?,
        }
    }
    Ok(())
}

/// How many words a summary has.
fn word_count(edition: Edition) -> u64
    ensures { result ≤ 244 }
{
    match edition {
        Edition::One => 226,
        Edition::Two => 244,
    }
}
