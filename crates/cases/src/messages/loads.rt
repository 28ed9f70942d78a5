// Loads from an image.

use super::asked::image_of;
use case_files::{Fields, Judge, LineError};
use std::alloc::Global;
use std::fmt::Write;
use summary::Image;

/// A message, an edition, the slots whose names its sender owns, and loads: `b`, `h` or `w` for one, two or four bytes,
/// and a place. What each load gives, `outside` where that isn't in the image.
pub(crate) struct Loads;

impl Judge for Loads {
    const INPUTS: usize = 4;

    fn came(&self, alloc: Global, inputs: &Fields) -> Result<String, LineError> {
        let bytes = inputs.digits(alloc, 0)?;
        let image = image_of(inputs, bytes.as_slice())?;
        let mut words = String::new(alloc);
        push_loads(&mut words, &image, inputs.text(3)?)?;
        Ok(words)
    }
}

fn push_loads(words: &mut String, image: &Image<'_>, loads: &str) -> Result<(), LineError> {
    for asked in loads.split_whitespace() {
        if !words.is_empty() {
            words.push(' ')?;
        }
        let Some((width, place)) = asked.split_at_checked(1) else {
            return Err(LineError::Unreadable);
        };
        push_load(words, image, width, place.parse::<u64>()?)?;
    }
    Ok(())
}

/// Adds what the image gives, where its pieces give the same.
fn push_load(
    words: &mut String,
    image: &Image<'_>,
    width: &str,
    place: u64,
) -> Result<(), LineError> {
    let pieces = image.pieces();
    let (number, again) = match width {
        "b" => (image.byte(place), pieces.byte(place)),
        "h" => (image.half(place), pieces.half(place)),
        "w" => (image.word(place), pieces.word(place)),
        _ => return Err(LineError::Unreadable),
    };
    if number != again {
        return Ok(words.push_str("pieces-differ")?);
    }
    match number {
        Some(number) => write!(words, "{number}")?,
        None => words.push_str("outside")?,
    }
    Ok(())
}
