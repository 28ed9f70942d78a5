// Of which message an image is asked for, and how.

use case_files::{Fields, LineError};
use message_view::View;
use summary::{Edition, Image, Slots};

const SLOT_COUNT: u16 = 1024;

/// The edition of the second field.
pub(crate) fn edition_of(inputs: &Fields) -> Result<Edition, LineError> {
    match inputs.text(1)? {
        "1" => Ok(Edition::One),
        "2" => Ok(Edition::Two),
        _ => Err(LineError::Unreadable),
    }
}

/// The slots of the third field.
fn slots_of(inputs: &Fields) -> Result<Slots, LineError> {
    let mut slots = Slots::empty();
    for word in inputs.text(2)?.split_whitespace() {
        let slot = word.parse::<u16>()?;
        if slot >= SLOT_COUNT {
            return Err(LineError::Unreadable);
        }
        slots.insert(slot);
    }
    Ok(slots)
}

/// The image of the bytes of the first field's message.
pub(crate) fn image_of<'a>(inputs: &Fields, bytes: &'a [u8]) -> Result<Image<'a>, LineError> {
    match View::read(bytes) {
        Ok(view) => Ok(Image::new(&view, &slots_of(inputs)?, edition_of(inputs)?)),
        Err(_) => Err(LineError::Unreadable),
    }
}
