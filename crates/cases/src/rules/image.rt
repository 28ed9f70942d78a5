// The image that a case's program is run over.

use super::refusal::Refusal;
use bpf_machine::{Outcome, run};
use bpf_verify::Verified;
use case_files::LineError;
use message_view::View;
use std::alloc::Global;
use summary::{Edition, Image, Slots};

/// The program's verdict and steps over a message's image. `run EDITION SLOT ..` says of which edition it is, and which
/// slots the message's sender owns.
pub fn outcome(
    alloc: Global,
    asked: &str,
    program: &Verified,
    message: &[u8],
) -> Result<String, Refusal> {
    let (edition, slots) = asked.split_once(' ').unwrap_or((asked, ""));
    let view = View::read(message).map_err(|_| LineError::Unreadable)?;
    let image = Image::new(&view, &owned_slots(slots)?, edition_of(edition)?);
    let Outcome { verdict, steps } = run(program, &image);
    Ok(format!(in alloc; "verdict {verdict} steps {steps}")?)
}

fn edition_of(number: &str) -> Result<Edition, LineError> {
    match number {
        "1" => Ok(Edition::One),
        "2" => Ok(Edition::Two),
        _ => Err(LineError::Unreadable),
    }
}

fn owned_slots(numbers: &str) -> Result<Slots, LineError> {
    let mut owned = Slots::empty();
    for number in numbers.split_whitespace() {
        match number.parse::<u16>() {
            Ok(slot) if slot < 1024 => owned.insert(slot),
            _ => return Err(LineError::Unreadable),
        }
    }
    Ok(owned)
}
