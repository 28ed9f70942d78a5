// Programs over images.

use bpf_code::decode;
use bpf_machine::run;
use bpf_verify::{Verified, verify};
use message_view::View;
use std::alloc::Global;
use summary::{Edition, Image, Slots, summarise};

/// The edition of a number; any number but 2 is the first.
fn edition_of(number: u32) -> Edition {
    if number == 2 {
        Edition::Two
    } else {
        Edition::One
    }
}

/// The program of some bytes, if it is accepted.
fn program_of(alloc: Global, bytes: &[u8]) -> Option<Verified> {
    let program = decode(alloc, bytes).ok()?;
    verify(program).ok()
}

/// The sum of the verdicts of `turns` runs.
fn run_often(program: &Verified, image: &Image<'_>, turns: u32) -> u64 {
    let mut sum = 0u64;
    for _turn in 0..turns {
        sum = sum.wrapping_add(u64::from(run(program, image).verdict));
    }
    sum
}

/// Accepts a program, makes the image of a message, and runs the one over the other as often as `turns` says: the sum
/// of the verdicts, 0 where there is no such program or message.
#[unsafe(no_mangle)]
pub extern "C" fn bench_programs_run(
    alloc: Global,
    program: &[u8],
    message: &[u8],
    edition: u32,
    turns: u32,
) -> u64 {
    let Some(program) = program_of(alloc, program) else {
        return 0;
    };
    let Ok(view) = View::read(message) else {
        return 0;
    };
    let image = Image::new(&view, &Slots::empty(), edition_of(edition));
    run_often(&program, &image, turns)
}

/// How many steps a program takes over the image of a message, 0 where there is no such program or message.
#[unsafe(no_mangle)]
pub extern "C" fn bench_programs_steps(
    alloc: Global,
    program: &[u8],
    message: &[u8],
    edition: u32,
) -> u32 {
    let Some(program) = program_of(alloc, program) else {
        return 0;
    };
    let Ok(view) = View::read(message) else {
        return 0;
    };
    let image = Image::new(&view, &Slots::empty(), edition_of(edition));
    run(&program, &image).steps
}

/// Makes the image of a message as often as `turns` says: the sum of the images' lengths.
#[unsafe(no_mangle)]
pub extern "C" fn bench_programs_image(message: &[u8], edition: u32, turns: u32) -> u64 {
    let Ok(view) = View::read(message) else {
        return 0;
    };
    let mut sum = 0u64;
    for _turn in 0..turns {
        let image = Image::new(&view, &Slots::empty(), edition_of(edition));
        sum = sum.wrapping_add(image.len());
    }
    sum
}

/// Writes the summary of a message, if there is room, and answers its length.
#[unsafe(no_mangle)]
pub extern "C" fn bench_programs_summary(message: &[u8], edition: u32, room: &mut [u8]) -> usize {
    let Ok(view) = View::read(message) else {
        return 0;
    };
    let summary = summarise(&view, &Slots::empty(), edition_of(edition));
    let bytes = summary.bytes();
    if room.len() < bytes.len() {
        return 0;
    }
    room[..bytes.len()].copy_from_slice(bytes);
    bytes.len()
}
