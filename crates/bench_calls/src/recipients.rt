// Recipients of a message.

use crate::states::{Rules, state_of};
use arrayvec::ArrayVec;
use fan_out::{Marks, select_counted, select_into};
use message_view::View;
use program_table::BusState;
use std::alloc::Global;
use summary::{Edition, Image, Slots};

/// The state of a bus whose connections have `of_each` of these rules each, one a line; without lines one connection.
fn state(alloc: Global, lines: &[u8], of_each: u32) -> Option<BusState<()>> {
    let lines = str::from_utf8(lines).ok()?;
    state_of(alloc, Rules { lines, of_each })
}

/// Reads a message and finds its recipients as often as `turns` says, in one list that is emptied each time, by the
/// same marks: the sum of their counts.
#[unsafe(no_mangle)]
pub extern "C" fn bench_recipients_select(
    alloc: Global,
    rules: &[u8],
    of_each: u32,
    message: &[u8],
    turns: u32,
) -> u64 {
    let Some(state) = state(alloc, rules, of_each) else {
        return 0;
    };
    let mut marks = Marks::new();
    let mut recipients = ArrayVec::new();
    let mut sum = 0u64;
    for _turn in 0..turns {
        if let Ok(view) = View::read(message) {
            recipients.clear();
            select_into(&state, None, &view, &mut marks, &mut recipients);
            sum = sum.wrapping_add(recipients.len() as u64);
        }
    }
    sum
}

/// How many programs run for a message, `u32::MAX` where there is no such state or message.
#[unsafe(no_mangle)]
pub extern "C" fn bench_recipients_runs(
    alloc: Global,
    rules: &[u8],
    of_each: u32,
    message: &[u8],
) -> u32 {
    let Some(state) = state(alloc, rules, of_each) else {
        return u32::MAX;
    };
    let Ok(view) = View::read(message) else {
        return u32::MAX;
    };
    select_counted(&state, None, &view).runs
}

/// Reads a message and makes its image as often as `turns` says: the sum of the images' lengths.
#[unsafe(no_mangle)]
pub extern "C" fn bench_recipients_image(message: &[u8], turns: u32) -> u64 {
    let mut sum = 0u64;
    for _turn in 0..turns {
        if let Ok(view) = View::read(message) {
            let image = Image::new(&view, &Slots::empty(), Edition::Two);
            sum = sum.wrapping_add(image.len());
        }
    }
    sum
}

/// Reads a message as often as `turns` says: the sum of the serials.
#[unsafe(no_mangle)]
pub extern "C" fn bench_recipients_read(message: &[u8], turns: u32) -> u64 {
    let mut sum = 0u64;
    for _turn in 0..turns {
        if let Ok(view) = View::read(message) {
            sum = sum.wrapping_add(u64::from(view.serial()));
        }
    }
    sum
}
