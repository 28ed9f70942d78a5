// Each call of an image, its pieces and a summary.

use crate::s1::s1_view;
use message_view::View;
use std::alloc::Global;
use std::process::Abort;
use summary::{Edition, Image, Slots, summarise};

/// The number of bytes of a summary in each edition.
const SUMMARY_LEN: [usize; 2] = [904, 976];

/// The words of its summary in edition 1 that aren't 0, each with its place.
const WORDS: [(usize, u32); 9] = [
    (0, 108),
    (4, 4),
    (12, 968),
    (24, 928),
    (28, 2),
    (32, 944),
    (36, 3),
    (40, 960),
    (44, 1),
];

/// The same in edition 2, with the serial, where the sender owns the names of the slots 0 and 1,023.
const WORDS_IN_TWO: [(usize, u32); 12] = [
    (0, 108),
    (4, 4),
    (12, 1040),
    (24, 1000),
    (28, 2),
    (32, 1016),
    (36, 3),
    (40, 1032),
    (44, 1),
    (840, 1),
    (964, 0x8000_0000),
    (968, 1),
];

/// The bytes of words at their places, the highest byte of each first.
fn bytes_of<R: Abort>(rt: &R, alloc: Global, len: usize, words: &[(usize, u32)]) -> Vec<u8> {
    let mut bytes = Vec::new(alloc);
    for (place, word) in words {
        bytes.resize(*place, 0).expect(rt, "memory");
        bytes
            .extend_from_slice(&word.to_be_bytes())
            .expect(rt, "memory");
    }
    bytes.resize(len, 0).expect(rt, "memory");
    bytes
}

#[test]
fn s1_summaries(rt: HostRuntime) {
    let view = s1_view(&rt);
    let bytes = bytes_of(&rt, rt.alloc(), SUMMARY_LEN[0], &WORDS);
    expect_summary(&rt, &view, &Slots::empty(), Edition::One, bytes.as_slice());
    let owned = first_and_last();
    assert!(rt; owned.contains(1023));
    assert!(rt; !owned.contains(1022));
    let bytes = bytes_of(&rt, rt.alloc(), SUMMARY_LEN[1], &WORDS_IN_TWO);
    expect_summary(&rt, &view, &owned, Edition::Two, bytes.as_slice());
}

/// The slots 0 and 1,023.
fn first_and_last() -> Slots {
    let mut slots = Slots::empty();
    slots.insert(0);
    slots.insert(1023);
    slots
}

/// The summary has these bytes.
fn expect_summary<R: Abort>(
    rt: &R,
    view: &View<'_>,
    owned: &Slots,
    edition: Edition,
    bytes: &[u8],
) {
    let summary = summarise(view, owned, edition);
    assert_eq!(rt; summary.bytes(), bytes);
}

#[test]
fn s1_image(rt: HostRuntime) {
    let view = s1_view(&rt);
    let image = Image::new(&view, &Slots::empty(), Edition::One);
    expect_loads(&rt, &image);
    expect_loads_of_pieces(&rt, &image);
}

fn expect_loads<R: Abort>(rt: &R, image: &Image<'_>) {
    assert_eq!(rt; image.len(), 968);
    assert_eq!(rt; image.byte(904), Some(108));
    assert_eq!(rt; image.half(904), Some(27652));
    assert_eq!(rt; image.word(902), Some(27652));
}

fn expect_loads_of_pieces<R: Abort>(rt: &R, image: &Image<'_>) {
    let pieces = image.pieces();
    assert_eq!(rt; pieces.len(), 968);
    assert_eq!(rt; pieces.byte(904), Some(108));
    assert_eq!(rt; pieces.half(904), Some(27652));
    assert_eq!(rt; pieces.word(960), Some(1_660_944_384));
    assert_eq!(rt; pieces.word(965), None);
    assert_eq!(rt; pieces.summary_word(36), Some(3));
}
