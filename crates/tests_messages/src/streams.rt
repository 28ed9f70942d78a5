// Streams: that messages come out with ample memory, as the public examples say.

use crate::s1::S1;
use frames::{FrameError, Frames};
use message_view::{Kind, MsgError, View};
use std::process::Abort;

/// The place of a byte of padding in the signal.
const PADDING_PLACE: usize = 27;

fn feed<R: Abort>(rt: &R, frames: &mut Frames, bytes: &[u8]) {
    frames.feed(bytes).expect(rt, "memory");
}

/// That the next message is the signal.
fn expect_signal<R: Abort>(rt: &R, frames: &mut Frames) {
    match frames.next() {
        Ok(Some(message)) => assert_eq!(rt; message.as_slice(), S1.as_slice()),
        _ => panic!(rt; "no message"),
    }
}

/// That no further message is there yet.
fn expect_none<R: Abort>(rt: &R, frames: &mut Frames) {
    match frames.next() {
        Ok(None) => {}
        _ => panic!(rt; "a message or a fault"),
    }
}

#[test]
fn byte_by_byte(rt: HostRuntime) {
    let mut frames = Frames::new(rt.alloc());
    for byte in S1 {
        expect_none(&rt, &mut frames);
        feed(&rt, &mut frames, &[*byte]);
    }
    expect_signal(&rt, &mut frames);
    assert!(rt; frames.is_empty());
    for byte in S1.iter().take(40) {
        feed(&rt, &mut frames, &[*byte]);
        expect_none(&rt, &mut frames);
    }
}

/// That each call answers the fault of the padding.
fn expect_fault<R: Abort>(rt: &R, frames: &mut Frames) {
    let fault = FrameError::Message(MsgError::Padding);
    match frames.next() {
        Ok(_) => panic!(rt; "no fault"),
        Err(error) => assert_eq!(rt; error, fault),
    }
    assert_eq!(rt; frames.front().err(), Some(MsgError::Padding));
    expect_feed_fault(rt, frames, S1, fault);
}

fn expect_feed_fault<R: Abort>(rt: &R, frames: &mut Frames, bytes: &[u8], fault: FrameError) {
    assert_eq!(rt; frames.feed(bytes).err(), Some(fault));
}

/// S1 with a byte of padding that isn't zero.
fn damaged_s1() -> [u8; 64] {
    let mut damaged = *S1;
    damaged[PADDING_PLACE] = 1;
    damaged
}

// A message whose padding isn't zero, after a whole one.
#[test]
fn fault_for_ever(rt: HostRuntime) {
    let damaged = damaged_s1();
    let mut frames = Frames::new(rt.alloc());
    feed(&rt, &mut frames, S1);
    feed(&rt, &mut frames, &damaged);
    expect_signal(&rt, &mut frames);
    for _ in 0..3 {
        expect_fault(&rt, &mut frames);
    }
}

#[test]
fn many_messages_in_one_read(rt: HostRuntime) {
    let mut read = Vec::new(rt.alloc());
    for _ in 0..100 {
        read.extend_from_slice(S1).expect(&rt, "memory");
    }
    let mut frames = Frames::new(rt.alloc());
    feed(&rt, &mut frames, read.as_slice());
    for _ in 0..100 {
        expect_signal(&rt, &mut frames);
    }
    expect_none(&rt, &mut frames);
}

/// The message at the front, which has to be there.
fn front<'a, R: Abort>(rt: &R, frames: &'a Frames) -> View<'a> {
    match frames.front() {
        Ok(Some(front)) => front,
        _ => panic!(rt; "no message"),
    }
}

#[test]
fn front_stays_until_it_is_skipped(rt: HostRuntime) {
    let mut frames = Frames::new(rt.alloc());
    feed(&rt, &mut frames, S1);
    feed(&rt, &mut frames, S1);
    for _ in 0..2 {
        let message = front(&rt, &frames);
        assert_eq!(rt; message.kind(), Kind::Signal);
        assert_eq!(rt; message.member(), Some("c"));
    }
    let len = match frames.front() {
        Ok(Some(message)) => message.raw().len(),
        _ => panic!(rt; "no message"),
    };
    frames.skip(len);
    expect_signal(&rt, &mut frames);
    expect_none(&rt, &mut frames);
}

/// That the next message isn't there by its length.
fn expect_no_frame<R: Abort>(rt: &R, frames: &Frames) {
    match frames.frame() {
        Ok(None) => {}
        _ => panic!(rt; "a frame or a fault"),
    }
}

/// That the next message has these bytes, by its length.
fn expect_frame<R: Abort>(rt: &R, frames: &Frames, bytes: &[u8]) {
    match frames.frame() {
        Ok(Some(frame)) => assert_eq!(rt; frame, bytes),
        _ => panic!(rt; "no frame"),
    }
}

// A frame is there by its length alone. What it spells is looked at where it is read.
#[test]
fn frame_of_a_damaged_message(rt: HostRuntime) {
    let damaged = damaged_s1();
    let mut frames = Frames::new(rt.alloc());
    for byte in &damaged {
        expect_no_frame(&rt, &frames);
        feed(&rt, &mut frames, &[*byte]);
    }
    feed(&rt, &mut frames, S1);
    expect_frame(&rt, &frames, &damaged);
}
