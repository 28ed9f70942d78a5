//! Passes whose messages stand in outboxes, and what is put there.

ghost use Rattle.std.specs.Prelude.{◌≡◌};

use crate::fixture::{connect_pass, read_message, s1_bytes};
use crate::outboxes::take_all;
use bpf_code::Ins;
use outbox::Turn;
use program_table::Handle;
use published::BusBrand;
use router::{AskedTexts, Bus, Pass, PlainMailbox, Sent, Source};
use routing::Mailbox;
use std::alloc::Global;
use std::mem::forget;
use std::process::Abort;
use std::sync::Wait;
use summary::Edition;

/// A letterbox, and the turn of its outbox.
pub(crate) fn new_letterbox<R: Abort>(rt: &R, alloc: Global) -> (PlainMailbox, Turn)
    ensures { (result.1.queue ≡ result.0.outbox.queue) × (result.1.last ≡ 0) }
{
    PlainMailbox::new(alloc).expect(rt, "a letterbox")
}

/// A pass with the next connection, into whose letterbox no test looks.
pub(crate) fn connect<B: BusBrand, R: Wait + Abort>(
    rt: &R,
    alloc: Global,
    bus: &Bus<B, PlainMailbox, &R>,
) -> Pass<B, PlainMailbox> {
    let (letterbox, turn) = new_letterbox(rt, alloc);
    connect_pass(rt, bus, letterbox, turn)
}

/// A pass with the next connection, whose messages go to the letterbox, whose outbox's turn it is.
pub(crate) fn connect_with<B: BusBrand, R: Wait + Abort>(
    rt: &R,
    bus: &Bus<B, PlainMailbox, &R>,
    letterbox: &PlainMailbox,
    turn: Turn,
) -> Pass<B, PlainMailbox>
    requires { (turn.queue ≡ letterbox.now.outbox.queue) × (turn.last ≡ 0) }
{
    let mailbox = letterbox.share().expect(rt, "a share");
    connect_pass(rt, bus, mailbox, turn)
}

// `ret #1`
fn return_one<R: Abort>(rt: &R, alloc: Global) -> Vec<Ins> {
    let mut program = Vec::new(alloc);
    let ins = Ins {
        code: 6,
        jt: 0,
        jf: 0,
        k: 1,
    };
    program.push(ins).expect(rt, "memory");
    program
}

/// Attaches the program `ret #1`, which matches each broadcast.
pub(crate) fn attach_to_all<B: BusBrand, R: Wait + Abort>(
    rt: &R,
    alloc: Global,
    bus: &Bus<B, PlainMailbox, &R>,
    pass: &mut Pass<B, PlainMailbox>,
) {
    let program = return_one(rt, alloc);
    let attached = bus.attach(rt, alloc, pass, Edition::Two, program, AskedTexts::none());
    assert!(rt; attached.is_ok());
}

/// Routes S1 as the pass's own broadcast, which exactly these recipients refuse.
pub(crate) fn route_s1<B: BusBrand, R: Wait + Abort>(
    rt: &R,
    alloc: Global,
    bus: &Bus<B, PlainMailbox, &R>,
    pass: &mut Pass<B, PlainMailbox>,
    refusing: &[u64],
) {
    let bytes = s1_bytes();
    let view = read_message(rt, bytes.as_slice());
    let refused = bus
        .route(rt, alloc, pass, Source::Own, &view, &bytes)
        .expect(rt, "a count");
    assert_eq!(rt; refused.as_slice(), refusing);
}

/// Sends S1 to a name.
pub(crate) fn send_s1<B: BusBrand, R: Wait + Abort>(
    rt: &R,
    alloc: Global,
    bus: &Bus<B, PlainMailbox, &R>,
    pass: &mut Pass<B, PlainMailbox>,
    to: &str,
    wanted: Sent,
) {
    let bytes = s1_bytes();
    let sent = bus
        .unicast(rt, alloc, pass, to, &bytes)
        .expect(rt, "an answer");
    assert_eq!(rt; sent, wanted);
}

/// Exactly this number of messages stands in the letterbox. They are taken.
pub(crate) fn expect_letters<R: Wait + Abort>(
    rt: &R,
    alloc: Global,
    letterbox: &PlainMailbox,
    count: usize,
) {
    let items = take_all(rt, alloc, letterbox.outbox());
    assert_eq!(rt; items.len(), count);
    forget(items);
}
