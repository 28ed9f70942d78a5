// Senders: what no contract says, that a put is made and with which bytes, and calls from several threads.

use crate::outboxes::{expect_both_in_order, new_bytes, new_outbox, take_all};
use arrayvec::ArrayVec;
use outbox::{Delivery, Outbox, Taker};
use program_table::Handle;
use routing::{Gate, Mailbox, OpenGate, Recipient, Sender, Sent, Turns};
use std::alloc::{AllocError, Global};
use std::cell::Cell;
use std::marker::Model;
use std::mem::forget;
use std::process::Abort;
use std::rc::Rc;
use std::sync::Wait;
use std::thread::{Threads, join};

const BROADCASTS: u64 = 100;

/// A mailbox that nothing writes out.
#[derive(Drop)]
pub(crate) struct Line {
    outbox: Outbox,
    pushed: Rc<Cell<u32>>,
}

// Contracts see its outbox.
impl Model for Line {
    ghost use Rattle.outbox.specs.Seated.{OutboxId};

    ghost Value = { OutboxId };

    ghost view = { λ l. l.outbox };
}

impl Handle for Line {
    fn share(&self) -> Result<Line, AllocError> {
        Ok(Line {
            outbox: self.outbox.share()?,
            pushed: self.pushed.clone()?,
        })
    }
}

impl Mailbox for Line {
    ghost outbox_of = { λ line. line };

    fn outbox(&self) -> &Outbox {
        &self.outbox
    }

    fn push_out<R: Wait>(&self, _rt: &R) {
        self.pushed.set(self.pushed.get().wrapping_add(1));
    }
}

fn new_count<R: Abort>(rt: &R, alloc: Global) -> Rc<Cell<u32>> {
    Rc::new(alloc, Cell::new(0)).expect(rt, "a count")
}

// A mailbox of the outbox.
fn line_to<R: Abort>(rt: &R, alloc: Global, outbox: &Outbox) -> Line {
    Line {
        outbox: outbox.share().expect(rt, "a share"),
        pushed: new_count(rt, alloc),
    }
}

// Takes a seat at the recipient's outbox.
fn take_seat<R: Abort>(rt: &R, sender: &mut Sender<Line>, recipient: u64, line: Line) {
    sender
        .take_seat(Recipient::new(recipient, line))
        .expect(rt, "memory");
}

/// A sender with a seat at the outbox, which is the recipient 3's.
pub(crate) fn sender_to<R: Abort>(rt: &R, alloc: Global, outbox: &Outbox) -> Sender<Line> {
    let mut sender = Sender::new(alloc, 1);
    take_seat(rt, &mut sender, 3, line_to(rt, alloc, outbox));
    sender
}

// Routes a broadcast to the recipient 3, and says whether it was put.
fn send_one<R: Wait>(rt: &R, alloc: Global, sender: &mut Sender<Line>) -> bool {
    let bytes = new_bytes(b"signal");
    if !sender.has(3) {
        return false;
    }
    let mut turns = Turns::new(alloc);
    let mut refused = ArrayVec::new();
    match sender.broadcast(
        rt,
        alloc,
        &[3],
        &bytes,
        None,
        &mut turns,
        &OpenGate,
        &mut refused,
    ) {
        Ok(()) => refused.len() == 0,
        Err(_) => false,
    }
}

// Routes broadcasts to the recipient 3, and answers how many were put.
fn send<R: Wait>(rt: &R, alloc: Global, sender: &mut Sender<Line>, broadcasts: u64) -> u64 {
    let mut put = 0u64;
    for _ in 0..broadcasts {
        if send_one(rt, alloc, sender) {
            put = put.wrapping_add(1);
        }
    }
    put
}

// Sends `BROADCASTS` broadcasts of an origin to a recipient.
fn send_all<R: Wait + Abort>(rt: &R, alloc: Global, origin: u64, outbox: &Outbox) -> u64 {
    let mut sender = Sender::new(alloc, origin);
    take_seat(rt, &mut sender, 3, line_to(rt, alloc, outbox));
    let put = send(rt, alloc, &mut sender, BROADCASTS);
    forget(sender);
    put
}

// Two senders, each in a thread of its own, put their broadcasts.
fn send_at_once<R: Threads + Wait + Sync + Abort>(rt: &R, alloc: Global, outbox: &Outbox) {
    let (first, second) = join(
        rt,
        || send_all(rt, alloc, 1, outbox),
        || send_all(rt, alloc, 2, outbox),
    );
    assert_eq!(rt; first, BROADCASTS);
    assert_eq!(rt; second, BROADCASTS);
}

#[test]
fn order_of_two_origins(rt: HostRuntime) {
    let alloc = rt.alloc();
    let outbox = new_outbox(&rt, alloc);
    send_at_once(&rt, alloc, &outbox);
    expect_both_in_order(&rt, alloc, &outbox, BROADCASTS);
    forget(outbox);
}

// Routes one more broadcast to two recipients, of which the first refuses it.
fn refuse_one<R: Wait + Abort>(rt: &R, alloc: Global, sender: &mut Sender<Line>) {
    let bytes = new_bytes(b"one more");
    assert!(rt; sender.has(3));
    assert!(rt; sender.has(5));
    let mut turns = Turns::new(alloc);
    let mut refused = ArrayVec::new();
    sender
        .broadcast(
            rt,
            alloc,
            &[3, 5],
            &bytes,
            None,
            &mut turns,
            &OpenGate,
            &mut refused,
        )
        .expect(rt, "a count");
    assert_eq!(rt; refused.as_slice(), [3].as_slice());
}

// Just this message stands in the outbox. It is taken.
fn expect_message<R: Wait + Abort>(
    rt: &R,
    alloc: Global,
    outbox: &Outbox,
    bytes: &[u8],
    mark: Option<(u64, u64)>,
) {
    let items = take_all(rt, alloc, outbox);
    assert_eq!(rt; items.len(), 1);
    expect_item(rt, &items[0], bytes, mark);
    forget(items);
}

fn expect_item<R: Abort>(rt: &R, item: &Delivery, bytes: &[u8], mark: Option<(u64, u64)>) {
    assert_eq!(rt; item.bytes().as_slice(), bytes);
    assert_eq!(rt; item.mark(), mark);
}

/// Routes broadcasts to the recipient 3, of which so many are put.
pub(crate) fn expect_sent<R: Wait + Abort>(
    rt: &R,
    alloc: Global,
    sender: &mut Sender<Line>,
    broadcasts: u64,
    put: u64,
) {
    assert_eq!(rt; send(rt, alloc, sender, broadcasts), put);
}

#[test]
fn full_outbox(rt: HostRuntime) {
    let alloc = rt.alloc();
    let full = new_outbox(&rt, alloc);
    let other = new_outbox(&rt, alloc);
    let mut sender = sender_to(&rt, alloc, &full);
    take_seat(&rt, &mut sender, 5, line_to(&rt, alloc, &other));
    expect_sent(&rt, alloc, &mut sender, 1024, 1024);
    refuse_one(&rt, alloc, &mut sender);
    expect_message(&rt, alloc, &other, b"one more", Some((1, 1025)));
    // Once it is shut the outbox stays so, also when there is room again.
    assert_eq!(rt; take_all(&rt, alloc, &full).len(), 1024);
    expect_sent(&rt, alloc, &mut sender, 1, 0);
    forget(sender);
    forget(full);
    forget(other);
}

/// Sends the recipient 3 a message that is no broadcast.
pub(crate) fn reply<R: Wait + Abort>(
    rt: &R,
    alloc: Global,
    sender: &mut Sender<Line>,
    wanted: Sent,
) {
    let bytes = new_bytes(b"reply");
    assert!(rt; sender.has(3));
    let mut turns = Turns::new(alloc);
    let sent = sender
        .unicast(rt, alloc, 3, &bytes, None, &mut turns)
        .expect(rt, "memory");
    assert_eq!(rt; sent, wanted);
}

#[test]
fn unicast(rt: HostRuntime) {
    let alloc = rt.alloc();
    let outbox = new_outbox(&rt, alloc);
    let mut sender = sender_to(&rt, alloc, &outbox);
    reply(&rt, alloc, &mut sender, Sent::Put);
    expect_message(&rt, alloc, &outbox, b"reply", None);
    expect_sent(&rt, alloc, &mut sender, 1024, 1024);
    reply(&rt, alloc, &mut sender, Sent::Full);
    forget(sender);
    forget(outbox);
}

// Has the outboxes written out, after which the count of writes is this.
fn push_out<R: Wait + Abort>(rt: &R, sender: &mut Sender<Line>, pushed: &Cell<u32>, count: u32) {
    sender.push_out(rt);
    assert_eq!(rt; pushed.get(), count);
}

// Only where something was put is the outbox written out, and once.
#[test]
fn written_out_once(rt: HostRuntime) {
    let alloc = rt.alloc();
    let pushed = new_count(&rt, alloc);
    let line = Line {
        outbox: new_outbox(&rt, alloc),
        pushed: pushed.clone().expect(&rt, "a count"),
    };
    let mut sender = Sender::new(alloc, 1);
    take_seat(&rt, &mut sender, 3, line);
    push_out(&rt, &mut sender, &pushed, 0);
    expect_sent(&rt, alloc, &mut sender, 2, 2);
    push_out(&rt, &mut sender, &pushed, 1);
    push_out(&rt, &mut sender, &pushed, 1);
    forget(sender);
    forget(pushed);
}

// What the gate's calls were: a digit 1 for before, 2 for after, where the piece was 0.
#[derive(Drop)]
struct Calls {
    seen: Cell<u32>,
}

impl Gate for Calls {
    fn before(&self, piece: u32) {
        self.seen.set(
            self.seen
                .get()
                .wrapping_mul(10)
                .wrapping_add(1)
                .wrapping_add(piece),
        );
    }

    fn after(&self, piece: u32) {
        self.seen.set(
            self.seen
                .get()
                .wrapping_mul(10)
                .wrapping_add(2)
                .wrapping_add(piece),
        );
    }
}

fn route_at_gate<R: Wait + Abort>(rt: &R, alloc: Global, sender: &mut Sender<Line>, calls: &Calls) {
    let bytes = new_bytes(b"signal");
    assert!(rt; sender.has(3));
    let mut turns = Turns::new(alloc);
    let mut refused = ArrayVec::new();
    sender
        .broadcast(
            rt,
            alloc,
            &[3],
            &bytes,
            None,
            &mut turns,
            calls,
            &mut refused,
        )
        .expect(rt, "a count");
    assert!(rt; refused.is_empty());
}

#[test]
fn gate_is_called_round_the_puts(rt: HostRuntime) {
    let alloc = rt.alloc();
    let outbox = new_outbox(&rt, alloc);
    let calls = Calls { seen: Cell::new(0) };
    let mut sender = sender_to(&rt, alloc, &outbox);
    route_at_gate(&rt, alloc, &mut sender, &calls);
    assert_eq!(rt; calls.seen.get(), 12);
    assert_eq!(rt; take_all(&rt, alloc, &outbox).len(), 1);
    forget(sender);
    forget(outbox);
}

// A gate that looks, after the last put, whether the outbox gives anything out. What its taker holds then is gone with it.
#[derive(Drop)]
struct Looks<'a, R: Wait> {
    rt: &'a R,
    outbox: &'a Outbox,
    has_given: Cell<bool>,
}

impl<'a, R: Wait> Gate for Looks<'a, R> {
    fn before(&self, _piece: u32) {}

    fn after(&self, _piece: u32) {
        if let Ok(mut taker) = Taker::new(self.outbox) {
            self.has_given.set(taker.take(self.rt).is_some());
        }
    }
}

fn route_and_look<R: Wait + Abort>(
    rt: &R,
    alloc: Global,
    sender: &mut Sender<Line>,
    outbox: &Outbox,
) {
    let looks = Looks {
        rt,
        outbox,
        has_given: Cell::new(true),
    };
    let bytes = new_bytes(b"signal");
    assert!(rt; sender.has(3));
    assert!(rt; sender.has(5));
    let mut turns = Turns::new(alloc);
    let mut refused = ArrayVec::new();
    sender
        .broadcast(
            rt,
            alloc,
            &[3, 5],
            &bytes,
            None,
            &mut turns,
            &looks,
            &mut refused,
        )
        .expect(rt, "a count");
    assert!(rt; !looks.has_given.get());
}

// No outbox gives a broadcast out before it is put at all its recipients, and then each does.
#[test]
fn held_until_the_last_put(rt: HostRuntime) {
    let alloc = rt.alloc();
    let first = new_outbox(&rt, alloc);
    let last = new_outbox(&rt, alloc);
    let mut sender = sender_to(&rt, alloc, &first);
    take_seat(&rt, &mut sender, 5, line_to(&rt, alloc, &last));
    route_and_look(&rt, alloc, &mut sender, &first);
    expect_message(&rt, alloc, &last, b"signal", Some((1, 1)));
    forget(sender);
    forget(first);
    forget(last);
}
