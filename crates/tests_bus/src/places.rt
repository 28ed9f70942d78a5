// Messages that bear a place in the history: what announces the n-th command stands at 2n, and what answers in the state after n
// commands at 2n + 1.

ghost use Rattle.std.specs.Prelude.{◌≡◌, ◌≤◌, None};

use crate::fixture::{name_a, new_bus, own, read_message, s1_bytes};
use crate::letters::{attach_to_all, connect_with, new_letterbox};
use crate::outboxes::{expect_none, new_bytes, new_taker};
use outbox::{Item, Outbox, Room, Seat, Taker, Turn};
use published::{BusBrand, Opened};
use router::{Bus, BusError, Pass, PlainMailbox, RouteLists, Sent, Source, Standing};
use routing::Mailbox;
use std::alloc::Global;
use std::marker::Brand;
use std::mem::forget;
use std::process::Abort;
use std::sync::Wait;

// A message at this place, if at any.
fn message<R: Abort>(rt: &R, alloc: Global, place: Option<u64>) -> Item
    ensures { (result.mark ≡ None) × (result.place ≡ place) }
{
    Item::new(alloc, new_bytes(b"signal"), place).expect(rt, "memory")
}

// Puts a message at this place, which is no less than the last.
fn put_placed<R: Wait + Abort>(
    rt: &R,
    alloc: Global,
    outbox: &Outbox,
    seat: &mut Seat,
    turn: &mut Turn,
    place: u64,
)
    requires seat { seat.old.outbox ≡ outbox.now }
    requires turn { turn.old.queue ≡ outbox.now.queue }
    requires later { turn.old.last ≤ place }
    ensures seat { seat.new.outbox ≡ seat.old.outbox }
    ensures turn { (turn.new.queue ≡ turn.old.queue) × (turn.new.last ≡ place) }
{
    let item = message(rt, alloc, Some(place));
    assert!(rt; outbox.put_placed(rt, seat, turn, item).is_ok());
}

// Two seats put at rising places by the same turn, and one of them at none in between.
fn put_by_two<R: Wait + Abort>(rt: &R, alloc: Global, outbox: &Outbox, turn: &mut Turn)
    requires { (turn.old.queue ≡ outbox.now.queue) × (turn.old.last ≡ 0) }
{
    let mut first = outbox.seat();
    let mut second = outbox.seat();
    put_placed(rt, alloc, outbox, &mut first, turn, 2);
    assert!(rt;
        outbox
            .put(rt, &mut second, message(rt, alloc, None))
            .is_ok()
    );
    put_placed(rt, alloc, outbox, &mut second, turn, 3);
    put_placed(rt, alloc, outbox, &mut first, turn, 4);
}

// The taker is given a message at this place.
fn expect_place<R: Wait + Abort>(rt: &R, taker: &mut Taker, place: Option<u64>) {
    let delivery = taker.take(rt).expect(rt, "a message");
    assert_eq!(rt; delivery.place(), place);
}

// Just the messages at these places stand in the outbox. They are taken.
fn expect_places<R: Wait + Abort>(rt: &R, outbox: &Outbox, places: &[Option<u64>]) {
    let mut taker = new_taker(rt, outbox);
    for place in places {
        expect_place(rt, &mut taker, *place);
    }
    expect_none(rt, &mut taker);
}

#[test]
fn two_seats_put_at_rising_places(rt: HostRuntime) {
    let alloc = rt.alloc();
    let (outbox, mut turn) = Outbox::with_turn(alloc, Room::standard()).expect(&rt, "an outbox");
    put_by_two(&rt, alloc, &outbox, &mut turn);
    expect_places(&rt, &outbox, &[Some(2), None, Some(3), Some(4)]);
    forget(turn);
    forget(outbox);
}

// Tells connection 1 something of names, which is put or refused.
fn tell<B: BusBrand, R: Wait + Abort>(
    rt: &R,
    alloc: Global,
    bus: &Bus<B, PlainMailbox, &R>,
    pass: &mut Pass<B, PlainMailbox>,
    standing: Standing,
    wanted: Result<Sent, BusError>,
) {
    let bytes = s1_bytes();
    let sent = bus
        .control(rt)
        .send_to(rt, alloc, pass, standing, Source::Bus, ":1.1", &bytes);
    assert_eq!(rt; sent, wanted);
}

// After what announces the next command nothing is put that stands before it, until that command is there.
#[test]
fn nothing_earlier_after_the_next(rt: HostRuntime) {
    tell_ahead::<Brand, _>(&rt, rt.alloc(), Opened::<PlainMailbox>::new());
}

fn tell_ahead<B: BusBrand, R: Wait + Abort>(rt: &R, alloc: Global, opened: Opened<PlainMailbox>)
    requires { opened ≡ B.book }
{
    let bus = new_bus::<B, R>(rt, alloc, opened);
    let (mailbox, turn) = new_letterbox(rt, alloc);
    let mut pass = connect_with(rt, &bus, &mailbox, turn);
    tell(rt, alloc, &bus, &mut pass, Standing::Last, Ok(Sent::Put(1)));
    tell(
        rt,
        alloc,
        &bus,
        &mut pass,
        Standing::State,
        Ok(Sent::Put(1)),
    );
    tell(rt, alloc, &bus, &mut pass, Standing::Next, Ok(Sent::Put(1)));
    expect_refused(rt, alloc, &bus, &mut pass);
    own(rt, &bus, &mut pass, &name_a(rt), 0, None, 1);
    tell(rt, alloc, &bus, &mut pass, Standing::Last, Ok(Sent::Put(1)));
    expect_places(
        rt,
        mailbox.outbox(),
        &[Some(2), Some(3), Some(4), None, Some(4)],
    );
    forget(pass);
    forget(mailbox);
    forget(bus);
}

// Only what bears no place is put.
fn expect_refused<B: BusBrand, R: Wait + Abort>(
    rt: &R,
    alloc: Global,
    bus: &Bus<B, PlainMailbox, &R>,
    pass: &mut Pass<B, PlainMailbox>,
) {
    tell(rt, alloc, bus, pass, Standing::Last, Err(BusError::Closed));
    tell(rt, alloc, bus, pass, Standing::State, Err(BusError::Closed));
    tell(rt, alloc, bus, pass, Standing::Apart, Ok(Sent::Put(1)));
}

#[test]
fn broadcast_at_its_place(rt: HostRuntime) {
    broadcast_the_last::<Brand, _>(&rt, rt.alloc(), Opened::<PlainMailbox>::new());
}

fn broadcast_the_last<B: BusBrand, R: Wait + Abort>(
    rt: &R,
    alloc: Global,
    opened: Opened<PlainMailbox>,
)
    requires { opened ≡ B.book }
{
    let bus = new_bus::<B, R>(rt, alloc, opened);
    let (mailbox, turn) = new_letterbox(rt, alloc);
    let mut pass = connect_with(rt, &bus, &mailbox, turn);
    attach_to_all(rt, alloc, &bus, &mut pass);
    broadcast(rt, alloc, &bus, &mut pass, Standing::Last, &[1]);
    expect_places(rt, mailbox.outbox(), &[Some(4)]);
    forget(pass);
    forget(mailbox);
    forget(bus);
}

// Broadcasts S1 as a message of the bus to these recipients, none of which refuses it.
fn broadcast<B: BusBrand, R: Wait + Abort>(
    rt: &R,
    alloc: Global,
    bus: &Bus<B, PlainMailbox, &R>,
    pass: &mut Pass<B, PlainMailbox>,
    standing: Standing,
    recipients: &[u64],
) {
    let bytes = s1_bytes();
    let view = read_message(rt, bytes.as_slice());
    let mut lists = RouteLists::new();
    let routed = bus.control(rt).broadcast(
        rt,
        alloc,
        pass,
        standing,
        Source::Bus,
        &view,
        &bytes,
        &mut lists,
    );
    assert_eq!(rt; routed, Ok(()));
    assert_eq!(rt; lists.recipients.as_slice(), recipients);
    assert!(rt; lists.refused.is_empty());
}
