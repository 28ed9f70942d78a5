//! What the tests of the bus begin with, and what they ask of each answer. A failure ends the test at once, so that a
//! test has one way out. Each bus has letterboxes, also where no test looks into them: the whole bus would be proved
//! again for a second type of mailbox.

ghost use Rattle.std.specs.Prelude.{◌≡◌};

use crate::outboxes::new_bytes;
use bytes::Bytes;
use entry_table::IndexKey;
use message_view::View;
use outbox::Turn;
use owners::{Change, NameReply, Named, WellKnown};
use program_table::Reply;
use published::{BusBrand, Opened};
use router::{Bus, BusError, Pass, PlainMailbox, RouteLists, Source};
use std::alloc::Global;
use std::process::Abort;
use std::sync::Wait;

pub(crate) const KEY: IndexKey = IndexKey {
    first: 1,
    second: 2,
};

/// A signal of the path `/a`, the interface `a.b` and the member `c`.
pub(crate) const S1: [u8; 64] = [
    0x6c, 4, 0, 1, 0, 0, 0, 0, 1, 0, 0, 0, 0x2a, 0, 0, 0, 1, 1, b'o', 0, 2, 0, 0, 0, b'/', b'a', 0,
    0, 0, 0, 0, 0, 2, 1, b's', 0, 3, 0, 0, 0, b'a', b'.', b'b', 0, 0, 0, 0, 0, 3, 1, b's', 0, 1, 0,
    0, 0, b'c', 0, 0, 0, 0, 0, 0, 0,
];

/// The same with the member `m7`.
pub(crate) const M7: [u8; 64] = [
    0x6c, 4, 0, 1, 0, 0, 0, 0, 1, 0, 0, 0, 0x2b, 0, 0, 0, 1, 1, b'o', 0, 2, 0, 0, 0, b'/', b'a', 0,
    0, 0, 0, 0, 0, 2, 1, b's', 0, 3, 0, 0, 0, b'a', b'.', b'b', 0, 0, 0, 0, 0, 3, 1, b's', 0, 2, 0,
    0, 0, b'm', b'7', 0, 0, 0, 0, 0, 0,
];

/// A rule that holds of S1.
pub(crate) const MEMBER_C: &str = "member='c'";

/// The bytes of S1. Nothing is promised of them.
pub(crate) fn s1_bytes() -> Bytes {
    new_bytes(&S1)
}

/// The message that these bytes are.
pub(crate) fn read_message<'a, R: Abort>(rt: &R, bytes: &'a [u8]) -> View<'a>
    ensures { result ≡ bytes.entry.now }
{
    View::read(bytes).expect(rt, "a message")
}

// A name. Nothing is promised of it.
fn read_name<R: Abort>(rt: &R, text: &str) -> WellKnown {
    WellKnown::read(text).expect(rt, "a name")
}

/// A bus to which nobody is connected.
pub(crate) fn new_bus<B: BusBrand, R: Wait + Abort>(
    rt: &R,
    alloc: Global,
    opened: Opened<PlainMailbox>,
) -> Bus<B, PlainMailbox, &R>
    requires { opened ≡ B.book }
{
    Bus::new(rt, alloc, KEY, opened).expect(rt, "a bus")
}

/// A pass with the next connection, whose messages go to the letterbox, whose outbox's turn it is.
pub(crate) fn connect_pass<B: BusBrand, R: Wait + Abort>(
    rt: &R,
    bus: &Bus<B, PlainMailbox, &R>,
    letterbox: PlainMailbox,
    turn: Turn,
) -> Pass<B, PlainMailbox>
    requires { (turn.queue ≡ letterbox.outbox.queue) × (turn.last ≡ 0) }
{
    let mut pass = bus.pass(rt).expect(rt, "a pass");
    let _ = bus
        .connect(rt, &mut pass, letterbox, turn)
        .expect(rt, "a connection");
    pass
}

/// The name that the tests ask for.
pub(crate) fn name_a<R: Abort>(rt: &R) -> WellKnown {
    read_name(rt, "com.example.A")
}

/// What a request is answered by which a connection becomes the primary owner.
fn owner_reply(name: &WellKnown, old: Option<u64>, new: u64) -> Reply {
    Reply::Name(Named {
        answer: NameReply::PrimaryOwner,
        change: Some(Change {
            name: name.copy(),
            old,
            new: Some(new),
        }),
    })
}

/// The call is accepted with this reply.
pub(crate) fn expect_reply<R: Abort>(rt: &R, answer: Result<Reply, BusError>, wanted: Reply) {
    assert_eq!(rt; answer, Ok(wanted));
}

/// The call is refused with this error.
pub(crate) fn expect_error<R: Abort>(rt: &R, answer: Result<Reply, BusError>, wanted: BusError) {
    assert_eq!(rt; answer, Err(wanted));
}

/// Adds a rule, which is the entry of this id then.
pub(crate) fn add_rule<B: BusBrand, R: Wait + Abort>(
    rt: &R,
    alloc: Global,
    bus: &Bus<B, PlainMailbox, &R>,
    pass: &mut Pass<B, PlainMailbox>,
    rule: &str,
    id: u32,
) {
    let added = bus.add_match(rt, alloc, pass, rule);
    expect_reply(rt, added, Reply::Entry(id));
}

/// Asks for a name, whose primary owner the connection `new` then is, after `old`.
pub(crate) fn own<B: BusBrand, R: Wait + Abort>(
    rt: &R,
    bus: &Bus<B, PlainMailbox, &R>,
    pass: &mut Pass<B, PlainMailbox>,
    name: &WellKnown,
    flags: u32,
    old: Option<u64>,
    new: u64,
) {
    let asked = bus.request_name(rt, pass, name, flags);
    expect_reply(rt, asked, owner_reply(name, old, new));
}

/// Closes the connection.
pub(crate) fn close<B: BusBrand, R: Wait + Abort>(
    rt: &R,
    bus: &Bus<B, PlainMailbox, &R>,
    pass: &mut Pass<B, PlainMailbox>,
) {
    expect_reply(rt, bus.close(rt, pass), Reply::Done);
}

/// The recipients of S1 as a broadcast of the pass.
pub(crate) fn expect_recipients<B: BusBrand, R: Abort>(
    rt: &R,
    pass: &mut Pass<B, PlainMailbox>,
    wanted: &[u64],
) {
    let bytes = s1_bytes();
    expect_recipients_of(rt, pass, Source::Own, bytes.as_slice(), wanted);
}

/// The recipients of a broadcast of this source, whose bytes these are, given back and listed in lists that are lent.
pub(crate) fn expect_recipients_of<B: BusBrand, R: Abort>(
    rt: &R,
    pass: &mut Pass<B, PlainMailbox>,
    source: Source,
    bytes: &[u8],
    wanted: &[u64],
) {
    let view = read_message(rt, bytes);
    let found = pass.recipients(source, &view).expect(rt, "the recipients");
    assert_eq!(rt; found.as_slice(), wanted);
    let mut lists = RouteLists::new();
    let listed = pass.recipients_into(source, &view, &mut lists);
    assert_eq!(rt; listed, Ok(()));
    assert_eq!(rt; lists.recipients.as_slice(), wanted);
}
