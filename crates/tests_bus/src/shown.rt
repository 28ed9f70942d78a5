// What is published is seen by each reader. A failure ends the test at once, so that a test has one way out.

ghost use Rattle.std.specs.Prelude.{◌≡◌};

use crate::fixture::{KEY, name_a};
use crate::letters::new_letterbox;
use program_table::{BusState, Command, Refusal, Reply};
use published::{BusBrand, HistoryReader, Opened, Publisher};
use router::PlainMailbox;
use std::alloc::Global;
use std::marker::Brand;
use std::mem::forget;
use std::process::Abort;
use std::sync::{Mutex, Wait};

#[test]
fn one_history(rt: HostRuntime) {
    told_and_entered::<Brand, _>(&rt, rt.alloc(), Opened::<PlainMailbox>::new());
}

fn told_and_entered<B: BusBrand, R: Wait + Abort>(
    rt: &R,
    alloc: Global,
    opened: Opened<PlainMailbox>,
)
    requires { opened ≡ B.book }
{
    let made = Publisher::<B, PlainMailbox, &R>::new(rt, alloc, KEY, opened, 2);
    let bus = Mutex::new(made.expect(rt, "a publisher"));
    let mut publisher = bus.lock(rt);
    let first = publisher.history_reader().expect(rt, "the first reader");
    let second = publisher.history_reader().expect(rt, "the second reader");
    assert!(rt; publisher.history_reader().is_none());
    refuse(rt, &mut publisher);
    publish_two(rt, new_letterbox(rt, alloc).0, &mut publisher);
    enter(rt, first);
    learn(rt, &publisher, second);
    forget(publisher);
    forget(bus);
}

// What a command is answered. It promises nothing, so that a test's body carries none of the command's clauses.
fn publish<B: BusBrand, R: Wait + Abort>(
    rt: &R,
    publisher: &mut Publisher<B, PlainMailbox, &R>,
    command: Command<PlainMailbox>,
) -> Reply {
    publisher.publish(command).expect(rt, "a reply")
}

// A command that is refused isn't published.
fn refuse<B: BusBrand, R: Wait + Abort>(rt: &R, publisher: &mut Publisher<B, PlainMailbox, &R>) {
    let reply = publish(rt, publisher, Command::Close(1));
    assert_eq!(rt; reply, Reply::Refused(Refusal::Closed));
    assert_eq!(rt; publisher.commands(), 0);
}

// Two that are accepted are.
fn publish_two<B: BusBrand, R: Wait + Abort>(
    rt: &R,
    mailbox: PlainMailbox,
    publisher: &mut Publisher<B, PlainMailbox, &R>,
) {
    let _ = publish(rt, publisher, Command::Connect(mailbox));
    let _ = publish(rt, publisher, Command::Request(1, name_a(rt), 0));
    assert_eq!(rt; publisher.commands(), 2);
    assert_eq!(rt; publisher.commands_of(1), 2);
}

// Who owns the name of these tests.
fn owner_in(state: &BusState<PlainMailbox>) -> Option<u64> {
    owner_of(state, "com.example.A")
}

fn owner_of(state: &BusState<PlainMailbox>, name: &str) -> Option<u64> {
    state.owner_of(name)
}

// A reader that enters sees both.
fn enter<B: BusBrand, R: Abort>(rt: &R, mut reader: HistoryReader<B, PlainMailbox>) {
    assert!(rt; reader.history().is_empty());
    let visit = reader.enter().expect(rt, "the published state");
    // Nobody enters twice.
    if let Some(again) = reader.enter() {
        reader.leave(again);
        panic!(rt; "a second visit was let in");
    }
    let owner = owner_in(visit.state());
    reader.leave(visit);
    assert_eq!(rt; owner, Some(1));
    assert_eq!(rt; reader.history().len(), 2);
    forget(reader);
}

// So does one that is told.
fn learn<B: BusBrand, R: Wait + Abort>(
    rt: &R,
    publisher: &Publisher<B, PlainMailbox, &R>,
    mut reader: HistoryReader<B, PlainMailbox>,
) {
    assert_eq!(rt; owner_in(publisher.state()), Some(1));
    let told_history = publisher.tell(reader.history()).expect(rt, "the history");
    reader.learn(&told_history);
    assert_eq!(rt; reader.history().len(), 2);
    forget(reader);
}
