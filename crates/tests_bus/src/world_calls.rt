// Events of one call, and what the world is asked. What events are answered is in the files of cases_bus.

use crate::fixture::{KEY, S1};
use arrayvec::ArrayVec;
use program_table::{Command, Refusal, Reply};
use std::alloc::Global;
use std::mem::forget;
use std::process::Abort;
use world::{Answer, Event, World};

/// A world without events.
fn new_world<R: Abort>(rt: &R, alloc: Global) -> World {
    World::new(alloc, KEY).expect(rt, "a world")
}

/// Puts an event after the others.
fn add<R: Abort>(rt: &R, events: &mut Vec<Event>, event: Event) {
    events.push(event).expect(rt, "memory");
}

/// Puts the begin of a job after the other events, with a signal of connection 1.
fn add_begin<R: Abort>(rt: &R, alloc: Global, events: &mut Vec<Event>) {
    let bytes = S1.to_vec(alloc).expect(rt, "memory");
    add(rt, events, Event::Begin(Some(1), bytes));
}

fn expect_answer<R: Abort>(rt: &R, answers: &[Answer], place: usize, wanted: &Answer) {
    assert!(rt; answers.get(place) == Some(wanted));
}

// Runs the events: none was done before, and all were after.
fn run<R: Abort>(rt: &R, world: &mut World, events: &[Event], answers: &mut Vec<Answer>) {
    assert_eq!(rt; world.events(), 0);
    assert_eq!(rt; events.len(), 4);
    assert_eq!(rt; world.run(events, answers), Ok(()));
    assert_eq!(rt; world.events(), 4);
}

/// The events of one call are done in their order, and each but the begin of a job has an answer.
#[test]
fn several_events(rt: HostRuntime) {
    let mut world = new_world(&rt, rt.alloc());
    let mut events = Vec::new(rt.alloc());
    add(&rt, &mut events, Event::Command(Command::Connect(())));
    add_begin(&rt, rt.alloc(), &mut events);
    add(&rt, &mut events, Event::Command(Command::Close(1)));
    add(&rt, &mut events, Event::End(1));
    let mut answers = Vec::new(rt.alloc());
    run(&rt, &mut world, events.as_slice(), &mut answers);
    assert_eq!(rt; answers.len(), 3);
    expect_answer(&rt, &answers, 0, &Answer::Reply(Reply::Connected(1)));
    expect_answer(&rt, &answers, 1, &Answer::Reply(Reply::Done));
    expect_answer(&rt, &answers, 2, &Answer::Recipients(ArrayVec::new()));
    forget(world);
    forget(events);
    forget(answers);
}

fn ask<R: Abort>(rt: &R, world: &World, command: Command<()>, wanted: Reply) {
    assert_eq!(rt; world.answer(&command), wanted);
    forget(command);
}

fn expect_no_events<R: Abort>(rt: &R, world: &World) {
    assert_eq!(rt; world.slot_next("com.example.A"), Some(0));
    assert_eq!(rt; world.events(), 0);
}

#[test]
fn questions_change_nothing(rt: HostRuntime) {
    let world = new_world(&rt, rt.alloc());
    let closed = Reply::Refused(Refusal::Closed);
    ask(&rt, &world, Command::Connect(()), Reply::Connected(1));
    ask(&rt, &world, Command::Close(1), closed);
    expect_no_events(&rt, &world);
    forget(world);
}
