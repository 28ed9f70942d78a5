// The core of the bus: events in, answers out.

use crate::answer::Answer;
use crate::event::Event;
use crate::jobs::Jobs;
use entry_table::IndexKey;
use fan_out::select;
use message_view::View;
use program_table::{BusState, Command, Reply};
use std::alloc::{AllocError, Global};
use std::marker::Model;

/// The bus as a list of events makes it, one after the other.
#[derive(Drop)]
pub struct World {
    events: u64,
    state: BusState<()>,
    jobs: Jobs,
}

impl Model for World {
    ghost use Rattle.world.specs.WorldState.{WorldState};

    ghost Value = { WorldState };

    ghost view = { λ w. record { events = w.events; state = w.state; jobs = w.jobs } };
}

impl World {
    ghost use Rattle.std.specs.Prelude.{◌≡◌, ◌+◌, ◌≤◌, ◌<◌, [], ◌∷◌, length, take, IfOk, IfErr, OnOk, OnErr, MatchResult};
    ghost use Rattle.program_table.specs.SlotNames.{slot_next};
    ghost use Rattle.program_table.specs.Does.{reply_to};
    ghost use Rattle.world.specs.Histories.{max_events};
    ghost use Rattle.world.specs.IsWorld.{IsWorld, AreDone};
    ghost use Rattle.world.specs.Steps.{IsNext, BeginStep};

    /// A world in which nothing has happened. The key is that of the state's index of entries.
    pub fn new(alloc: Global, key: IndexKey) -> Result<World, AllocError>
        ensures { IfOk result (λ world. IsWorld [] world) }
    {
        Ok(World {
            events: 0,
            state: BusState::new(alloc, key)?,
            jobs: Jobs::new(alloc),
        })
    }

    /// Does the events, and adds their answers: one to each event but a Begin whose bytes are a message, which is
    /// answered nothing.
    ///
    /// # Errors
    ///
    /// The place of the event at which memory was refused: the events before it are done and answered, and no others.
    pub fn run(&mut self, events: &[Event], answers: &mut Vec<Answer>) -> Result<(), usize>
        requires { self.old.events + length events.now ≤ max_events }
        ensures all { OnOk result (AreDone events.now self.old self.new answers.old.items answers.new.items) }
        ensures refused { IfErr result (λ place. (place < length events.now) × AreDone (take place events.now) self.old self.new answers.old.items answers.new.items) }
    {
        for (place, event) in events.iter().enumerate() {
            let Ok(()) = self.add(event, answers) else {
                return Err(place);
            };
        }
        Ok(())
    }

    /// Does an event and adds its answer, if it has one.
    fn add(&mut self, event: &Event, answers: &mut Vec<Answer>) -> Result<(), AllocError>
        requires { self.old.events < max_events }
        ensures done { OnOk result (AreDone (event.now ∷ []) self.old self.new answers.old.items answers.new.items) }
        ensures refused { OnErr result ((self.new ≡ self.old) × (answers.new.items ≡ answers.old.items)) }
    {
        answers.reserve(1)?;
        if let Some(answer) = self.step(event)? {
            answers.push_reserved(answer);
        }
        Ok(())
    }

    /// Does an event, and answers what the event is answered.
    fn step(&mut self, event: &Event) -> Result<Option<Answer>, AllocError>
        requires { self.old.events < max_events }
        ensures { MatchResult result (IsNext event.now self.old self.new) (λ _. self.new ≡ self.old) }
    {
        let answer = match event {
            Event::Command(command) => Some(Answer::Reply(self.state.apply(command)?)),
            Event::Begin(sender, bytes) => self.begin(*sender, bytes.as_slice())?,
            Event::Piece(job, part) => {
                Some(Answer::of_recipients(self.jobs.take_part(*job, *part)))
            }
            Event::End(job) => Some(Answer::of_recipients(self.jobs.end(*job))),
        };
        self.events += 1;
        Ok(answer)
    }

    /// Opens a job of the next number for a broadcast, unless its bytes are no message.
    fn begin(&mut self, sender: Option<u64>, bytes: &[u8]) -> Result<Option<Answer>, AllocError>
        ensures step { MatchResult result (BeginStep sender bytes.now self.old self.new) (λ _. self.new ≡ self.old) }
        ensures others { (self.new.events ≡ self.old.events) × (self.new.state ≡ self.old.state) }
    {
        let view = match View::read(bytes) {
            Ok(view) => view,
            Err(fault) => return Ok(Some(Answer::Fault(fault))),
        };
        let recipients = select(&self.state, sender, &view);
        self.jobs.begin(self.events, recipients)?;
        Ok(None)
    }

    /// How many events there were.
    pub fn events(&self) -> u64
        ensures { result ≡ self.now.events }
    {
        self.events
    }

    /// What a command would be answered.
    pub fn answer(&self, command: &Command<()>) -> Reply
        ensures { result ≡ reply_to self.now.state command.now }
    {
        self.state.answer(command)
    }

    /// The slot that a name has, or gets when it needs one; None where all are used.
    pub fn slot_next(&self, name: &str) -> Option<u16>
        ensures { result ≡ slot_next name.now self.now.state.registrations.slots }
    {
        self.state.slot_next(name)
    }
}
