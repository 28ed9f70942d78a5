//! The core of the bus, without threads: a list of events in, their answers out. The layers above use what `World::run`
//! ensures: each event is answered as `IsAnswered` says of all events before it.
#![tactic(auto)]

mod answer;
mod event;
mod job;
mod jobs;
mod world;

pub use answer::Answer;
pub use event::Event;
pub use world::World;
