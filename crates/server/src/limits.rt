// How much the clients of a server may take of it.

ghost use Rattle.std.specs.Prelude.{◌≡◌, ◌≤◌};
ghost use Rattle.server.specs.declared.limit.Limit.{Limit};
ghost use Rattle.server.specs.Limits.{row_of, number_of};

use crate::limit::Limit;
use members::Room;
use sessions::{Capacity, Shares};
use std::time::Duration;

/// The limits of a server. At most as many connections are open at once as there may be after Hello and without it, together.
#[derive(Clone, Copy)]
pub struct Limits {
    /// How many threads serve the connections.
    pub workers: usize,
    /// How much there may be on the bus, of all clients together.
    pub capacity: Capacity,
    /// How much of the bus one client may have.
    pub shares: Shares,
    /// How many instructions the programs that all clients have attached may have together.
    pub all_instructions: u32,
    /// How much may wait for one client.
    pub room: Room,
    /// How many bytes of messages that aren't whole all connections together may have sent.
    pub unfinished: u32,
    /// How many seconds a connection may send nothing in the middle of a message.
    pub silence: u32,
    /// How many connections may be without Hello at once.
    pub newcomers: u32,
    /// How many seconds after its accept a connection may be without it.
    pub hello: u32,
}

impl Limits {
    /// The standard limits, and one worker.
    pub fn standard() -> Limits
        ensures table { (limit : Limit) → number_of result limit ≡ (row_of limit).standard }
        ensures worker { result.workers ≡ 1 }
    {
        Limits {
            workers: 1,
            capacity: Capacity::standard(),
            shares: Shares::standard(),
            all_instructions: Limit::AllInstructions.standard(),
            room: Room {
                messages: Limit::Messages.standard() as usize,
                bytes: Limit::Bytes.standard() as usize,
            },
            unfinished: Limit::Unfinished.standard(),
            silence: Limit::Silence.standard(),
            newcomers: Limit::Newcomers.standard(),
            hello: Limit::Hello.standard(),
        }
    }

    /// The same with as many workers as are asked for, but 1 to 16.
    pub fn with_workers(self, workers: usize) -> Limits
        ensures table { (limit : Limit) → number_of result limit ≡ number_of self limit }
        ensures some { 1 ≤ result.workers }
        ensures few { result.workers ≤ 16 }
        ensures as_asked { 1 ≤ workers → workers ≤ 16 → result.workers ≡ workers }
    {
        Limits {
            workers: workers.clamp(1, 16),
            ..self
        }
    }

    /// The same with this number for one of them.
    pub fn with(self, limit: Limit, number: u32) -> Limits
        ensures asked { number_of result limit ≡ number }
        ensures others { (other : Limit) → (other ≡ limit → ⊥) → number_of result other ≡ number_of self other }
        ensures workers { result.workers ≡ self.workers }
    {
        let mut limits = self;
        match limit {
            Limit::Rules => limits.shares.entries = number,
            Limit::AllRules => limits.capacity.entries = number,
            Limit::Instructions => limits.shares.instructions = number,
            Limit::AllInstructions => limits.all_instructions = number,
            Limit::Names => limits.shares.names = number,
            Limit::AllNames => limits.capacity.names = number,
            Limit::Claims => limits.capacity.claims = number,
            Limit::Calls => limits.shares.calls = number,
            Limit::Messages => limits.room.messages = number as usize,
            Limit::Bytes => limits.room.bytes = number as usize,
            Limit::Unfinished => limits.unfinished = number,
            Limit::Silence => limits.silence = number,
            Limit::Clients => limits.capacity.connections = number,
            Limit::Newcomers => limits.newcomers = number,
            Limit::Hello => limits.hello = number,
        }
        limits
    }

    /// How long a connection may send nothing in the middle of a message.
    pub(crate) fn silence(&self) -> Duration {
        Duration::from_secs(u64::from(self.silence))
    }

    /// How long after its accept a connection may be without Hello.
    pub(crate) fn patience(&self) -> Duration {
        Duration::from_secs(u64::from(self.hello))
    }
}
