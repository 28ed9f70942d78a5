// Connections that haven't said Hello.

ghost use Rattle.std.specs.Prelude.{◌≡◌, ◌+◌, ◌-◌, ◌^◌, ◌<◌, min, MatchBool};
ghost use Rattle.server.specs.declared.newcomers.Wanted.TheVariants.{Nothing};

use endpoints::Link;
use std::alloc::Global;
use std::io;
use std::sync::{Arc, Mutex, Wait};

/// A connection that hasn't said Hello.
#[derive(Drop)]
struct Newcomer {
    ticket: u64,
    link: Arc<Link>,
}

/// Whether a client waits for a place, and who goes for it.
#[derive(Clone, Copy, PartialEq, Eq)]
enum Wanted {
    /// Nobody waits.
    Nothing,
    /// The oldest newcomer was told to go.
    OneGoes,
    /// The first that comes has to go, since none was there.
    TheFirst,
}

#[derive(Drop)]
struct Places {
    free: u32,
    wanted: Wanted,
    last_ticket: u64,
    // Those that workers have taken in, the oldest first.
    newcomers: Vec<Newcomer>,
}

impl Places {
    /// Takes a place that is free. If none is, one newcomer goes, unless one was told to already.
    fn take(&mut self) -> bool
        ensures { MatchBool result
            ((0 < self.old.free) × (self.new ≡ record self.old { free = self.old.free - 1; wanted = Nothing }))
            ((self.old.free ≡ 0) × (self.new.free ≡ 0)) }
    {
        if self.free > 0 {
            self.free = self.free.saturating_sub(1);
            self.wanted = Wanted::Nothing;
            return true;
        }
        if self.wanted == Wanted::Nothing {
            self.close_oldest();
        }
        false
    }

    /// One place more is free.
    fn give_back(&mut self)
        ensures { self.new ≡ record self.old { free = min (self.old.free + 1) (2 ^ 32 - 1) } }
    {
        self.free = self.free.saturating_add(1);
    }

    /// Makes the oldest newcomer go: its worker finds its socket shut, and gives its place back. Where none is there yet,
    /// the first that comes has to go.
    fn close_oldest(&mut self)
        ensures { self.new.free ≡ self.old.free }
    {
        if self.newcomers.is_empty() {
            self.wanted = Wanted::TheFirst;
        } else {
            self.newcomers.remove(0).link.shut();
            self.wanted = Wanted::OneGoes;
        }
    }

    /// Whether a newcomer of this ticket was there, which is there no longer.
    fn remove(&mut self, ticket: u64) -> bool
        ensures { self.new.free ≡ self.old.free }
    {
        let before = self.newcomers.len();
        self.newcomers.retain(|newcomer| newcomer.ticket != ticket);
        self.newcomers.len() < before
    }
}

/// Places of connections that haven't said Hello. Where none is free, the oldest of them goes when a new one comes.
#[derive(Drop)]
pub(crate) struct Newcomers {
    places: Mutex<Places>,
}

impl Newcomers {
    pub(crate) fn new(alloc: Global, count: u32) -> Newcomers {
        Newcomers {
            places: Mutex::new(Places {
                free: count,
                wanted: Wanted::Nothing,
                last_ticket: 0,
                newcomers: Vec::new(alloc),
            }),
        }
    }

    /// Takes a place for a connection that comes, if one is free. If not, one newcomer goes, and its place can be taken
    /// once it is given back.
    pub(crate) fn take_place<R: Wait>(&self, rt: &R) -> bool {
        self.places.lock(rt).take()
    }

    /// Notes a connection that has a place, and gives its ticket.
    pub(crate) fn enter<R: Wait>(&self, rt: &R, link: Arc<Link>) -> io::Result<u64> {
        let mut places = self.places.lock(rt);
        let ticket = places.last_ticket.saturating_add(1);
        places.newcomers.push(Newcomer { ticket, link })?;
        places.last_ticket = ticket;
        if places.wanted == Wanted::TheFirst && places.free == 0 {
            places.close_oldest();
        }
        Ok(ticket)
    }

    /// Gives back the place of a connection. Answers false if it was the oldest and had to go.
    pub(crate) fn leave<R: Wait>(&self, rt: &R, ticket: u64) -> bool {
        let was_there = self.places.lock(rt).remove(ticket);
        self.give_back(rt);
        was_there
    }

    /// Gives back a place of a connection that has no ticket.
    pub(crate) fn give_back<R: Wait>(&self, rt: &R) {
        self.places.lock(rt).give_back();
    }
}
