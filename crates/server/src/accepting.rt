// What the first worker accepts.

use crate::acceptor::Acceptor;
use crate::note::Cause;
use crate::worker::Worker;
use members::Arrival;
use mio::Token;
use sessions::BusBrand;
use std::fs::{File, Files};
use std::random::RandomSource;
use std::sync::Wait;
use std::time::Clock;

/// How many connections are accepted before those that are in have their turn.
const ACCEPTS: u32 = 16;

/// The place of the first worker to which connections are handed out.
pub(crate) fn first_served(acceptor: &Option<Acceptor<'_>>) -> usize {
    match acceptor {
        Some(acceptor) if acceptor.may_wait() => 1,
        _ => 0,
    }
}

impl<'a, B: BusBrand, R: Wait + Drop> Worker<'a, B, R> {
    /// Notes what the poll told of an endpoint. Answers false where the token is of none.
    pub(crate) fn is_of_endpoint(&mut self, token: Token) -> bool {
        match &mut self.acceptor {
            Some(acceptor) => acceptor.note(token),
            None => false,
        }
    }

    /// Accepts some of those that wait at the endpoints, as far as there are places, and hands them out in turn.
    pub(crate) fn accept<W: Files<File = File> + RandomSource + Wait + Clock>(&mut self, rt: &W) {
        for _ in 0..ACCEPTS {
            let Some(arrival) = self.next_arrival(rt) else {
                return;
            };
            self.hand_out(rt, arrival);
        }
        self.has_more_now = true;
    }

    /// The next connection, with what its talk admits, if one waits and there is a place for it.
    fn next_arrival<W: Files<File = File> + RandomSource + Wait + Clock>(
        &mut self,
        rt: &W,
    ) -> Option<Arrival> {
        let acceptor = self.acceptor.as_mut()?;
        if acceptor.is_done() {
            self.stop_accepting();
            return None;
        }
        if !acceptor.has_next(rt, &self.server.notes) || !self.server.newcomers.take_place(rt) {
            return None;
        }
        let (link, endpoint) = acceptor.take_next()?;
        let admission = endpoint.mechanisms.admission(rt, self.alloc);
        Some(Arrival { link, admission })
    }

    /// Hands a connection to the worker whose turn it is.
    fn hand_out<W: Wait + Clock>(&mut self, rt: &W, arrival: Arrival) {
        self.last = self.last.checked_add(1).unwrap_or(0);
        if self.last >= self.handles.len() {
            self.last = self.first;
        }
        match self.handles.get(self.last) {
            Some(handle) if self.last > 0 => {
                if handle.hand_in(rt, arrival).is_err() {
                    self.server.turn_away(rt, Cause::MEMORY);
                }
            }
            _ => self.take(rt, arrival),
        }
    }

    /// No more connections come.
    pub(crate) fn stop_accepting(&mut self) {
        if self.acceptor.take().is_some() {
            for handle in self.handles {
                handle.finish();
            }
        }
    }

    /// Whether clients wait at an endpoint for a place, or for an accept that failed.
    pub(crate) fn has_clients_waiting(&self) -> bool {
        match &self.acceptor {
            Some(acceptor) => acceptor.has_clients(),
            None => false,
        }
    }
}
