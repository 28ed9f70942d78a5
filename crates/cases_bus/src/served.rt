// The client whose session reads and writes by itself.

use crate::client::other_end;
use crate::client_line::Action;
use crate::memory::{Input, Output};
use crate::place::{GUID, Place};
use crate::received::{Received, Wanted};
use crate::serving::Serving;
use case_files::LineError;
use sessions::{BusBrand, SessionError, serve_one};
use std::alloc::Global;
use std::sync::Wait;

/// What it sends as a whole, what it got, and how its session ended.
#[derive(Drop)]
pub(crate) struct Served {
    script: Vec<u8>,
    received: Received,
    // The outcome, and whether a rest is left; None before it is served.
    ended: Option<(Result<(), SessionError>, bool)>,
}

impl Served {
    pub(crate) fn new(alloc: Global) -> Served {
        Served {
            script: Vec::new(alloc),
            received: Received::new(alloc),
            ended: None,
        }
    }

    /// Plays a line of this client: what came, where it isn't what the line wants.
    pub(crate) fn act<B: BusBrand, R: Wait>(
        &mut self,
        place: &Place<'_, '_, B, R>,
        action: Action<'_>,
    ) -> Result<Option<String>, LineError> {
        match action {
            Action::Send(bytes) | Action::Enter(bytes) => {
                self.script.extend_from_slice(bytes.as_slice())?;
            }
            Action::Forget => self.received.clear(),
            Action::Serve(serving) => self.serve(place, serving),
            Action::Get(wanted) => return self.received.miss(place.alloc, &wanted),
            Action::End(words) => return self.end(place.alloc, words),
            Action::Cut(_)
            | Action::Share(_)
            | Action::Limit(_)
            | Action::Machine(_)
            | Action::User(_)
            | Action::Ask(_) => {
                return Err(LineError::Unreadable);
            }
        }
        Ok(None)
    }

    /// What it got that no line looked at.
    pub(crate) fn unread(&mut self, alloc: Global) -> Result<Option<String>, LineError> {
        self.received.miss(alloc, &Wanted::Nothing)
    }

    fn serve<B: BusBrand, R: Wait>(&mut self, place: &Place<'_, '_, B, R>, serving: Serving) {
        let reader = Input::new(self.script.as_slice(), serving);
        let writer = Output::new(&mut self.received, serving);
        let (outcome, rest) = serve_one(place.rt, place.alloc, place.bus, GUID, reader, writer);
        self.ended = Some((outcome, rest.is_some()));
    }

    fn end(&self, alloc: Global, wanted: &str) -> Result<Option<String>, LineError> {
        match self.ended {
            Some((outcome, has_rest)) => other_end(alloc, outcome, has_rest, wanted),
            None => Err(LineError::Unreadable),
        }
    }
}
