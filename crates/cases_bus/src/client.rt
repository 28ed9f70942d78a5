// A client whose session is driven by hand.

use crate::client_line::Action;
use crate::place::Place;
use crate::received::{Received, Wanted};
use crate::taker::take_all;
use case_files::LineError;
use crossbeam_utils::rule::Protocol;
use outbox::Taker;
use routing::Mailbox;
use sessions::{
    Admission, BusBrand, Command, Identity, PlainMailbox, Published, Rest, RouteLists, Session,
    SessionError, Shares, Shown, Step,
};
use std::alloc::{AllocError, Global};
use std::collections::LinkedList;
use std::sync::Wait;

/// A client's session, and what it got.
#[derive(Drop)]
pub(crate) struct Client<B: BusBrand>
where
    Published: Protocol<Shown<B, PlainMailbox>, LinkedList<Command<PlainMailbox>>>,
{
    // None after its end.
    session: Option<Session<B, PlainMailbox>>,
    taker: Taker,
    received: Received,
    // Whom its last message asked the bus about.
    subject: Option<u64>,
    at_once: usize,
    shares: Shares,
}

impl<B: BusBrand> Client<B> {
    /// A client that has said nothing, on a bus that says this of itself.
    pub(crate) fn new(alloc: Global, identity: Identity) -> Result<Client<B>, AllocError> {
        let (mailbox, turn) = PlainMailbox::new(alloc)?;
        let taker = Taker::new(mailbox.outbox())?;
        Ok(Client {
            session: Some(Session::admitting(alloc, identity, Admission::any(), mailbox, turn)),
            taker,
            received: Received::new(alloc),
            subject: None,
            at_once: usize::MAX,
            shares: Shares::unlimited(),
        })
    }

    /// Plays a line of this client: what came, where it isn't what the line wants.
    pub(crate) fn act<R: Wait>(
        &mut self,
        place: &Place<'_, '_, B, R>,
        action: Action<'_>,
    ) -> Result<Option<String>, LineError> {
        match action {
            Action::Send(bytes) => self.send(place, bytes.as_slice()),
            Action::Enter(bytes) => {
                self.send(place, bytes.as_slice());
                self.forget(place)?;
            }
            Action::Forget => self.forget(place)?,
            Action::Cut(len) => self.at_once = len,
            Action::Share(shares) => self.shares = shares,
            Action::Get(wanted) => return self.get(place, &wanted),
            Action::Ask(wanted) => return other_subject(place.alloc, self.subject, wanted),
            Action::End(words) => return self.end(place, words),
            Action::Serve(_) | Action::Limit(_) | Action::Machine(_) | Action::User(_) => {
                return Err(LineError::Unreadable);
            }
        }
        Ok(None)
    }

    /// What it got that no line looked at.
    pub(crate) fn unread<R: Wait>(
        &mut self,
        place: &Place<'_, '_, B, R>,
    ) -> Result<Option<String>, LineError> {
        self.get(place, &Wanted::Nothing)
    }

    fn send<R: Wait>(&mut self, place: &Place<'_, '_, B, R>, bytes: &[u8]) {
        if let Some(session) = &mut self.session {
            for piece in bytes.chunks(self.at_once.max(1)) {
                treat(place, session, self.shares, &mut self.subject, piece);
            }
        }
    }

    fn forget<R: Wait>(&mut self, place: &Place<'_, '_, B, R>) -> Result<(), LineError> {
        take_all(place.rt, &mut self.taker, &mut self.received)?;
        self.received.clear();
        Ok(())
    }

    fn get<R: Wait>(
        &mut self,
        place: &Place<'_, '_, B, R>,
        wanted: &Wanted<'_>,
    ) -> Result<Option<String>, LineError> {
        take_all(place.rt, &mut self.taker, &mut self.received)?;
        self.received.miss(place.alloc, wanted)
    }

    fn end<R: Wait>(
        &mut self,
        place: &Place<'_, '_, B, R>,
        wanted: &str,
    ) -> Result<Option<String>, LineError> {
        match self.session.take() {
            Some(session) => {
                let outcome = session.end_of_input();
                let mut lists = RouteLists::new();
                let (told, rest) = session.end(place.rt, place.alloc, place.bus, &mut lists);
                other_end(place.alloc, outcome.and(told), rest.is_some(), wanted)
            }
            None => Err(LineError::Unreadable),
        }
    }
}

/// Feeds a session, and lets it treat all that is there whole, each message after a look at whom it asks about. Why it
/// ends is told at its end.
fn treat<B: BusBrand, R: Wait>(
    place: &Place<'_, '_, B, R>,
    session: &mut Session<B, PlainMailbox>,
    shares: Shares,
    subject: &mut Option<u64>,
    piece: &[u8],
) {
    if session.feed(piece).is_err() {
        return;
    }
    let mut lists = RouteLists::new();
    for _ in 0..u64::MAX {
        let next = session.next_subject();
        match session.step(place.rt, place.alloc, place.bus, shares, &mut lists) {
            Ok(Step::Done) => *subject = next,
            Ok(Step::Waits) | Err(_) => return,
        }
    }
}

/// Whom a message asked about, where it isn't the wanted connection.
fn other_subject(
    alloc: Global,
    asked: Option<u64>,
    wanted: Option<u64>,
) -> Result<Option<String>, LineError> {
    if asked == wanted {
        return Ok(None);
    }
    match asked {
        Some(number) => Ok(Some(format!(in alloc; "asks {number}")?)),
        None => Ok(Some(String::from_str(alloc, "asks nobody")?)),
    }
}

/// How a session ended, where it isn't the wanted end.
pub(crate) fn other_end(
    alloc: Global,
    outcome: Result<(), SessionError>,
    has_rest: bool,
    wanted: &str,
) -> Result<Option<String>, LineError> {
    let came = match outcome {
        Ok(()) => String::from_str(alloc, "Ok")?,
        Err(error) => format!(in alloc; "{error}")?,
    };
    if has_rest {
        return Ok(Some(format!(in alloc; "{came} with a rest")?));
    }
    Ok(if came.as_str() == wanted {
        None
    } else {
        Some(came)
    })
}
