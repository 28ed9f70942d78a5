// A session that one thread serves, between a reader and a writer.

use crate::ending::Rest;
use crate::error::SessionError;
use crate::session::Session;
use crate::step::Step;
use crate::writing::Writing;
use peers::{Bus, BusBrand, PlainMailbox, RouteLists, Shares};
use routing::Mailbox;
use std::alloc::{AllocError, Global};
use std::io::{ErrorKind, Read, Write};
use std::sync::Wait;

/// How many bytes are read at once.
const READ_LEN: usize = 4096;

/// Serves one client in this thread: reads, treats each message in order, and writes all that the session's outbox
/// holds after each. Only the bus itself refuses what the client asks for. Answers why the session ended, and what is left
/// of it where memory was refused at its end.
///
/// # Errors
///
/// Those of a session and of its end. A fault of the writer ends the session at once before BEGIN; after it the session goes on
/// reading to the end of its input, and then answers `Write`, whatever ended it.
pub fn serve_one<B: BusBrand, W: Wait, R: Wait + Drop, I: Read + Drop, O: Write + Drop>(
    rt: &W,
    alloc: Global,
    bus: &Bus<B, PlainMailbox, R>,
    guid: [u8; 32],
    mut reader: I,
    writer: O,
) -> (Result<(), SessionError>, Option<Rest<B, PlainMailbox>>) {
    let Ok((mut session, mut writing)) = open_session(alloc, guid, writer) else {
        return (Err(SessionError::NoMemory), None);
    };
    let outcome = read_to_end(rt, alloc, bus, &mut session, &mut writing, &mut reader);
    writing.write_out(rt);
    let outcome = if writing.is_broken() {
        Err(SessionError::Write)
    } else {
        outcome
    };
    let mut lists = RouteLists::new();
    let (told, rest) = session.end(rt, alloc, bus, &mut lists);
    (outcome.and(told), rest)
}

/// A session with an outbox of its own, and what writes that out.
fn open_session<B: BusBrand, O: Write + Drop>(
    alloc: Global,
    guid: [u8; 32],
    writer: O,
) -> Result<(Session<B, PlainMailbox>, Writing<O>), AllocError> {
    let (mailbox, turn) = PlainMailbox::new(alloc)?;
    let writing = Writing::new(mailbox.outbox(), writer)?;
    Ok((Session::new(alloc, guid, mailbox, turn), writing))
}

/// Reads to the end of the input, or to what ends the session before it.
fn read_to_end<B: BusBrand, W: Wait, R: Wait + Drop, I: Read, O: Write + Drop>(
    rt: &W,
    alloc: Global,
    bus: &Bus<B, PlainMailbox, R>,
    session: &mut Session<B, PlainMailbox>,
    writing: &mut Writing<O>,
    reader: &mut I,
) -> Result<(), SessionError> {
    let mut block = [0; READ_LEN];
    for _ in 0..u64::MAX {
        match reader.read(&mut block) {
            Ok(0) => return session.end_of_input(),
            Ok(len) => {
                session.feed(&block[..len])?;
                treat_all(rt, alloc, bus, session, writing)?;
            }
            Err(error) => {
                if error.kind() != ErrorKind::Interrupted {
                    return Err(SessionError::Read);
                }
            }
        }
    }
    Err(SessionError::Read)
}

/// Treats each whole line or message that was read, and writes what stands in the outbox after each.
fn treat_all<B: BusBrand, W: Wait, R: Wait + Drop, O: Write + Drop>(
    rt: &W,
    alloc: Global,
    bus: &Bus<B, PlainMailbox, R>,
    session: &mut Session<B, PlainMailbox>,
    writing: &mut Writing<O>,
) -> Result<(), SessionError> {
    let mut lists = RouteLists::new();
    for _ in 0..u64::MAX {
        let step = session.step(rt, alloc, bus, Shares::unlimited(), &mut lists)?;
        session.push_out(rt);
        writing.write_out(rt);
        if writing.is_broken() && !session.has_begun() {
            return Err(SessionError::Write);
        }
        if step == Step::Waits {
            return Ok(());
        }
    }
    Ok(())
}
