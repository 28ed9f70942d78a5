// The messages that a bus sends.

use crate::error::Fault;
use crate::owners::BUS_NAME;
use crate::selection::Selection;
use bus_client::{Client, ClientError, Timed};
use bytes::Bytes;
use command_line::Writer;
use message_view::View;
use std::rt::Clock;
use std::time::{Duration, Instant};

/// How often it is looked which calls have waited too long, in milliseconds.
const LATE_INTERVAL: u64 = 250;

/// Shows the messages that come and are selected, until as many were as are wanted or the time is over, which
/// is in seconds.
pub(crate) fn show_messages<R: AllocGlobal + Clock, O: Writer, F: Writer, E: Writer>(
    rt: &R,
    client: &mut Client<Timed<'_, R>>,
    seconds: Option<u64>,
    selection: &mut Selection<'_, '_, '_, O, F, E>,
) -> Result<(), Fault> {
    let limit = Limit::begin(rt, seconds)?;
    selection.tell_late(rt.alloc(), now(rt)?)?;
    limit.wait(rt, client, selection.is_waiting())?;
    for _ in 0..u64::MAX {
        if selection.is_done() {
            return Ok(());
        }
        match next_message(client)? {
            Some(message) => show_message(rt, client, message.as_slice(), selection)?,
            None => {
                selection.tell_late(rt.alloc(), now(rt)?)?;
                if limit.is_over(rt)? {
                    return Ok(());
                }
                limit.wait(rt, client, selection.is_waiting())?;
            }
        }
    }
    Ok(())
}

/// How long messages are shown, from a time on, if that has an end.
#[derive(Clone, Copy)]
struct Limit {
    since: Instant,
    len: Option<Duration>,
}

impl Limit {
    /// From now on as many seconds, or for ever.
    fn begin<R: Clock>(rt: &R, seconds: Option<u64>) -> Result<Limit, Fault> {
        Ok(Limit {
            since: Instant::now(rt).map_err(|_| Fault::Socket)?,
            len: seconds.map(Duration::from_secs),
        })
    }

    /// How much of the time is left, if it has an end.
    fn time_left<R: Clock>(&self, rt: &R) -> Result<Option<Duration>, Fault> {
        let gone = self.since.elapsed(rt).map_err(|_| Fault::Socket)?;
        Ok(
            self.len
                .map(|len| len.checked_sub(gone).unwrap_or(Duration::ZERO)),
        )
    }

    fn is_over<R: Clock>(&self, rt: &R) -> Result<bool, Fault> {
        Ok(self.time_left(rt)?.is_some_and(|left| left.is_zero()))
    }

    /// Has the client wait until the end, or not as long where something may be to be said before.
    fn wait<R: Clock>(
        &self,
        rt: &R,
        client: &mut Client<Timed<'_, R>>,
        is_waiting: bool,
    ) -> Result<(), Fault> {
        let interval = Duration::from_millis(LATE_INTERVAL);
        let len = match self.time_left(rt)? {
            Some(left) if is_waiting => Some(left.min(interval)),
            None if is_waiting => Some(interval),
            left => left,
        };
        match len {
            Some(len) => client.stream_mut().wait_for(len),
            None => client.stream_mut().wait_for_ever(),
        }
        .map_err(|_| Fault::Socket)
    }
}

/// Shows a message, unless it tells of the client's own names.
fn show_message<R: AllocGlobal + Clock, O: Writer, F: Writer, E: Writer>(
    rt: &R,
    client: &Client<Timed<'_, R>>,
    message: &[u8],
    selection: &mut Selection<'_, '_, '_, O, F, E>,
) -> Result<(), Fault> {
    let view = View::read(message)?;
    if is_of_own_names(&view, client.name()) {
        return Ok(());
    }
    selection.take_message(rt.alloc(), now(rt)?, &view)
}

/// The next message, or nothing where the time is over.
fn next_message<R: Clock>(client: &mut Client<Timed<'_, R>>) -> Result<Option<Bytes>, Fault> {
    match client.next() {
        Ok(message) => Ok(Some(message)),
        Err(ClientError::Socket) if is_over(client) => Ok(None),
        Err(error) => Err(Fault::from(error)),
    }
}

fn is_over<R: Clock>(client: &mut Client<Timed<'_, R>>) -> bool {
    matches!(client.stream_mut().is_over(), Ok(true))
}

/// Whether a message tells the client itself of a name that it got or lost.
fn is_of_own_names(view: &View<'_>, own: Option<&str>) -> bool {
    view.destination().is_some()
        && view.destination() == own
        && view.sender() == Some(BUS_NAME)
        && matches!(view.member(), Some("NameAcquired" | "NameLost"))
}

/// Nanoseconds since 1970.
fn now<R: Clock>(rt: &R) -> Result<u64, Fault> {
    let time = rt
        .since_1970()
        .map_err(|_| Fault::Tool(command_line::Fault::File))?;
    Ok(u64::try_from(time.as_nanos()).unwrap_or(u64::MAX))
}
