// A socket that waits only for a limited time.

use crate::transport::Transport;
use endpoints::Link;
use std::io;
use std::io::{ErrorKind, Read, Write};
use std::rt::Clock;
use std::time::{Duration, Instant};

/// How long a talk, or a call with its answer, may take, in seconds.
const ANSWER_SECONDS: u64 = 25;

/// The longest time that one read waits, in seconds: systems refuse limits that are too long.
const LONGEST_WAIT: u64 = 3600;

/// A time that ends so long after it began.
#[derive(Clone, Copy)]
struct Limit {
    since: Instant,
    len: Duration,
}

/// A socket whose reads and writes up to a time have to be done by then.
#[derive(Drop)]
pub struct Timed<'a, R> {
    rt: &'a R,
    link: Link,
    limit: Option<Limit>,
}

impl<'a, R: Clock> Timed<'a, R> {
    /// A socket that waits for an answer from now on.
    pub fn new(rt: &'a R, link: Link) -> io::Result<Timed<'a, R>> {
        let limit = Some(Limit {
            since: Instant::now(rt)?,
            len: Duration::from_secs(ANSWER_SECONDS),
        });
        Ok(Timed { rt, link, limit })
    }

    /// What the socket's connection goes by.
    pub fn transport(&self) -> Transport {
        match &self.link {
            Link::Unix(_) => Transport::Unix,
            Link::Tcp(_) => Transport::Tcp,
        }
    }

    /// From now on it waits as long as nothing comes.
    pub fn wait_for_ever(&mut self) -> io::Result<()> {
        self.limit = None;
        self.link.set_timeouts(None)
    }

    /// From now on it waits for this long in all.
    pub fn wait_for(&mut self, len: Duration) -> io::Result<()> {
        let since = Instant::now(self.rt)?;
        self.limit = Some(Limit { since, len });
        Ok(())
    }

    /// Whether the time is over that it waits.
    pub fn is_over(&self) -> io::Result<bool> {
        Ok(self.time_left()?.is_some_and(|left| left.is_zero()))
    }

    /// How much of the time is left that it waits, if that has an end.
    fn time_left(&self) -> io::Result<Option<Duration>> {
        let Some(limit) = self.limit else {
            return Ok(None);
        };
        let gone = limit.since.elapsed(self.rt)?;
        Ok(Some(limit.len.checked_sub(gone).unwrap_or(Duration::ZERO)))
    }

    /// Sets the socket's limits to the time that is left.
    fn set_limit(&self) -> io::Result<()> {
        match self.time_left()? {
            None => Ok(()),
            Some(left) if left.is_zero() => Err(io::Error::from(ErrorKind::TimedOut)),
            Some(left) => {
                let longest = Duration::from_secs(LONGEST_WAIT);
                self.link.set_timeouts(Some(left.min(longest)))
            }
        }
    }
}

impl<'a, R: Clock> Read for Timed<'a, R> {
    fn read(&mut self, buf: &mut [u8]) -> io::Result<usize> {
        for _ in 0..u64::MAX {
            self.set_limit()?;
            match self.link.receive(buf) {
                // The system's limit may end a little before the time.
                Err(error) if error.kind() == ErrorKind::WouldBlock => {}
                read => return read,
            }
        }
        Err(io::Error::from(ErrorKind::TimedOut))
    }
}

impl<'a, R: Clock> Write for Timed<'a, R> {
    fn write(&mut self, buf: &[u8]) -> io::Result<usize> {
        self.set_limit()?;
        self.link.send(buf)
    }

    fn flush(&mut self) -> io::Result<()> {
        Ok(())
    }
}
