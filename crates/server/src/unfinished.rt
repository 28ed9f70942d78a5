// Bytes of messages that aren't whole.

use std::io;
use std::io::ErrorKind;
use std::sync::atomic::{AtomicU64, Ordering};
use std::time::{Clock, Duration, Instant};

/// What a connection has sent of a message that isn't whole.
#[derive(Clone, Copy)]
pub(crate) struct Beginning {
    len: u64,
    /// When its last byte was read.
    last: Instant,
}

impl Beginning {
    /// A beginning of this many bytes, the last of which was read now; `None` where there are none.
    pub(crate) fn of_len<R: Clock>(rt: &R, len: u64) -> io::Result<Option<Beginning>> {
        if len == 0 {
            return Ok(None);
        }
        let last = Instant::now(rt)?;
        Ok(Some(Beginning { len, last }))
    }

    pub(crate) fn len(&self) -> u64 {
        self.len
    }

    /// Whether nothing has come after it for longer than this.
    pub(crate) fn is_silent(&self, now: Instant, silence: Duration) -> bool {
        now.duration_since(self.last) > silence
    }
}

/// How many bytes of messages that aren't whole all connections together have sent.
#[derive(Drop)]
pub(crate) struct Unfinished {
    count: AtomicU64,
    most: u64,
}

impl Unfinished {
    /// Room for this many bytes.
    pub(crate) fn new(most: u32) -> Unfinished {
        Unfinished {
            count: AtomicU64::new(0),
            most: u64::from(most),
        }
    }

    /// Counts what a connection has now in place of what it had before.
    ///
    /// # Errors
    ///
    /// `QuotaExceeded` where it has more and there is no room for it, which changes nothing.
    pub(crate) fn replace(&self, before: u64, now: u64) -> io::Result<()> {
        let most = self.most;
        let counted = self
            .count
            .fetch_update(Ordering::SeqCst, Ordering::SeqCst, |count| {
                let count = count.saturating_sub(before).saturating_add(now);
                if now <= before || count <= most {
                    Some(count)
                } else {
                    None
                }
            });
        if counted.is_err() {
            return Err(ErrorKind::QuotaExceeded.into());
        }
        Ok(())
    }

    /// Counts no longer what a connection had.
    pub(crate) fn give_back(&self, len: u64) {
        self.count.fetch_sub(len, Ordering::SeqCst);
    }
}
