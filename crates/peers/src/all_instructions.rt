// The instructions of the programs that all clients have attached.

use std::sync::Arc;
use std::sync::atomic::{AtomicU64, Ordering};

/// How many instructions the attached programs of all clients together may have, so that there is a bound to what one
/// signal costs. The peers of a bus share one.
#[derive(Drop)]
pub struct AllInstructions {
    count: AtomicU64,
    most: u64,
}

impl AllInstructions {
    /// Room for this many.
    pub fn new(most: u32) -> AllInstructions {
        AllInstructions {
            count: AtomicU64::new(0),
            most: u64::from(most),
        }
    }

    /// Counts this many more. Where there is no room for them it answers false, and nothing changes.
    fn take(&self, len: u64) -> bool {
        let most = self.most;
        self.count
            .fetch_update(Ordering::SeqCst, Ordering::SeqCst, |count| {
                let count = count.saturating_add(len);
                if count <= most { Some(count) } else { None }
            })
            .is_ok()
    }

    fn give_back(&self, len: u64) {
        self.count.fetch_sub(len, Ordering::SeqCst);
    }
}

/// How many of them one client has, which are given back when it is dropped.
pub(crate) struct Taken {
    // None of a client whose instructions nobody counts.
    all: Option<Arc<AllInstructions>>,
    len: u64,
}

impl Taken {
    /// Of a client whose instructions nobody counts.
    pub(crate) fn not_counted() -> Taken {
        Taken { all: None, len: 0 }
    }

    /// Of a client that has none yet.
    pub(crate) fn of(all: Arc<AllInstructions>) -> Taken {
        Taken {
            all: Some(all),
            len: 0,
        }
    }

    /// Takes this many more, if there is room for them.
    pub(crate) fn take(&mut self, len: usize) -> bool {
        let len = len as u64;
        if let Some(all) = &self.all {
            if !all.take(len) {
                return false;
            }
            self.len = self.len.saturating_add(len);
        }
        true
    }

    /// Gives back all but this many.
    pub(crate) fn keep(&mut self, len: u64) {
        if let Some(all) = &self.all {
            all.give_back(self.len.saturating_sub(len));
            self.len = self.len.min(len);
        }
    }
}

impl Drop for Taken {
    fn drop(self) {
        let Taken { all, len } = self;
        if let Some(all) = all {
            all.give_back(len);
        }
    }
}
