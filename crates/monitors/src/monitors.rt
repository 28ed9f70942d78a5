// The clients that watch a bus.

use crate::asking::Owners;
use crate::monitor::Monitor;
use bytes::Bytes;
use match_rule::Rule;
use message_view::View;
use routing::Mailbox;
use std::alloc::{AllocError, Global};
use std::sync::atomic::{AtomicUsize, Ordering};
use std::sync::{Mutex, Wait};

/// The clients that watch all that goes through a bus, as threads share them.
#[derive(Drop)]
pub struct Monitors<M: Mailbox> {
    // How many there are, and how many of them ask who owns a name, which are changed under the lock alone.
    count: AtomicUsize,
    asking: AtomicUsize,
    list: Mutex<Vec<Monitor<M>>>,
}

/// Shows a message to each monitor, and takes away those whose outbox refuses it.
fn show_all<M: Mailbox, W: Wait, O: Owners>(
    list: &mut Vec<Monitor<M>>,
    rt: &W,
    alloc: Global,
    view: &View<'_>,
    bytes: &Bytes,
    owners: &O,
) {
    let mut place = 0;
    'monitors: while place < list.len() {
        if list[place]
            .show(rt, alloc, view, bytes, owners)
            .is_refused()
        {
            list.remove(place);
        } else {
            place += 1;
        }
    }
}

impl<M: Mailbox> Monitors<M> {
    /// Nobody watches, which takes no memory.
    pub fn new(alloc: Global) -> Monitors<M> {
        Monitors {
            count: AtomicUsize::new(0),
            asking: AtomicUsize::new(0),
            list: Mutex::new(Vec::new(alloc)),
        }
    }

    /// Whether nobody watches. It costs one look at a number, without the lock.
    pub fn is_empty(&self) -> bool {
        self.count.load(Ordering::SeqCst) == 0
    }

    /// Whether one that watches has a rule that asks who owns a name, without the lock.
    pub fn ask_for_owners(&self) -> bool {
        self.asking.load(Ordering::SeqCst) > 0
    }

    // Notes how many there are. The list is that under the lock.
    fn note(&self, list: &[Monitor<M>]) {
        let asking = list
            .iter()
            .filter(|monitor| monitor.asks_for_owners())
            .count();
        self.count.store(list.len(), Ordering::SeqCst);
        self.asking.store(asking, Ordering::SeqCst);
    }

    /// Adds a connection's monitor with these rules; without rules it gets everything.
    ///
    /// # Errors
    ///
    /// Memory was refused. Nothing is added then.
    pub fn add<W: Wait>(
        &self,
        rt: &W,
        number: u64,
        mailbox: M,
        rules: Vec<Rule>,
    ) -> Result<(), AllocError> {
        let monitor = Monitor::new(number, mailbox, rules);
        let mut list = self.list.lock(rt);
        list.push(monitor)?;
        self.note(&list);
        Ok(())
    }

    /// Takes away a connection's monitor, if it has one. Where nobody watches it costs one look at a number.
    pub fn remove<W: Wait>(&self, rt: &W, number: u64) {
        if self.is_empty() {
            return;
        }
        let mut list = self.list.lock(rt);
        list.retain(|monitor| monitor.number() != number);
        self.note(&list);
    }

    /// Puts a message into the outbox of each monitor with a rule that holds of it, or without rules, and has it
    /// written out. One whose outbox refuses it, since it is full or shut, gets no more, and is taken away. Where
    /// memory is refused the monitor misses the message.
    pub fn show<W: Wait, O: Owners>(
        &self,
        rt: &W,
        alloc: Global,
        view: &View<'_>,
        bytes: &Bytes,
        owners: &O,
    ) {
        if self.is_empty() {
            return;
        }
        let mut list = self.list.lock(rt);
        let count = list.len();
        show_all(&mut list, rt, alloc, view, bytes, owners);
        if list.len() < count {
            self.note(&list);
        }
    }
}
