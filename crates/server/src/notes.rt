// Notes that wait to be written.

use crate::note::{Note, Verbosity};
use std::alloc::Global;
use std::collections::VecDeque;
use std::mem;
use std::sync::{Condvar, Mutex, Wait};

/// How many notes may wait to be written.
const ROOM: usize = 256;

/// Where notes are written, one after the other.
pub trait Log {
    /// Writes a note. One that can't be written is given up.
    fn write<R: Wait>(&self, rt: &R, note: Note);
}

/// Notes on their way to the one thread that writes them. Whoever leaves a note doesn't wait until it is written.
#[derive(Drop)]
pub(crate) struct Notes {
    waiting: Mutex<Waiting>,
    grown: Condvar,
    verbosity: Verbosity,
}

impl Notes {
    pub(crate) fn new(alloc: Global, verbosity: Verbosity) -> Notes {
        Notes {
            waiting: Mutex::new(Waiting::new(alloc)),
            grown: Condvar::new(),
            verbosity,
        }
    }

    /// Whether any notes are wanted.
    pub(crate) fn are_wanted(&self) -> bool {
        self.verbosity != Verbosity::None
    }

    /// Leaves a note, if such notes are wanted.
    pub(crate) fn leave<R: Wait>(&self, rt: &R, note: Note) {
        if self.verbosity.wants(&note) {
            self.waiting.lock(rt).add(note);
            self.grown.notify_one();
        }
    }

    /// Says that one thread more leaves notes from now on.
    pub(crate) fn begin<R: Wait>(&self, rt: &R) {
        let mut waiting = self.waiting.lock(rt);
        waiting.threads = waiting.threads.saturating_add(1);
    }

    /// Says that a thread leaves no more notes.
    pub(crate) fn finish<R: Wait>(&self, rt: &R) {
        let mut waiting = self.waiting.lock(rt);
        waiting.threads = waiting.threads.saturating_sub(1);
        self.grown.notify_one();
    }

    /// Writes all notes, each as soon as it comes, until no thread leaves any.
    pub(crate) fn write_all<R: Wait, L: Log>(&self, rt: &R, log: &L) {
        for _ in rt.forever() {
            let Some(note) = self.next(rt) else {
                return;
            };
            log.write(rt, note);
        }
    }

    /// The next note, waited for, or `None` after the last one.
    fn next<R: Wait>(&self, rt: &R) -> Option<Note> {
        let mut waiting = self
            .grown
            .wait_while(rt, self.waiting.lock(rt), |waiting| waiting.is_idle());
        waiting.take()
    }
}

#[derive(Drop)]
struct Waiting {
    alloc: Global,
    notes: VecDeque<Box<Note>>,
    // How many found no room since the last one of them.
    lost: u64,
    // How many threads leave notes.
    threads: u32,
}

impl Waiting {
    fn new(alloc: Global) -> Waiting {
        Waiting {
            alloc,
            notes: VecDeque::new(alloc),
            lost: 0,
            threads: 1,
        }
    }

    fn is_idle(&self) -> bool {
        self.notes.is_empty() && self.lost == 0 && self.threads > 0
    }

    fn add(&mut self, note: Note) {
        if !self.has_room() || !self.push(note) {
            self.lost = self.lost.saturating_add(1);
        }
    }

    fn has_room(&self) -> bool {
        self.lost == 0 && self.notes.len() < ROOM
    }

    /// Whether there was memory for it.
    fn push(&mut self, note: Note) -> bool {
        match Box::new(self.alloc, note) {
            Ok(note) => self.notes.push_back(note).is_ok(),
            Err(_) => false,
        }
    }

    /// The next note. Those that found no room come after those that did.
    fn take(&mut self) -> Option<Note> {
        if let Some(note) = self.notes.pop_front() {
            return Some(*note);
        }
        match mem::replace(&mut self.lost, 0) {
            0 => None,
            count => Some(Note::Lost(count)),
        }
    }
}
