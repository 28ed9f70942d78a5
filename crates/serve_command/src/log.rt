// The log, on standard error.

use command_line::{Output, Writer};
use server::{Log, Note};
use std::alloc::Global;
use std::sync::{Mutex, Wait};

/// Writes each note as one line, at once and as a whole.
#[derive(Drop)]
pub(crate) struct Lines<'a, E> {
    alloc: Global,
    err: Mutex<&'a mut Output<E>>,
}

impl<'a, E> Lines<'a, E> {
    pub(crate) fn new(alloc: Global, err: &'a mut Output<E>) -> Lines<'a, E> {
        Lines {
            alloc,
            err: Mutex::new(err),
        }
    }
}

impl<'a, E: Writer> Log for Lines<'a, E> {
    fn write<R: Wait>(&self, rt: &R, note: Note) {
        if let Ok(line) = format!(in self.alloc; "dbusfan: {note}\n") {
            self.err.lock(rt).put(line.as_bytes());
        }
    }
}
