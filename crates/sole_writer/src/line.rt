// What a sole writer writes to.

use std::io;
use std::sync::Wait;

/// How a line stands after a call.
#[derive(Clone, Copy, PartialEq, Eq)]
pub enum Stand {
    /// Nothing is left to write.
    Drained,
    /// More is there, for which there is no room, or which is for the next call.
    Waiting,
}

/// Where the messages come from that are written, and where they go.
pub trait Line: Drop {
    /// Writes what waits, as far as there is room.
    fn write_out<R: Wait>(&mut self, rt: &R) -> Stand;

    /// Whether what waits is never to be written, since a message found no room.
    fn is_shut(&mut self) -> bool;

    /// Writes nothing from now on, and closes the line.
    fn give_up(&mut self);

    /// Has the poll tell of room, also of room that is there now, or no longer.
    fn ask_for_room(&mut self, is_wanted: bool) -> io::Result<()>;
}
