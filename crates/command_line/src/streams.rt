// The streams of the system.

ghost use Rattle.std.specs.Prelude.{⊤};
ghost use Rattle.std.specs.Io.KnownBytes.{Appends, Keeps};

use crate::writer::Writer;
use std::io;
use std::io::Write;

/// A stream of the system, of which any call may fail.
#[derive(Drop)]
pub struct Stream<W> {
    writer: W,
}

impl<W: Write> Stream<W> {
    pub fn new(writer: W) -> Stream<W> {
        Stream { writer }
    }
}

impl<W: Write> Writer for Stream<W> {
    ghost takes = { λ before bytes after. Appends (W.contents before.writer) (W.contents after.writer) bytes };

    // What a flush does outside of the process isn't known.
    ghost flushes = { λ before after. Keeps (W.contents before.writer) (W.contents after.writer) };

    ghost may_fail = { λ _. ⊤ };

    fn take_all(&mut self, text: &[u8]) -> io::Result<()> {
        self.writer.write_all(text)
    }

    fn flush_all(&mut self) -> io::Result<()> {
        self.writer.flush()
    }
}
