// Where output goes.

ghost use Rattle.std.specs.Prelude.{◌≡◌, false};

use crate::error::Fault;
use crate::writer::Writer;
use std::alloc::Global;

/// A writer, and whether a call of it has failed.
#[derive(Drop)]
pub struct Output<W> {
    pub writer: W,
    pub has_failed: bool,
}

impl<W: Writer> Output<W> {
    ghost use Rattle.command_line.specs.Output.{Puts};
    ghost use Rattle.command_line.specs.Errors.{fault_line};

    /// Output to a writer of which no call has failed.
    pub fn new(writer: W) -> Output<W>
        ensures writer { result.writer ≡ writer }
        ensures fine { result.has_failed ≡ false }
    {
        Output {
            writer,
            has_failed: false,
        }
    }

    /// Writes a text and flushes it. Nothing is asked of the writer where there is none.
    pub fn put(&mut self, text: &[u8])
        ensures { Puts W.takes W.flushes W.may_fail self.old self.new text.now }
    {
        if text.is_empty() {
            return;
        }
        if self.writer.take_all(text).is_err() || self.writer.flush_all().is_err() {
            self.has_failed = true;
        }
    }

    /// Writes a line for people, which says more of a fault, after the fault's own, if there is memory for it. The line is
    /// written as a whole.
    pub fn put_reason(&mut self, alloc: Global, reason: &str) {
        if let Ok(line) = format!(in alloc; "  {reason}\n") {
            self.put(line.as_bytes());
        }
    }

    /// Writes the line of a fault and flushes it. The line is written as a whole, so that no other program's text comes
    /// into it.
    pub fn put_fault(&mut self, fault: Fault)
        ensures { Puts W.takes W.flushes W.may_fail self.old self.new (fault_line fault) }
    {
        self.put(fault.line().as_str().as_bytes());
    }
}
