// What a command has to say.

ghost use Rattle.std.specs.Prelude.{◌≡◌};
ghost use Rattle.dbusfan_tool.specs.Answer.{Tells};
ghost use Rattle.dbusfan_tool.specs.Views.{said_by};
ghost use Rattle.command_line.specs.Output.{Puts};

use command_line::{Fault, Output, Writer};

/// What a command has to say.
#[derive(Drop)]
pub(crate) enum Answer {
    /// A text for standard output.
    Text(String),
    /// A text for standard output, one for standard error, and the status.
    Report {
        output: String,
        notes: String,
        status: u8,
    },
    Fault(Fault),
}

impl Answer {
    fn output(&self) -> &[u8]
        ensures { result.now ≡ (said_by self.now).output }
    {
        match self {
            Answer::Text(text) => text.as_bytes(),
            Answer::Report { output, .. } => output.as_bytes(),
            Answer::Fault(_) => b"",
        }
    }

    fn status(&self) -> u8
        ensures { result ≡ (said_by self.now).status }
    {
        match self {
            Answer::Text(_) => 0,
            Answer::Report { status, .. } => *status,
            Answer::Fault(fault) => fault.status(),
        }
    }

    /// Writes the answer on `out`, and answers the status. A failure of `out` is a fault of its own, which is written
    /// on `err`.
    pub(crate) fn tell<O: Writer, E: Writer>(&self, out: &mut Output<O>, err: &mut Output<E>) -> u8
        ensures { Tells (said_by self.now) (λ lines. Puts O.takes O.flushes O.may_fail out.old out.new)
            (Puts E.takes E.flushes E.may_fail err.old err.new) out.new.has_failed result }
    {
        out.put(self.output());
        if out.has_failed {
            err.put_fault(Fault::File);
            return Fault::File.status();
        }
        match self {
            Answer::Report { notes, .. } => err.put(notes.as_bytes()),
            Answer::Fault(fault) => err.put_fault(*fault),
            _ => {}
        }
        self.status()
    }
}
