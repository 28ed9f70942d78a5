// Writers.

ghost use Rattle.std.specs.Prelude.{◌≡◌, ℕ, List, ◌++◌, ⊤, IsOk, OnOk, OnErr, IfErr};
ghost use Rattle.std.specs.IoError.{error_kind};

use std::alloc::{AllocError, Allocator};
use std::io;
use std::io::ErrorKind;

/// Takes texts as a whole, and may keep them back until it is flushed.
pub trait Writer {
    // A writer before it takes some bytes, those bytes, and the writer after.
    ghost takes: { Self → List ℕ → Self → Type 0 };

    // A writer before all that it took is flushed, and after.
    ghost flushes: { Self → Self → Type 0 };

    // That a call may fail.
    ghost may_fail: { Self → Type 0 };

    /// Takes the whole text. An `Err` leaves open how much of it was taken.
    fn take_all(&mut self, text: &[u8]) -> io::Result<()>
        ensures taken { OnOk result (takes self.old text.now self.new) }
        ensures fault { OnErr result (may_fail self.old) }
        ensures steady { may_fail self.new → may_fail self.old };

    /// Sends on what it kept back.
    fn flush_all(&mut self) -> io::Result<()>
        ensures flushed { OnOk result (flushes self.old self.new) }
        ensures fault { OnErr result (may_fail self.old) }
        ensures steady { may_fail self.new → may_fail self.old };
}

/// Bytes in memory keep nothing back. They fail where memory is refused.
impl<A: Allocator> Writer for Vec<u8, A> {
    ghost takes = { λ before bytes after. after.items ≡ before.items ++ bytes };

    ghost flushes = { λ before after. after.items ≡ before.items };

    ghost may_fail = { λ _. ⊤ };

    fn take_all(&mut self, text: &[u8]) -> io::Result<()>
        ensures taken { OnOk result (self.new.items ≡ self.old.items ++ text.now) }
        ensures fault { IfErr result (λ error. error_kind error ≡ ErrorKind.OutOfMemory) }
    {
        self.extend_from_slice(text).map_err(of_memory)
    }

    fn flush_all(&mut self) -> io::Result<()>
        ensures kept { self.new.items ≡ self.old.items }
        ensures fine { IsOk result }
    {
        Ok(())
    }
}

fn of_memory(_refused: AllocError) -> io::Error
    ensures { error_kind result ≡ ErrorKind.OutOfMemory }
{
    io::Error::from(ErrorKind::OutOfMemory)
}
