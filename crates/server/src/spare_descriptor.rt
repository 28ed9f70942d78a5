// A spare descriptor.

use endpoints::{Link, Listener};
use std::fs::{File, Files};
use std::io;

/// A file that can always be opened (null(4)).
const NOTHING: &str = "/dev/null";

/// A descriptor that is kept for the moment in which no other is left: without one a client that waits in the system's
/// queue could not even be told to go.
#[derive(Drop)]
pub(crate) struct SpareDescriptor {
    file: Option<File>,
    // Connections are closed for want of another one.
    is_needed: bool,
}

impl SpareDescriptor {
    pub(crate) fn new<R: Files<File = File>>(rt: &R) -> SpareDescriptor {
        SpareDescriptor {
            file: File::open(rt, NOTHING).ok(),
            is_needed: false,
        }
    }

    /// Notes whether a connection was closed for want of a descriptor. Answers whether it is the first one since others
    /// weren't.
    pub(crate) fn note(&mut self, is_needed: bool) -> bool {
        let was_needed = self.is_needed;
        self.is_needed = is_needed;
        is_needed && !was_needed
    }

    fn refill<R: Files<File = File>>(&mut self, rt: &R) {
        self.file = File::open(rt, NOTHING).ok();
    }

    /// Accepts the next connection by the spare descriptor, and closes it. If another descriptor came back
    /// meanwhile, that is the spare one, and the connection is answered.
    pub(crate) fn accept<R: Files<File = File>>(
        &mut self,
        rt: &R,
        listener: &Listener,
    ) -> io::Result<Option<Link>> {
        self.file = None;
        let accepted = listener.accept();
        self.refill(rt);
        match accepted {
            Ok(link) if self.file.is_some() => Ok(Some(link)),
            Ok(link) => {
                drop(link);
                self.refill(rt);
                Ok(None)
            }
            Err(error) => Err(error),
        }
    }
}
