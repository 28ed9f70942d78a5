// The lock by which buses tell each other that a path is taken.

use crate::node::Node;
use crate::own::is_own_file;
use std::alloc::Global;
use std::fs::{File, Files, OpenOptions, TryLockError};
use std::io::ErrorKind;
use std::os::unix::fs::OpenOptionsExt;
use std::{fs, io};

/// The lock's file is this user's.
const OWNER_ALONE: u32 = 0o600;

/// How often a lock is tried whose file was made or removed since it was looked for.
const TRIES: u32 = 16;

/// A file beside the socket's, locked for as long as this process has it: the system unlocks it when the process ends,
/// however that is.
#[derive(Drop)]
pub(crate) struct SocketLock {
    path: String,
    // Closing it gives the lock back.
    file: File,
}

impl SocketLock {
    /// The lock of a socket's path.
    ///
    /// # Errors
    ///
    /// `ResourceBusy` where another process has it, `AlreadyExists` where its file is none of this user's, and what the
    /// system refuses.
    pub(crate) fn take<R: Files<File = File>>(
        rt: &R,
        alloc: Global,
        socket: &str,
        user: u32,
    ) -> io::Result<SocketLock> {
        let path = format!(in alloc; "{socket}.lock")?;
        for _ in 0..TRIES {
            let Some(file) = open(rt, path.as_str(), user)? else {
                continue;
            };
            match file.try_lock() {
                Ok(()) if is_at(rt, &file, path.as_str()) => return Ok(SocketLock { path, file }),
                Ok(()) => {}
                Err(TryLockError::WouldBlock) => break,
                Err(TryLockError::Error(error)) => return Err(error),
            }
        }
        Err(io::Error::from(ErrorKind::ResourceBusy))
    }

    /// Removes the file, if it is still there, and gives the lock back after that: who locks it then sees that it is gone.
    pub(crate) fn release<R: Files>(self, rt: &R) {
        if is_at(rt, &self.file, self.path.as_str()) {
            let _ = fs::remove_file(rt, self.path.as_str());
        }
    }
}

/// The lock's file, which is made where it isn't there; none where it was made or removed meanwhile. A new file is never
/// made through a link, and one that is there is opened only if it is a plain file of this user.
fn open<R: Files<File = File>>(rt: &R, path: &str, user: u32) -> io::Result<Option<File>> {
    let mut options = OpenOptions::new();
    options.write(true).mode(OWNER_ALONE);
    let is_new = !is_own_file(rt, path, user)?;
    match options.create_new(is_new).open(rt, path) {
        Ok(file) => Ok(Some(file)),
        Err(error) if is_new && error.kind() == ErrorKind::AlreadyExists => Ok(None),
        Err(error) if !is_new && error.kind() == ErrorKind::NotFound => Ok(None),
        Err(error) => Err(error),
    }
}

/// Whether the file is the one at the path, and no link leads to it: another bus may have removed it at its end, between
/// opening and locking.
fn is_at<R: Files>(rt: &R, file: &File, path: &str) -> bool {
    match (file.metadata(), Node::at(rt, path)) {
        (Ok(locked), Ok(there)) => Node::of(&locked) == there,
        _ => false,
    }
}
