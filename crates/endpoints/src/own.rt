// What belongs to the user that this process runs as.

use std::fs::{DirBuilder, Files};
use std::io::ErrorKind;
use std::os::unix::fs::{DirBuilderExt, MetadataExt};
use std::{fs, io};

/// The folder of this process's numbers, which belongs to its user (proc(5)).
const OWN_PROCESS: &str = "/proc/self";

/// Only the user enters the folder.
const OWNER_ENTERS: u32 = 0o700;

/// The bits of a mode that say who may do what.
const PERMISSIONS: u32 = 0o777;

/// The number of the user that this process runs as.
///
/// # Errors
///
/// `Unsupported` where there is no `/proc`.
pub fn own_user<R: Files>(rt: &R) -> io::Result<u32> {
    match fs::metadata(rt, OWN_PROCESS) {
        Ok(metadata) => Ok(metadata.uid()),
        Err(_) => Err(io::Error::from(ErrorKind::Unsupported)),
    }
}

/// Makes a folder that this user alone enters, or takes the one that is there. Where others write beside it, as in /tmp,
/// one of them may have put something else there: a link is not followed.
///
/// # Errors
///
/// `AlreadyExists` where anything else is there, and what the system refuses.
pub(crate) fn make_own_folder<R: Files>(rt: &R, path: &str, user: u32) -> io::Result<()> {
    match DirBuilder::new().mode(OWNER_ENTERS).create(rt, path) {
        Err(error) if error.kind() != ErrorKind::AlreadyExists => return Err(error),
        _ => {}
    }
    if is_own_folder(rt, path, user)? {
        Ok(())
    } else {
        Err(io::Error::from(ErrorKind::AlreadyExists))
    }
}

/// Whether a folder is this user's, and nobody else but root enters it. A link is not followed.
pub(crate) fn is_own_folder<R: Files>(rt: &R, path: &str, user: u32) -> io::Result<bool> {
    let metadata = fs::symlink_metadata(rt, path)?;
    Ok(metadata.is_dir() && metadata.uid() == user && metadata.mode() & PERMISSIONS == OWNER_ENTERS)
}

/// Whether a plain file of this user is at a path, or nothing. A link is not followed.
///
/// # Errors
///
/// `AlreadyExists` where anything else is there, and what the system refuses.
pub(crate) fn is_own_file<R: Files>(rt: &R, path: &str, user: u32) -> io::Result<bool> {
    match fs::symlink_metadata(rt, path) {
        Ok(metadata) if metadata.is_file() && metadata.uid() == user => Ok(true),
        Ok(_) => Err(io::Error::from(ErrorKind::AlreadyExists)),
        Err(error) if error.kind() == ErrorKind::NotFound => Ok(false),
        Err(error) => Err(error),
    }
}
