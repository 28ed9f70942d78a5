// Why a place can't be listened at, in words.

use endpoints::{Address, is_of_descriptors, unescape};
use std::alloc::Global;
use std::fs::Files;
use std::io::ErrorKind;
use std::net::Net;
use std::os::unix::fs::FileTypeExt;
use std::os::unix::net::UnixStream;
use std::{fs, io};

/// Why the number of the bus's own user isn't known.
pub(crate) const NO_USER: &str = "the bus's own user can't be read, since there is no /proc/self";

/// Why an address can't be listened at, where there are words for it.
pub(crate) fn reason_of_address<R: Files + Net>(
    rt: &R,
    alloc: Global,
    address: Address<'_>,
    error: &io::Error,
) -> Option<&'static str> {
    match (address, error.kind()) {
        (Address::Unix { .. }, ErrorKind::ResourceBusy) => Some("a bus is there"),
        (Address::Unix { path }, ErrorKind::AddrInUse) => Some(occupant(rt, alloc, path)),
        (Address::Unix { .. }, ErrorKind::AlreadyExists) => {
            Some("the file .lock or the folder .d beside it isn't this user's alone")
        }
        (Address::Unix { .. }, ErrorKind::Unsupported) => Some(NO_USER),
        (Address::Unix { .. }, ErrorKind::InvalidInput) => {
            Some("a socket's path is UTF-8 and has 107 bytes at most")
        }
        (Address::Abstract { .. }, ErrorKind::InvalidInput) => {
            Some("a socket's name has 107 bytes at most")
        }
        (Address::Abstract { .. }, ErrorKind::AddrInUse) => Some("a program listens there"),
        (Address::Tcp { .. }, kind) => reason_of_port(kind, error),
        _ => reason_of_folder(error),
    }
}

fn reason_of_port(kind: ErrorKind, error: &io::Error) -> Option<&'static str> {
    match kind {
        ErrorKind::AddrInUse => Some("a program listens at that port"),
        ErrorKind::AddrNotAvailable => Some("this machine has no such address"),
        ErrorKind::PermissionDenied => Some("this user may not listen at that port"),
        _ => reason_of_any(error),
    }
}

/// What is at the path of a socket, which is given as an address spells it.
fn occupant<R: Files + Net>(rt: &R, alloc: Global, path: &str) -> &'static str {
    match unescape(alloc, path) {
        Ok(path) => occupant_of(rt, path.as_str()),
        Err(_) => "something is there",
    }
}

fn occupant_of<R: Files + Net>(rt: &R, path: &str) -> &'static str {
    match fs::symlink_metadata(rt, path) {
        Ok(metadata) if metadata.file_type().is_socket() => match UnixStream::connect(rt, path) {
            Ok(_) => "a bus answers there",
            Err(_) => "a socket is there that this user can't connect to",
        },
        Ok(metadata) if metadata.is_dir() => "a folder is there",
        Ok(_) => "a file is there that is no socket",
        Err(_) => "something is there",
    }
}

/// Why a folder can't be made, or a file in it.
pub(crate) fn reason_of_folder(error: &io::Error) -> Option<&'static str> {
    match error.kind() {
        ErrorKind::NotFound => Some("the folder that it is to be in isn't there"),
        ErrorKind::NotADirectory => Some("a file stands where a folder is wanted"),
        ErrorKind::PermissionDenied => Some("this user may not write there"),
        ErrorKind::AlreadyExists => Some("it is there already"),
        ErrorKind::ReadOnlyFilesystem => Some("the file system is read-only"),
        ErrorKind::StorageFull | ErrorKind::QuotaExceeded => Some("the disk is full"),
        _ => reason_of_any(error),
    }
}

fn reason_of_any(error: &io::Error) -> Option<&'static str> {
    if is_of_descriptors(error) {
        Some("no descriptor is left")
    } else {
        None
    }
}
