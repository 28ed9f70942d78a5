// The files of Unix sockets.

use crate::node::Node;
use crate::own::{is_own_folder, make_own_folder, own_user};
use crate::socket_lock::SocketLock;
use std::alloc::Global;
use std::fs::{File, Files, Permissions};
use std::io::ErrorKind;
use std::net::Net;
use std::os::unix::fs::{FileTypeExt, PermissionsExt};
use std::os::unix::net::{UnixListener, UnixStream};
use std::{fs, io};

/// Only the user that runs the bus connects.
const OWNER_ALONE: u32 = 0o600;

/// A socket's file that this process has made.
#[derive(Drop)]
pub struct SocketFile {
    path: String,
    node: Node,
    lock: SocketLock,
}

impl SocketFile {
    /// Listens at a path. A socket file at which nobody listens, as a server leaves it that was killed, is removed first.
    ///
    /// # Errors
    ///
    /// `ResourceBusy` where another bus has the path, `AddrInUse` where anything else is there, `AlreadyExists` where the
    /// lock's file or the socket's folder isn't this user's alone, `Unsupported` where this user's number can't be read,
    /// and what the system refuses.
    pub(crate) fn bind<R: Files<File = File> + Net>(
        rt: &R,
        alloc: Global,
        path: &str,
    ) -> io::Result<(UnixListener, SocketFile)> {
        let owned = String::from_str(alloc, path)?;
        let user = own_user(rt)?;
        let lock = SocketLock::take(rt, alloc, path, user)?;
        match bind_at(rt, alloc, path, user) {
            Ok((listener, node)) => Ok((
                listener,
                SocketFile {
                    path: owned,
                    node,
                    lock,
                },
            )),
            Err(error) => {
                lock.release(rt);
                Err(error)
            }
        }
    }

    /// The number of this process's user, if the file lies in a folder that is that user's, and nobody else but root
    /// enters it.
    pub(crate) fn only_user<R: Files>(&self, rt: &R) -> Option<u32> {
        let user = own_user(rt).ok()?;
        match is_own_folder(rt, folder_of(self.path.as_str()), user) {
            Ok(true) => Some(user),
            _ => None,
        }
    }

    /// Removes the file, and nothing else that may stand there by now.
    pub(crate) fn remove<R: Files>(self, rt: &R) {
        let SocketFile { path, node, lock } = self;
        if let Ok(there) = Node::at(rt, path.as_str())
            && there == node
        {
            let _ = fs::remove_file(rt, path.as_str());
        }
        lock.release(rt);
    }
}

/// The folder of a path.
fn folder_of(path: &str) -> &str {
    match path.rsplit_once('/') {
        Some((folder, _)) if !folder.is_empty() => folder,
        Some(_) => "/",
        None => ".",
    }
}

/// Listens at a path where this process alone may.
fn bind_at<R: Files + Net>(
    rt: &R,
    alloc: Global,
    path: &str,
    user: u32,
) -> io::Result<(UnixListener, Node)> {
    if is_stale(rt, path) {
        fs::remove_file(rt, path)?;
    }
    let folder = format!(in alloc; "{path}.d")?;
    let made = format!(in alloc; "{path}.d/s")?;
    let (folder, made) = (folder.as_str(), made.as_str());
    make_own_folder(rt, folder, user)?;
    // What a bus leaves that was killed while it made its socket.
    remove_socket(rt, made);
    let bound = bind_and_link(rt, made, path);
    remove_socket(rt, made);
    let _ = fs::remove_dir(rt, folder);
    bound
}

fn remove_socket<R: Files>(rt: &R, path: &str) {
    if is_socket(rt, path) {
        let _ = fs::remove_file(rt, path);
    }
}

/// Listens at a path that others can't enter, and gives the socket its place only when it has its mode. A path that has
/// room for the place alone is bound there at once.
fn bind_and_link<R: Files + Net>(
    rt: &R,
    made: &str,
    path: &str,
) -> io::Result<(UnixListener, Node)> {
    let listener = match UnixListener::bind(rt, made) {
        Err(error) if error.kind() == ErrorKind::InvalidInput => return bind_openly(rt, path),
        bound => bound?,
    };
    let node = close_to_others(rt, made)?;
    match fs::hard_link(rt, made, path) {
        Ok(()) => Ok((listener, node)),
        Err(error) if error.kind() == ErrorKind::AlreadyExists => {
            Err(io::Error::from(ErrorKind::AddrInUse))
        }
        Err(error) => Err(error),
    }
}

fn bind_openly<R: Files + Net>(rt: &R, path: &str) -> io::Result<(UnixListener, Node)> {
    let listener = UnixListener::bind(rt, path)?;
    Ok((listener, close_to_others(rt, path)?))
}

fn close_to_others<R: Files>(rt: &R, path: &str) -> io::Result<Node> {
    fs::set_permissions(rt, path, Permissions::from_mode(OWNER_ALONE))?;
    Node::at(rt, path)
}

/// Whether the path is a socket's file that refuses connections. A plain file refuses them too, so the kind is looked
/// at first: a file of another kind is never removed.
fn is_stale<R: Files + Net>(rt: &R, path: &str) -> bool {
    is_socket(rt, path)
        && match UnixStream::connect(rt, path) {
            Ok(_) => false,
            Err(error) => error.kind() == ErrorKind::ConnectionRefused,
        }
}

fn is_socket<R: Files>(rt: &R, path: &str) -> bool {
    match fs::symlink_metadata(rt, path) {
        Ok(metadata) => metadata.file_type().is_socket(),
        Err(_) => false,
    }
}
