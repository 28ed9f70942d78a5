// Which file it is.

use std::fs::{Files, Metadata};
use std::os::unix::fs::MetadataExt;
use std::{fs, io};

/// Which file of the system it is, whatever its path.
#[derive(Clone, Copy, PartialEq, Eq)]
pub(crate) struct Node {
    device: u64,
    inode: u64,
}

impl Node {
    pub(crate) fn of(metadata: &Metadata) -> Node {
        Node {
            device: metadata.dev(),
            inode: metadata.ino(),
        }
    }

    /// What is at a path, which may be a link.
    pub(crate) fn at<R: Files>(rt: &R, path: &str) -> io::Result<Node> {
        Ok(Node::of(&fs::symlink_metadata(rt, path)?))
    }
}
