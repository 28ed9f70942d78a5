// How much of a long file has been read.

use std::io::Eprint;

/// Files of fewer bytes are read without a word.
const LONG_FILE: u64 = 100_000_000;

/// How much of a long file has been read, and what standard error says of it.
#[derive(Drop)]
pub(crate) struct Progress {
    len: u64,
    read: u64,
    percent: u64,
}

impl Progress {
    /// Of a file of `len` bytes before the first is read, if it is long.
    pub(crate) fn of_file(len: u64) -> Option<Progress> {
        if len < LONG_FILE {
            return None;
        }
        Some(Progress {
            len,
            read: 0,
            percent: 0,
        })
    }

    /// Says how much has been read with the next `count` bytes, where it is one hundredth more. At the file's end, where
    /// no byte comes, the line is taken away. What can't be written is left out.
    pub(crate) fn show<R: Eprint>(&mut self, rt: &R, count: usize) {
        if count == 0 {
            let _ = eprint!(rt; "\r\x1b[K");
            return;
        }
        self.read = self.read.saturating_add(count as u64);
        let percent = (self.read / (self.len / 100).max(1)).min(100);
        if percent > self.percent {
            self.percent = percent;
            let _ = eprint!(rt; "\rdbusfan: {percent} % read");
        }
    }
}
