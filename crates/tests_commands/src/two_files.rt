// Files in memory.

ghost use Rattle.std.specs.Prelude.{⊤};

use dbusfan_tool::{FileError, Files};
use std::alloc::Global;

/// A signal with path `/a`, interface `a.b` and member `c`, without its line's end.
pub const S1: &str =
    "6c04000100000000010000002a00000001016f00020000002f610000000000000201730003000000612e62000000000003017300010000006300000000000000";

/// A program's file `P` and a message's file `F`.
#[derive(Drop)]
pub struct TwoFiles<'a> {
    pub program: &'a [u8],
    pub message: &'a [u8],
    /// What of the open file is to come.
    rest: &'a [u8],
}

impl<'a> TwoFiles<'a> {
    pub fn new(program: &'a [u8], message: &'a [u8]) -> TwoFiles<'a> {
        TwoFiles {
            program,
            message,
            rest: b"",
        }
    }

    fn content(&self, name: &str) -> Result<&'a [u8], FileError> {
        match name {
            "P" => Ok(self.program),
            "F" => Ok(self.message),
            _ => Err(FileError::File),
        }
    }
}

impl<'a> Files for TwoFiles<'a> {
    // The tests ask nothing of what they give.
    ghost gives = { λ _ _ _ _. ⊤ };

    fn read(&mut self, alloc: Global, name: &str) -> Result<Vec<u8>, FileError> {
        let bytes = self.content(name)?;
        Vec::from_slice(alloc, bytes).map_err(|_| FileError::Memory)
    }

    fn open(&mut self, name: &str) -> Result<(), FileError> {
        self.rest = self.content(name)?;
        Ok(())
    }

    fn read_piece(&mut self, bytes: &mut Vec<u8>) -> Result<bool, FileError> {
        let piece = self.rest;
        if piece.is_empty() {
            return Ok(false);
        }
        self.rest = b"";
        match bytes.extend_from_slice(piece) {
            Ok(()) => Ok(true),
            Err(_) => Err(FileError::Memory),
        }
    }
}
