// The files that are there in a case.

ghost use Rattle.std.specs.Prelude.{⊤};

use case_files::LineError;
use dbusfan_tool::{FileError, Files};
use std::alloc::Global;

/// How many bytes of a file come at once.
const PIECE_LEN: usize = 7;

/// The two files of a case, each spelled as its name, `=` and its bytes, or as nothing where there is none. Standard
/// input, whose name is `-`, is at its end once it was read.
#[derive(Drop)]
pub struct CaseFiles<'a> {
    first: &'a [u8],
    second: &'a [u8],
    input_was_read: bool,
    /// What of the open file is to come.
    rest: &'a [u8],
}

impl<'a> CaseFiles<'a> {
    pub fn new(first: &'a [u8], second: &'a [u8]) -> Result<CaseFiles<'a>, LineError> {
        if !is_spelled(first) || !is_spelled(second) {
            return Err(LineError::Unreadable);
        }
        Ok(CaseFiles {
            first,
            second,
            input_was_read: false,
            rest: b"",
        })
    }

    fn content(&mut self, name: &str) -> Result<&'a [u8], FileError> {
        let found = content(self.first, name).or(content(self.second, name));
        let bytes = found.ok_or(FileError::File)?;
        if name != "-" {
            return Ok(bytes);
        }
        let was_read = self.input_was_read;
        self.input_was_read = true;
        Ok(if was_read { b"" } else { bytes })
    }
}

impl<'a> Files for CaseFiles<'a> {
    // Nothing is known of what a case gives.
    ghost gives = { λ _ _ _ _. ⊤ };

    fn read(&mut self, alloc: Global, name: &str) -> Result<Vec<u8>, FileError> {
        let bytes = self.content(name)?;
        match Vec::from_slice(alloc, bytes) {
            Ok(read) => Ok(read),
            Err(_) => Err(FileError::Memory),
        }
    }

    fn open(&mut self, name: &str) -> Result<(), FileError> {
        self.rest = self.content(name)?;
        Ok(())
    }

    /// Pieces of a few bytes, so that the packets of a capture come in parts.
    fn read_piece(&mut self, bytes: &mut Vec<u8>) -> Result<bool, FileError> {
        if self.rest.is_empty() {
            return Ok(false);
        }
        let (piece, rest) = self.rest.split_at(self.rest.len().min(PIECE_LEN));
        self.rest = rest;
        match bytes.extend_from_slice(piece) {
            Ok(()) => Ok(true),
            Err(_) => Err(FileError::Memory),
        }
    }
}

fn is_spelled(field: &[u8]) -> bool {
    field.is_empty() || field.contains(&b'=')
}

/// The bytes that a field spells of the file with this name.
fn content<'a>(field: &'a [u8], name: &str) -> Option<&'a [u8]> {
    field.strip_prefix(name.as_bytes())?.strip_prefix(b"=")
}
