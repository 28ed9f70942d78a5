// The first bytes of a file.

ghost use Rattle.std.specs.Prelude.{ℕ, List, []};
ghost use Rattle.command_line.specs.Files.{Begun};
ghost use Rattle.dbusfan_tool.specs.FirstBytes.{HasBegun, ReadsRest};
ghost use Rattle.dbusfan_tool.specs.CaptureSteps.{so_far};

use command_line::{FileError, Files};
use std::alloc::Global;

/// As many bytes say whether a file is a capture.
const SURE_LEN: usize = 12;

/// The first bytes of a file, and whether more of them may come.
#[derive(Drop)]
pub(crate) struct Beginning {
    pub(crate) bytes: Vec<u8>,
    pub(crate) is_open: bool,
}

impl Beginning {
    /// Reads of the open file until its first bytes say whether it is a capture.
    pub(crate) fn read<F: Files>(alloc: Global, files: &mut F) -> Result<Beginning, FileError>
        ensures { (before : F) (name : List ℕ) → F.gives before name (Begun []) files.old → HasBegun (λ content. F.gives before name content files.new) result }
    {
        let mut bytes = Vec::new(alloc);
        for _ in 0..u64::MAX {
            if bytes.len() >= SURE_LEN {
                return Ok(Beginning {
                    bytes,
                    is_open: true,
                });
            }
            if !files.read_piece(&mut bytes)? {
                return Ok(Beginning {
                    bytes,
                    is_open: false,
                });
            }
        }
        Err(FileError::Memory)
    }

    /// All bytes of the file.
    pub(crate) fn read_rest<F: Files>(self, files: &mut F) -> Result<Vec<u8>, FileError>
        ensures { (before : F) (name : List ℕ) → F.gives before name (so_far self.is_open self.bytes.items) files.old → ReadsRest self.is_open self.bytes.items (λ content. F.gives before name content files.new) result }
    {
        let Beginning { mut bytes, is_open } = self;
        if !is_open {
            return Ok(bytes);
        }
        for _ in 0..u64::MAX {
            if !files.read_piece(&mut bytes)? {
                return Ok(bytes);
            }
        }
        Err(FileError::Memory)
    }
}
