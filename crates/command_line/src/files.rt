// Where files come from.

ghost use Rattle.std.specs.Prelude.{ℕ, List};
ghost use Rattle.command_line.specs.Files.{Content, Begun, ReadsFile, OpensFile, ReadsPiece};

use std::alloc::Global;

/// Why a file gave no bytes.
#[derive(Clone, Copy, Debug, PartialEq, Eq)]
pub enum FileError {
    /// It isn't there, or it can't be read.
    File,
    Memory,
}

/// Files by their names. `-` is standard input.
pub trait Files {
    // The files before one is read, its name, what it gives, and the files after. Of an open file that is what it gave
    // since it was opened.
    ghost gives: { Self → List ℕ → Content → Self → Type 0 };

    /// The bytes of a file. A second read may give others, as of standard input.
    fn read(&mut self, alloc: Global, name: &str) -> Result<Vec<u8>, FileError>
        ensures { ReadsFile (λ content. gives self.old name.now content self.new) result };

    /// Opens a file, in place of the one that may be open.
    fn open(&mut self, name: &str) -> Result<(), FileError>
        ensures { OpensFile (λ content. gives self.old name.now content self.new) result };

    /// Puts the next bytes of the open file after those that are there, and answers whether there were any. Where there
    /// are none it has ended.
    fn read_piece(&mut self, bytes: &mut Vec<u8>) -> Result<bool, FileError>
        ensures { (before : Self) (name came : List ℕ) → gives before name (Begun came) self.old
            → ReadsPiece (λ content. gives before name content self.new) came bytes.old.items bytes.new.items result };
}
