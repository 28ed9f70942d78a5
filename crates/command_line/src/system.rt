// The files of the system.

ghost use Rattle.std.specs.Prelude.{⊤, IfOk};
ghost use Rattle.command_line.specs.Files.{PutsPiece};

use crate::error::Fault;
use crate::files::{FileError, Files};
use crate::progress::Progress;
use std::alloc::Global;
use std::fs::OpenFile;
use std::io::{ErrorKind, Input, Read};
use std::rt::{Files as FileSystem, Runtime};
use std::{env, fs, io};

/// How many bytes of an open file are read at once.
const PIECE_LEN: usize = 65_536;

/// The files of the system by their paths, and standard input as `-`.
#[derive(Drop)]
pub struct System<'a, R: FileSystem + Input> {
    rt: &'a R,
    open: OpenInput<R::File, R::Reader>,
    progress: Option<Progress>,
    shows_progress: bool,
}

/// What is read in pieces.
#[derive(Drop)]
enum OpenInput<F, I> {
    Nothing,
    File(F),
    StandardInput(I),
}

impl<'a, R: Runtime<A = Global>> System<'a, R> {
    /// Files of which nothing is said while they are read.
    pub fn new(rt: &'a R) -> System<'a, R> {
        System::with_progress(rt, false)
    }

    /// Files of which standard error says how much has been read, if they are long and it is a terminal.
    pub fn with_progress(rt: &'a R, is_terminal: bool) -> System<'a, R> {
        System {
            rt,
            open: OpenInput::Nothing,
            progress: None,
            shows_progress: is_terminal,
        }
    }

    /// The bytes of a file. Room for all of them comes first, so that a file that memory can't hold is
    /// refused before it is read.
    fn read_file(&self, alloc: Global, path: &str) -> io::Result<Vec<u8>> {
        let file = fs::open(self.rt, path)?;
        let len = file.metadata()?.len();
        read_all(alloc, file, len)
    }

    fn open_file(&mut self, path: &str) -> io::Result<()> {
        let file = fs::open(self.rt, path)?;
        if self.shows_progress {
            self.progress = Progress::of_file(file.metadata()?.len());
        }
        self.open = OpenInput::File(file);
        Ok(())
    }

    /// Says how much of a long file has been read.
    fn show_progress(&mut self, count: usize) {
        if let Some(progress) = &mut self.progress {
            progress.show(self.rt, count);
        }
    }
}

impl<'a, R: Runtime<A = Global>> Files for System<'a, R> {
    // Nothing is known of what the system gives.
    ghost gives = { λ _ _ _ _. ⊤ };

    fn read(&mut self, alloc: Global, name: &str) -> Result<Vec<u8>, FileError> {
        let read = if name == "-" {
            read_all(alloc, self.rt.reader(), 0)
        } else {
            self.read_file(alloc, name)
        };
        read.map_err(file_error)
    }

    fn open(&mut self, name: &str) -> Result<(), FileError> {
        self.progress = None;
        if name == "-" {
            self.open = OpenInput::StandardInput(self.rt.reader());
            return Ok(());
        }
        self.open_file(name).map_err(file_error)
    }

    fn read_piece(&mut self, bytes: &mut Vec<u8>) -> Result<bool, FileError> {
        let before = bytes.len();
        let read = match &mut self.open {
            OpenInput::Nothing => return Err(FileError::File),
            OpenInput::File(file) => put_piece(file, bytes),
            OpenInput::StandardInput(input) => put_piece(input, bytes),
        };
        self.show_progress(bytes.len().saturating_sub(before));
        read.map_err(file_error)
    }
}

fn file_error(error: io::Error) -> FileError {
    match error.kind() {
        ErrorKind::OutOfMemory => FileError::Memory,
        _ => FileError::File,
    }
}

/// All bytes of a reader; `expected` of them are reserved before the first read.
fn read_all<I: Read + Drop>(alloc: Global, mut input: I, expected: u64) -> io::Result<Vec<u8>> {
    let mut bytes = Vec::new(alloc);
    bytes.reserve(usize::try_from(expected).unwrap_or(usize::MAX))?;
    input.read_to_end(&mut bytes)?;
    Ok(bytes)
}

/// Puts the next bytes of a reader after those that are there, and answers whether there were any.
fn put_piece<I: Read>(input: &mut I, bytes: &mut Vec<u8>) -> io::Result<bool>
    ensures { IfOk result (PutsPiece bytes.old.items bytes.new.items) }
{
    let mut piece = [0u8; PIECE_LEN];
    let len = read_some(input, &mut piece)?;
    bytes.extend_from_slice(piece.split_at(len.min(PIECE_LEN)).0)?;
    Ok(len > 0)
}

/// Reads at least one byte, if there is one.
fn read_some<I: Read>(input: &mut I, piece: &mut [u8]) -> io::Result<usize> {
    for _ in 0..u64::MAX {
        match input.read(piece) {
            Err(error) if error.kind() == ErrorKind::Interrupted => {}
            read => return read,
        }
    }
    Ok(0)
}

/// The words that the program was called with, its name first. Words that aren't UTF-8 are no row of the command line.
pub fn args<R: Runtime<A = Global>>(rt: &R) -> Result<Vec<String>, Fault> {
    match all_args(rt) {
        Ok(args) => Ok(args),
        Err(error) if error.kind() == ErrorKind::OutOfMemory => Err(Fault::Memory),
        Err(_) => Err(Fault::Usage),
    }
}

fn all_args<R: Runtime<A = Global>>(rt: &R) -> io::Result<Vec<String>> {
    let args: Vec<String> = env::args(rt)?.collect(rt.alloc())?;
    Ok(args)
}
