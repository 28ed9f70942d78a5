ghost use Rattle.std.specs.Prelude.{◌≡◌, Some};
ghost use Rattle.bpf_code.specs.declared.error.CodeError.TheVariants.{NoMemory};
ghost use Rattle.bpf_code.specs.Numbers.{code_error_number, code_error_name, code_error_place, code_error_text};

use std::alloc::{AllocError, AllocFailed};
use std::fmt;

/// Why bytes, a text or a list of instructions is refused. Lines count from 1, places from 0.
#[derive(Clone, Copy, Debug, PartialEq, Eq)]
pub enum CodeError {
    /// The number of bytes isn't divisible by 8.
    Length,
    /// The code at this place has no row in the table.
    Code(usize),
    /// This line isn't of the text form.
    Line(usize),
    /// A label of this line, or a jump of this place, names no instruction that it may name.
    Label(usize),
    /// A jump of this line is too far.
    FarJump(usize),
    /// Memory was refused.
    NoMemory,
}

impl CodeError {
    /// The error's number, from 1.
    pub fn number(self) -> u8
        ensures { result ≡ code_error_number self }
    {
        match self {
            CodeError::Length => 1,
            CodeError::Code(_) => 2,
            CodeError::Line(_) => 3,
            CodeError::Label(_) => 4,
            CodeError::FarJump(_) => 5,
            CodeError::NoMemory => 6,
        }
    }

    /// The error's name.
    pub fn name(self) -> &'static str
        ensures { result.now ≡ code_error_name self }
    {
        match self {
            CodeError::Length => "Length",
            CodeError::Code(_) => "Code",
            CodeError::Line(_) => "Line",
            CodeError::Label(_) => "Label",
            CodeError::FarJump(_) => "FarJump",
            CodeError::NoMemory => "NoMemory",
        }
    }

    /// The line or the place that is at fault, where the error has one.
    pub fn place(self) -> Option<usize>
        ensures { result ≡ code_error_place self }
    {
        match self {
            CodeError::Code(place)
            | CodeError::Line(place)
            | CodeError::Label(place)
            | CodeError::FarJump(place) => Some(place),
            CodeError::Length | CodeError::NoMemory => None,
        }
    }
}

/// Its name, and ` at ` with its line or place where it has one.
impl fmt::Display for CodeError {
    ghost output = { λ error. Some (code_error_text error) };

    fn fmt<W: fmt::Write>(&self, f: &mut fmt::Formatter<W>) -> fmt::Result {
        let name = self.name();
        match self.place() {
            Some(place) => write!(f, "{name} at {place}"),
            None => f.write_str(name),
        }
    }
}

impl From<AllocError> for CodeError {
    ghost from_gives = { λ _ e. e ≡ NoMemory };

    fn from(_refused: AllocError) -> CodeError {
        CodeError::NoMemory
    }
}

impl<T: Drop> From<AllocFailed<T>> for CodeError {
    ghost from_gives = { λ _ e. e ≡ NoMemory };

    fn from(_refused: AllocFailed<T>) -> CodeError {
        CodeError::NoMemory
    }
}
