ghost use Rattle.std.specs.Prelude.{◌≡◌, Some};
ghost use Rattle.bpf_verify.specs.Numbers.{verify_error_number, verify_error_name, verify_error_sentence, verify_error_place, verify_error_text};

use std::fmt;

/// Why a program is refused, with the place of the instruction, from 0.
#[derive(Clone, Copy, Debug, PartialEq, Eq)]
pub enum VerifyError {
    /// There is no instruction.
    Empty,
    /// There are more than 4,096 instructions.
    TooMany,
    /// The code has no row in the table.
    Code(usize),
    /// A constant division or remainder by 0.
    ZeroDivisor(usize),
    /// A constant shift of 32 or more.
    Shift(usize),
    /// A scratch number above 15.
    Scratch(usize),
    /// A jump that leaves the program.
    Jump(usize),
    /// The last instruction is no return.
    Last(usize),
    /// Some path reads a scratch word that is not stored on it.
    Unset(usize),
    /// A load that names an ancillary word.
    Ancillary(usize),
    /// Memory was refused, which `verify` never answers.
    NoMemory,
}

impl VerifyError {
    /// The error's number, from 1.
    pub fn number(self) -> u8
        ensures { result ≡ verify_error_number self }
    {
        match self {
            VerifyError::Empty => 1,
            VerifyError::TooMany => 2,
            VerifyError::Code(_) => 3,
            VerifyError::ZeroDivisor(_) => 4,
            VerifyError::Shift(_) => 5,
            VerifyError::Scratch(_) => 6,
            VerifyError::Jump(_) => 7,
            VerifyError::Last(_) => 8,
            VerifyError::Unset(_) => 9,
            VerifyError::Ancillary(_) => 10,
            VerifyError::NoMemory => 11,
        }
    }

    /// The error's name.
    pub fn name(self) -> &'static str
        ensures { result.now ≡ verify_error_name self }
    {
        match self {
            VerifyError::Empty => "Empty",
            VerifyError::TooMany => "TooMany",
            VerifyError::Code(_) => "Code",
            VerifyError::ZeroDivisor(_) => "ZeroDivisor",
            VerifyError::Shift(_) => "Shift",
            VerifyError::Scratch(_) => "Scratch",
            VerifyError::Jump(_) => "Jump",
            VerifyError::Last(_) => "Last",
            VerifyError::Unset(_) => "Unset",
            VerifyError::Ancillary(_) => "Ancillary",
            VerifyError::NoMemory => "NoMemory",
        }
    }

    /// What is wrong, for people.
    pub fn sentence(self) -> &'static str
        ensures { result.now ≡ verify_error_sentence self }
    {
        match self {
            VerifyError::Empty => "there is no instruction",
            VerifyError::TooMany => "there are more than 4,096 instructions",
            VerifyError::Code(_) => "there is no such instruction",
            VerifyError::ZeroDivisor(_) => "it divides by 0",
            VerifyError::Shift(_) => "it shifts by 32 or more",
            VerifyError::Scratch(_) => "scratch words are 0 to 15",
            VerifyError::Jump(_) => "it jumps out of the program",
            VerifyError::Last(_) => "the last instruction has to be a return",
            VerifyError::Unset(_) => "a way to it does not store the scratch word that it reads",
            VerifyError::Ancillary(_) => "it loads a word that no message has",
            VerifyError::NoMemory => "there is no memory",
        }
    }

    /// The place of the instruction that is at fault, where the error has one.
    pub fn place(self) -> Option<usize>
        ensures { result ≡ verify_error_place self }
    {
        match self {
            VerifyError::Code(place)
            | VerifyError::ZeroDivisor(place)
            | VerifyError::Shift(place)
            | VerifyError::Scratch(place)
            | VerifyError::Jump(place)
            | VerifyError::Last(place)
            | VerifyError::Unset(place)
            | VerifyError::Ancillary(place) => Some(place),
            VerifyError::Empty | VerifyError::TooMany | VerifyError::NoMemory => None,
        }
    }
}

/// Its name, and ` at ` with its place where it has one.
impl fmt::Display for VerifyError {
    ghost output = { λ error. Some (verify_error_text error) };

    fn fmt<W: fmt::Write>(&self, f: &mut fmt::Formatter<W>) -> fmt::Result {
        let name = self.name();
        match self.place() {
            Some(place) => write!(f, "{name} at {place}"),
            None => f.write_str(name),
        }
    }
}
