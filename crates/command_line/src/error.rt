// What a command line is refused for.

ghost use Rattle.std.specs.Prelude.{◌≡◌, ◌+◌, ◌≤◌, ◌++◌, length, Some};
ghost use Rattle.bpf_code.specs.Numbers.{text_at};
ghost use Rattle.command_line.specs.Errors.{fault_line, fault_text, fault_status, fault_of_rule, fault_of_filter, fault_of_code, fault_of_file, fault_of_hex};
ghost use Rattle.command_line.specs.declared.error.Fault.TheVariants.{Memory, Message};

use crate::files::FileError;
use crate::hex_text::HexError;
use arrayvec::ArrayString;
use bpf_code::CodeError;
use bpf_verify::VerifyError;
use filter::{FaultAt, FilterError};
use itoa::Buffer;
use match_key::RuleError;
use message_value::MsgError;
use std::alloc::AllocError;
use std::fmt;

/// Room for the longest line of a fault, in bytes.
const LINE_ROOM: usize = 96;

/// What a command line is refused for.
#[derive(Clone, Copy, Debug, PartialEq, Eq)]
pub enum Fault {
    /// The rule's text is no rule.
    Rule(RuleError),
    /// The expression is no filter.
    Filter(FaultAt),
    /// The filter weighs more than 4,096 and isn't compiled.
    HeavyFilter,
    /// The bytes of the message's file are no message.
    Message(MsgError),
    /// The text of the message's file is no hexadecimal text.
    Hex,
    /// The text of the program's file names no program.
    Code(CodeError),
    /// The program is refused.
    Program(VerifyError),
    /// The words are no row of the command line.
    Usage,
    /// A file can't be read, or standard output can't be written.
    File,
    Memory,
}

impl Fault {
    /// The status that the program ends with.
    pub fn status(self) -> u8
        ensures { result ≡ fault_status self }
    {
        match self {
            Fault::Rule(_)
            | Fault::Filter(_)
            | Fault::HeavyFilter
            | Fault::Message(_)
            | Fault::Hex
            | Fault::Code(_)
            | Fault::Program(_) => 2,
            Fault::Usage => 3,
            Fault::File => 4,
            Fault::Memory => 5,
        }
    }

    /// The fault as a line of standard error. It takes no memory, since the fault may be that there is none.
    pub fn line(self) -> ArrayString<LINE_ROOM>
        ensures { result.bytes ≡ fault_line self }
    {
        let (word, name, place) = self.parts();
        let mut line = ArrayString::new();
        line.push_str("dbusfan: ");
        line.push_str(word);
        line.push_str(name);
        if let Some(place) = place {
            line.push_str(" at ");
            line.push_str(Buffer::new().format(place));
        }
        line.push_str("\n");
        line
    }

    /// The word that is at fault, the name of what is wrong with it, and its line or place.
    fn parts(self) -> (&'static str, &'static str, Option<usize>)
        ensures text { text_at (result.0.now ++ result.1.now) result.2 ≡ fault_text self }
        ensures short { length result.0.now + length result.1.now ≤ 32 }
    {
        match self {
            Fault::Rule(fault) => ("rule ", fault.name(), None),
            Fault::Filter(at) => ("filter ", at.fault.name(), Some(at.place)),
            Fault::HeavyFilter => ("filter ", "TooHeavy", None),
            Fault::Message(fault) => ("message ", fault.name(), None),
            Fault::Hex => ("hex", "", None),
            Fault::Code(fault) => ("code ", fault.name(), fault.place()),
            Fault::Program(fault) => ("program ", fault.name(), fault.place()),
            Fault::Usage => ("usage", "", None),
            Fault::File => ("file", "", None),
            Fault::Memory => ("memory", "", None),
        }
    }
}

impl fmt::Display for Fault {
    ghost output = { λ fault. Some (fault_text fault) };

    fn fmt<W: fmt::Write>(&self, f: &mut fmt::Formatter<W>) -> fmt::Result {
        match self {
            Fault::Rule(fault) => write!(f, "rule {fault}"),
            Fault::Filter(at) => write!(f, "filter {at}"),
            Fault::HeavyFilter => f.write_str("filter TooHeavy"),
            Fault::Message(fault) => write!(f, "message {fault}"),
            Fault::Hex => f.write_str("hex"),
            Fault::Code(fault) => write!(f, "code {fault}"),
            Fault::Program(fault) => write!(f, "program {fault}"),
            Fault::Usage => f.write_str("usage"),
            Fault::File => f.write_str("file"),
            Fault::Memory => f.write_str("memory"),
        }
    }
}

impl From<RuleError> for Fault {
    ghost from_gives = { λ error fault. fault ≡ fault_of_rule error };

    fn from(error: RuleError) -> Fault {
        match error {
            RuleError::NoMemory => Fault::Memory,
            fault => Fault::Rule(fault),
        }
    }
}

impl From<FilterError> for Fault {
    ghost from_gives = { λ error fault. fault ≡ fault_of_filter error };

    fn from(error: FilterError) -> Fault {
        match error {
            FilterError::Fault(at) => Fault::Filter(at),
            FilterError::NoMemory => Fault::Memory,
        }
    }
}

impl From<MsgError> for Fault {
    ghost from_gives = { λ error fault. fault ≡ Message error };

    fn from(error: MsgError) -> Fault {
        Fault::Message(error)
    }
}

impl From<CodeError> for Fault {
    ghost from_gives = { λ error fault. fault ≡ fault_of_code error };

    fn from(error: CodeError) -> Fault {
        match error {
            CodeError::NoMemory => Fault::Memory,
            fault => Fault::Code(fault),
        }
    }
}

impl From<AllocError> for Fault {
    ghost from_gives = { λ _ fault. fault ≡ Memory };

    fn from(_refused: AllocError) -> Fault {
        Fault::Memory
    }
}

impl From<FileError> for Fault {
    ghost from_gives = { λ error fault. fault ≡ fault_of_file error };

    fn from(error: FileError) -> Fault {
        match error {
            FileError::File => Fault::File,
            FileError::Memory => Fault::Memory,
        }
    }
}

impl From<HexError> for Fault {
    ghost from_gives = { λ error fault. fault ≡ fault_of_hex error };

    fn from(error: HexError) -> Fault {
        match error {
            HexError::Hex => Fault::Hex,
            HexError::Memory => Fault::Memory,
        }
    }
}
