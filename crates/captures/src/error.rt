// Why a file is no capture of D-Bus messages.

ghost use Rattle.std.specs.Prelude.{◌≡◌};
ghost use Rattle.captures.specs.Errors.{name_of, text_of};

use std::error::Error;
use std::fmt;

/// The first fault of a capture.
#[derive(Clone, Copy, Debug, PartialEq, Eq)]
pub enum CaptureError {
    /// The file begins with the magic number of neither format.
    Magic,
    /// The version isn't 2.4 of pcap, or 1.0 or 1.2 of pcapng.
    Version,
    /// The packets of a pcap file are of this link type, and no D-Bus messages.
    LinkType(u32),
    /// A section's byte-order magic is none.
    ByteOrder,
    /// The length of a block is no multiple of 4, too small, too large, or not repeated at its end.
    BlockLength,
    /// A packet is longer than a message may be, or reaches beyond its block.
    RecordLength,
    /// An option reaches beyond its block.
    OptionLength,
    /// The resolution of an interface's times isn't one byte.
    Resolution,
    /// A packet is of an interface that its section doesn't describe.
    Interface,
    /// A section describes more interfaces than are kept.
    Interfaces,
    /// The file ends within its header, a record or a block.
    Short,
}

impl CaptureError {
    /// The fault's name.
    pub fn name(self) -> &'static str
        ensures { result.now ≡ name_of self }
    {
        match self {
            CaptureError::Magic => "Magic",
            CaptureError::Version => "Version",
            CaptureError::LinkType(_) => "LinkType",
            CaptureError::ByteOrder => "ByteOrder",
            CaptureError::BlockLength => "BlockLength",
            CaptureError::RecordLength => "RecordLength",
            CaptureError::OptionLength => "OptionLength",
            CaptureError::Resolution => "Resolution",
            CaptureError::Interface => "Interface",
            CaptureError::Interfaces => "Interfaces",
            CaptureError::Short => "Short",
        }
    }
}

/// Its name, and the number of the link type where that is the fault.
impl fmt::Display for CaptureError {
    ghost use Rattle.std.specs.Prelude.{Some};

    ghost output = { λ fault. Some (text_of fault) };

    fn fmt<W: fmt::Write>(&self, f: &mut fmt::Formatter<W>) -> fmt::Result {
        let name = self.name();
        match self {
            CaptureError::LinkType(link_type) => write!(f, "{name} {link_type}"),
            _ => f.write_str(name),
        }
    }
}

impl Error for CaptureError {}
