// What the bytes of a capture begin with.

ghost use Rattle.std.specs.Prelude.{◌≡◌, ◌≤◌, length, slice_range};

/// The link type of D-Bus messages, LINKTYPE_DBUS.
pub const LINKTYPE_DBUS: u32 = 231;

/// The longest message, of 2^27 bytes, and so the longest packet that is read.
pub const MAX_PACKET_LEN: u32 = 134_217_728;

/// A packet of D-Bus: where its bytes lie among those that were shown.
#[derive(Clone, Copy, Debug, PartialEq, Eq)]
pub struct Packet {
    /// How many bytes its record or block takes.
    pub len: usize,
    /// Where the message begins, and where it ends.
    pub start: usize,
    pub end: usize,
    /// When it was seen, in nanoseconds since 1970. A Simple Packet Block doesn't say; nor is a time given that 64 bits
    /// don't hold, or of an interface whose times have an offset or are finer than 10^-19 or 2^-63 seconds.
    pub time: Option<u64>,
    /// Whether the message was longer than what the file has of it.
    pub is_cut: bool,
}

impl Packet {
    /// The message, lent from the bytes that were shown.
    pub fn message<'a>(&self, bytes: &'a [u8]) -> &'a [u8]
        requires in_order { self.now.start ≤ self.now.end }
        requires there { self.now.end ≤ length bytes.now }
        ensures { result.now ≡ slice_range bytes.now self.now.start self.now.end }
    {
        &bytes[self.start..self.end]
    }
}

/// What the bytes begin with, or how many are needed to say.
#[derive(Clone, Copy, Debug, PartialEq, Eq)]
pub enum Step {
    /// A packet of D-Bus.
    Message(Packet),
    /// A packet of another link type, of `len` bytes, which is passed over.
    Other { len: usize, link_type: u16 },
    /// A header, or a block that has no packet, of this many bytes.
    Skip(usize),
    /// This many bytes have to be there first.
    More(usize),
}
