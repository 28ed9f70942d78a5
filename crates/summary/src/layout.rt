// Where the words of a summary stand, in bytes from the start of the image.
ghost use Rattle.std.specs.Prelude.{◌≡◌};
ghost use Rattle.summary.specs.Layout.{text_place, argument_place, ownership_place};

use message_view::TextField;

/// The word of the kind.
pub const KIND_PLACE: u16 = 4;

/// The word with the number of arguments.
pub(crate) const COUNT_PLACE: usize = 20;

/// The words of the first argument, and how many bytes on those of the next one are.
const ARGUMENTS: u16 = 72;

const ARGUMENT_LEN: u16 = 12;

/// The first word of ownership bits.
const OWNERSHIP: u16 = 840;

/// Where the two words of a field's text stand: its place, and its length 4 bytes on.
pub fn text_place(field: TextField) -> u16
    ensures { result ≡ text_place field }
{
    match field {
        TextField::Path => 24,
        TextField::Interface => 32,
        TextField::Member => 40,
        TextField::ErrorName => 48,
        TextField::Destination => 56,
        TextField::Sender => 64,
    }
}

/// Where the three words of argument n stand: the first byte of its type, its place 4 bytes on, and its length 8
/// bytes on. A summary has those of the first 64 arguments.
pub fn argument_place(n: u8) -> u16
    ensures { result ≡ argument_place n }
{
    ARGUMENTS + ARGUMENT_LEN * u16::from(n)
}

/// Where the word with the ownership bit of a slot stands; the bit is bit `slot % 32` of it.
pub fn ownership_place(slot: u16) -> u16
    ensures { result ≡ ownership_place slot }
{
    OWNERSHIP + 4 * (slot / 32)
}
