// The byte order of a message.

ghost use Rattle.std.specs.Prelude.{◌≡◌, length};
ghost use Rattle.message_value.specs.Order.{order_byte, order_of, word_of};

/// The order of the bytes of each number of a message (D-Bus Specification, "Marshaling").
#[derive(Clone, Copy, Debug, PartialEq, Eq)]
pub enum Order {
    Little,
    Big,
}

impl Order {
    /// The order that a message's first byte names: `l` or `B`.
    pub fn of(byte: u8) -> Option<Self>
        ensures { result ≡ order_of byte }
    {
        match byte {
            b'l' => Some(Order::Little),
            b'B' => Some(Order::Big),
            _ => None,
        }
    }

    /// The number of four bytes.
    pub fn word(self, bytes: [u8; 4]) -> u32
        ensures { result ≡ word_of self bytes }
    {
        match self {
            Order::Little => u32::from_le_bytes(bytes),
            Order::Big => u32::from_be_bytes(bytes),
        }
    }
}
