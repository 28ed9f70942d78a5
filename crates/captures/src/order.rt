// Numbers of a capture.

ghost use Rattle.std.specs.Prelude.{◌≡◌, ◌+◌, ◌≤◌, length};
ghost use Rattle.captures.specs.Numbers.{half, word};

/// The order of the bytes of each number: that of the machine which wrote the file or the section.
#[derive(Clone, Copy, Debug, PartialEq, Eq)]
pub enum Order {
    Little,
    Big,
}

impl Order {
    /// The number of 16 bits at an offset.
    pub(crate) fn half(self, bytes: &[u8], at: usize) -> u16
        requires { at + 2 ≤ length bytes.now }
        ensures { result ≡ half self bytes.now at }
    {
        let pair = [bytes[at], bytes[at + 1]];
        match self {
            Order::Little => u16::from_le_bytes(pair),
            Order::Big => u16::from_be_bytes(pair),
        }
    }

    /// The number of 32 bits at an offset.
    pub(crate) fn word(self, bytes: &[u8], at: usize) -> u32
        requires { at + 4 ≤ length bytes.now }
        ensures { result ≡ word self bytes.now at }
    {
        let four = [bytes[at], bytes[at + 1], bytes[at + 2], bytes[at + 3]];
        match self {
            Order::Little => u32::from_le_bytes(four),
            Order::Big => u32::from_be_bytes(four),
        }
    }
}
