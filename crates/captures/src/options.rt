// Options of an interface's block.

ghost use Rattle.std.specs.Prelude.{◌≡◌, ◌+◌, ◌<◌, ◌≤◌, IfSome};
ghost use Rattle.captures.specs.Options.{units_of, padded_len};

/// The bytes of an option before its value.
pub(crate) const OPTION_HEADER_LEN: usize = 4;

pub(crate) const END_OF_OPTIONS: u16 = 0;

/// The option `if_tsresol`: the resolution of the interface's times.
pub(crate) const RESOLUTION: u16 = 9;

/// The option `if_tsoffset`: seconds that are to be added to each time.
pub(crate) const OFFSET: u16 = 14;

/// The highest bit of a resolution: a power of 2 follows, else one of 10.
pub(crate) const BINARY: u8 = 128;

/// The finest resolutions whose units fit 64 bits.
pub(crate) const MAX_DECIMAL: u8 = 19;

pub(crate) const MAX_BINARY: u8 = 63;

/// How many units a second has at the resolution that a byte says.
pub(crate) fn units_of(byte: u8) -> Option<u64>
    ensures units { result ≡ units_of byte }
    ensures some { IfSome result (λ units. 0 < units) }
{
    if byte < BINARY {
        if byte <= MAX_DECIMAL {
            Some(10u64.pow(byte as u32))
        } else {
            None
        }
    } else if byte - BINARY <= MAX_BINARY {
        Some(2u64.pow((byte - BINARY) as u32))
    } else {
        None
    }
}

/// The bytes of a value with those that fill its last word.
pub(crate) fn padded_len(len: usize) -> usize
    requires { len + 4 ≤ usize.MAX }
    ensures { result ≡ padded_len len }
{
    (len + 3) / 4 * 4
}
