// The types of integers, and the integers that each has.
ghost use Rattle.std.specs.Prelude.{◌≡◌, ◌+◌};
ghost use Rattle.filter_compile.specs.Holds.{is_signed_code};
ghost use Rattle.filter_compile.specs.ArgCode.{bits_of, limit_of, is_inside, code_of};

use filter::Integer;

/// Two's complement in 64 bits.
pub(crate) fn bits_of(value: Integer) -> u64
    ensures { result ≡ bits_of value }
{
    match value {
        Integer::Natural(n) => n,
        Integer::Negative(n) => u64::MAX - n,
    }
}

/// The types of integers (D-Bus Specification, "Type System"); a boolean is 0 or 1.
#[derive(Clone, Copy)]
pub(crate) enum IntegerType {
    Byte,
    Boolean,
    Int16,
    Uint16,
    Int32,
    Uint32,
    Int64,
    Uint64,
}

impl IntegerType {
    pub(crate) fn code(self) -> u8
        ensures { result ≡ code_of self }
    {
        match self {
            IntegerType::Byte => b'y',
            IntegerType::Boolean => b'b',
            IntegerType::Int16 => b'n',
            IntegerType::Uint16 => b'q',
            IntegerType::Int32 => b'i',
            IntegerType::Uint32 => b'u',
            IntegerType::Int64 => b'x',
            IntegerType::Uint64 => b't',
        }
    }

    fn is_signed(self) -> bool
        ensures { result ≡ is_signed_code (code_of self) }
    {
        match self {
            IntegerType::Int16 | IntegerType::Int32 | IntegerType::Int64 => true,
            IntegerType::Byte
            | IntegerType::Boolean
            | IntegerType::Uint16
            | IntegerType::Uint32
            | IntegerType::Uint64 => false,
        }
    }

    /// The greatest integer of the type.
    fn greatest(self) -> u64
        ensures { result + 1 ≡ limit_of (code_of self) }
    {
        match self {
            IntegerType::Byte => 0xff,
            IntegerType::Int16 => 0x7fff,
            IntegerType::Uint16 => 0xffff,
            IntegerType::Int32 => 0x7fff_ffff,
            IntegerType::Boolean | IntegerType::Uint32 => 0xffff_ffff,
            IntegerType::Int64 => 0x7fff_ffff_ffff_ffff,
            IntegerType::Uint64 => 0xffff_ffff_ffff_ffff,
        }
    }

    /// Whether the type has the integer.
    pub(crate) fn has(self, value: Integer) -> bool
        ensures { result ≡ is_inside (code_of self) value }
    {
        match value {
            Integer::Natural(n) => n <= self.greatest(),
            Integer::Negative(n) => self.is_signed() && n <= self.greatest(),
        }
    }
}
