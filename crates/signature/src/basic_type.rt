// The basic types.

ghost use Rattle.std.specs.Prelude.{◌≡◌, false, IsTrue, MatchOption};
ghost use Rattle.signature.specs.Code.{is_basic};
ghost use Rattle.signature.specs.BasicType.{byte_of, basic_alignment};

/// A basic type (D-Bus Specification, "Basic types").
#[derive(Clone, Copy, Debug, PartialEq, Eq)]
pub enum BasicType {
    Byte,
    Boolean,
    Int16,
    Uint16,
    Int32,
    Uint32,
    Int64,
    Uint64,
    Double,
    String,
    ObjectPath,
    Signature,
    UnixFd,
}

impl BasicType {
    /// The basic type that a byte of a signature stands for, if it does.
    pub fn of(byte: u8) -> Option<BasicType>
        ensures { MatchOption result (is_basic byte ≡ false) (λ basic. byte_of basic ≡ byte) }
    {
        match byte {
            b'y' => Some(BasicType::Byte),
            b'b' => Some(BasicType::Boolean),
            b'n' => Some(BasicType::Int16),
            b'q' => Some(BasicType::Uint16),
            b'i' => Some(BasicType::Int32),
            b'u' => Some(BasicType::Uint32),
            b'x' => Some(BasicType::Int64),
            b't' => Some(BasicType::Uint64),
            b'd' => Some(BasicType::Double),
            b's' => Some(BasicType::String),
            b'o' => Some(BasicType::ObjectPath),
            b'g' => Some(BasicType::Signature),
            b'h' => Some(BasicType::UnixFd),
            _ => None,
        }
    }

    /// The basic type of a byte that is known to stand for one.
    pub(crate) fn of_code(byte: u8) -> BasicType
        requires { IsTrue (is_basic byte) }
        ensures { byte_of result ≡ byte }
    {
        match BasicType::of(byte) {
            Some(basic) => basic,
            None => unreachable!(),
        }
    }

    /// The type's byte in a signature.
    pub fn code(self) -> u8
        ensures code { result ≡ byte_of self }
        ensures basic { IsTrue (is_basic result) }
    {
        match self {
            BasicType::Byte => b'y',
            BasicType::Boolean => b'b',
            BasicType::Int16 => b'n',
            BasicType::Uint16 => b'q',
            BasicType::Int32 => b'i',
            BasicType::Uint32 => b'u',
            BasicType::Int64 => b'x',
            BasicType::Uint64 => b't',
            BasicType::Double => b'd',
            BasicType::String => b's',
            BasicType::ObjectPath => b'o',
            BasicType::Signature => b'g',
            BasicType::UnixFd => b'h',
        }
    }

    /// A value's place is a multiple of this, in bytes.
    pub fn alignment(self) -> usize
        ensures { result ≡ basic_alignment (byte_of self) }
    {
        match self {
            BasicType::Byte | BasicType::Signature => 1,
            BasicType::Int16 | BasicType::Uint16 => 2,
            BasicType::Boolean
            | BasicType::Int32
            | BasicType::Uint32
            | BasicType::String
            | BasicType::ObjectPath
            | BasicType::UnixFd => 4,
            BasicType::Int64 | BasicType::Uint64 | BasicType::Double => 8,
        }
    }
}
