// The kinds of messages.

ghost use Rattle.std.specs.Prelude.{◌≡◌};
ghost use Rattle.message_view.specs.Header.{kind_of, kind_byte};

/// What a message is (D-Bus Specification, "Message Format"). A kind of which the standard says
/// nothing, 5 to 255, is valid and has its byte.
#[derive(Clone, Copy, Debug, PartialEq, Eq)]
pub enum Kind {
    MethodCall,
    MethodReturn,
    Error,
    Signal,
    Other(u8),
}

impl Kind {
    /// The kind of a header's second byte; 0 is none.
    pub fn of(byte: u8) -> Option<Self>
        ensures { result ≡ kind_of byte }
    {
        match byte {
            0 => None,
            1 => Some(Kind::MethodCall),
            2 => Some(Kind::MethodReturn),
            3 => Some(Kind::Error),
            4 => Some(Kind::Signal),
            _ => Some(Kind::Other(byte)),
        }
    }

    /// The byte of the kind in a header.
    pub fn byte(self) -> u8
        ensures { result ≡ kind_byte self }
    {
        match self {
            Kind::MethodCall => 1,
            Kind::MethodReturn => 2,
            Kind::Error => 3,
            Kind::Signal => 4,
            Kind::Other(byte) => byte,
        }
    }
}
