// The words for kinds of messages.

ghost use Rattle.std.specs.Prelude.{◌≡◌};
ghost use Rattle.match_key.specs.Kinds.{kind_named, kind_word, kind_meant};

use message_view::Kind;

/// A kind of message that a rule can ask for (D-Bus Specification, "Match Rules").
#[derive(Clone, Copy, Debug, PartialEq, Eq)]
pub enum KindName {
    Signal,
    MethodCall,
    MethodReturn,
    Error,
}

impl KindName {
    /// The kind that a word names.
    pub fn of_word(word: &[u8]) -> Option<Self>
        ensures { result ≡ kind_named word.now }
    {
        if word == b"signal".as_slice() {
            Some(KindName::Signal)
        } else if word == b"method_call".as_slice() {
            Some(KindName::MethodCall)
        } else if word == b"method_return".as_slice() {
            Some(KindName::MethodReturn)
        } else if word == b"error".as_slice() {
            Some(KindName::Error)
        } else {
            None
        }
    }

    /// The word of the kind.
    pub fn word(self) -> &'static str
        ensures { result.now ≡ kind_word self }
    {
        match self {
            KindName::Signal => "signal",
            KindName::MethodCall => "method_call",
            KindName::MethodReturn => "method_return",
            KindName::Error => "error",
        }
    }

    /// The kind of message that it names.
    pub fn kind(self) -> Kind
        ensures { result ≡ kind_meant self }
    {
        match self {
            KindName::Signal => Kind::Signal,
            KindName::MethodCall => Kind::MethodCall,
            KindName::MethodReturn => Kind::MethodReturn,
            KindName::Error => Kind::Error,
        }
    }
}
