// The errors that the bus answers.

ghost use Rattle.std.specs.Prelude.{◌≡◌, ◌++◌};
ghost use Rattle.bus_messages.specs.ErrorNames.{is_said_alone, full_name, word_of, sentence_of, place_of, text_of};

use crate::exceeded::Exceeded;
use bpf_verify::VerifyError;
use match_key::RuleError;
use std::fmt;

/// The error that the bus answers a call with, and what it says of it. BadFilter isn't among these: it has a text of the call's
/// (`FilterFault`).
#[derive(Clone, Copy, Debug, PartialEq, Eq)]
pub enum ErrorName {
    AccessDenied,
    AdtAuditDataUnknown,
    Failed,
    InvalidArgs,
    LimitsExceeded(Exceeded),
    MatchRuleInvalid(RuleError),
    MatchRuleNotFound,
    NameHasNoOwner,
    NoMemory,
    NoReply,
    ServiceUnknown,
    PropertyReadOnly,
    SelinuxSecurityContextUnknown,
    UnixProcessIdUnknown,
    UnknownInterface,
    UnknownMethod,
    UnknownProperty,
    /// The program of an Attach isn't accepted.
    BadProgram(VerifyError),
    /// There is no such edition of a summary.
    BadEdition,
    /// There is no such attachment.
    NoAttachment,
}

/// What the table says of an error.
#[derive(Clone, Copy)]
struct Terms {
    /// The last element of its name.
    word: &'static str,
    /// What was wrong.
    sentence: &'static str,
}

impl ErrorName {
    /// The whole name, as the field ERROR_NAME has it.
    pub fn name(self) -> &'static str
        ensures { result.now ≡ full_name self }
    {
        match self {
            ErrorName::AccessDenied => "org.freedesktop.DBus.Error.AccessDenied",
            ErrorName::AdtAuditDataUnknown => "org.freedesktop.DBus.Error.AdtAuditDataUnknown",
            ErrorName::Failed => "org.freedesktop.DBus.Error.Failed",
            ErrorName::InvalidArgs => "org.freedesktop.DBus.Error.InvalidArgs",
            ErrorName::LimitsExceeded(_) => "org.freedesktop.DBus.Error.LimitsExceeded",
            ErrorName::MatchRuleInvalid(_) => "org.freedesktop.DBus.Error.MatchRuleInvalid",
            ErrorName::MatchRuleNotFound => "org.freedesktop.DBus.Error.MatchRuleNotFound",
            ErrorName::NameHasNoOwner => "org.freedesktop.DBus.Error.NameHasNoOwner",
            ErrorName::NoMemory => "org.freedesktop.DBus.Error.NoMemory",
            ErrorName::NoReply => "org.freedesktop.DBus.Error.NoReply",
            ErrorName::ServiceUnknown => "org.freedesktop.DBus.Error.ServiceUnknown",
            ErrorName::SelinuxSecurityContextUnknown => {
                "org.freedesktop.DBus.Error.SELinuxSecurityContextUnknown"
            }
            ErrorName::UnixProcessIdUnknown => "org.freedesktop.DBus.Error.UnixProcessIdUnknown",
            ErrorName::UnknownInterface => "org.freedesktop.DBus.Error.UnknownInterface",
            ErrorName::UnknownMethod => "org.freedesktop.DBus.Error.UnknownMethod",
            ErrorName::UnknownProperty => "org.freedesktop.DBus.Error.UnknownProperty",
            ErrorName::PropertyReadOnly => "org.freedesktop.DBus.Error.PropertyReadOnly",
            ErrorName::BadProgram(_) => "org.example.ProgramBus1.Error.BadProgram",
            ErrorName::BadEdition => "org.example.ProgramBus1.Error.BadEdition",
            ErrorName::NoAttachment => "org.example.ProgramBus1.Error.NoAttachment",
        }
    }

    /// Its last element.
    pub fn word(self) -> &'static str
        ensures { result.now ≡ word_of self }
    {
        self.terms().word
    }

    /// The table of errors.
    fn terms(self) -> Terms
        ensures word { result.word.now ≡ word_of self }
        ensures sentence { result.sentence.now ≡ sentence_of self }
    {
        match self {
            ErrorName::AccessDenied => Terms {
                word: "AccessDenied",
                sentence: "only the user of the bus may do that, at the path of the bus",
            },
            ErrorName::AdtAuditDataUnknown => Terms {
                word: "AdtAuditDataUnknown",
                sentence: "the bus knows no audit sessions",
            },
            ErrorName::Failed => Terms {
                word: "Failed",
                sentence: "Hello came before, or the bus has no answer",
            },
            ErrorName::InvalidArgs => Terms {
                word: "InvalidArgs",
                sentence: "these are not arguments of the method",
            },
            ErrorName::LimitsExceeded(limit) => Terms {
                word: "LimitsExceeded",
                sentence: limit.words(),
            },
            ErrorName::MatchRuleInvalid(fault) => Terms {
                word: "MatchRuleInvalid",
                sentence: fault.sentence(),
            },
            ErrorName::MatchRuleNotFound => Terms {
                word: "MatchRuleNotFound",
                sentence: "this connection has no such rule",
            },
            ErrorName::NameHasNoOwner => Terms {
                word: "NameHasNoOwner",
                sentence: "nobody owns the name",
            },
            ErrorName::NoMemory => Terms {
                word: "NoMemory",
                sentence: "the bus has no memory for this",
            },
            ErrorName::NoReply => Terms {
                word: "NoReply",
                sentence: "Message recipient disconnected from message bus without replying",
            },
            ErrorName::ServiceUnknown => Terms {
                word: "ServiceUnknown",
                sentence: "nobody owns the name, and nothing is started here",
            },
            ErrorName::SelinuxSecurityContextUnknown => Terms {
                word: "SELinuxSecurityContextUnknown",
                sentence: "the bus knows no security contexts",
            },
            ErrorName::UnixProcessIdUnknown => Terms {
                word: "UnixProcessIdUnknown",
                sentence: "the bus knows no processes",
            },
            ErrorName::UnknownInterface => Terms {
                word: "UnknownInterface",
                sentence: "the bus has no such interface",
            },
            ErrorName::UnknownMethod => Terms {
                word: "UnknownMethod",
                sentence: "the bus has no such method",
            },
            ErrorName::UnknownProperty => Terms {
                word: "UnknownProperty",
                sentence: "the interface has no such property",
            },
            ErrorName::PropertyReadOnly => Terms {
                word: "PropertyReadOnly",
                sentence: "no property of the bus can be set",
            },
            ErrorName::BadProgram(fault) => Terms {
                word: "BadProgram",
                sentence: fault.sentence(),
            },
            ErrorName::BadEdition => Terms {
                word: "BadEdition",
                sentence: "there is no such edition of a summary",
            },
            ErrorName::NoAttachment => Terms {
                word: "NoAttachment",
                sentence: "this connection has no such program",
            },
        }
    }

    /// Whether its text is the sentence alone.
    fn is_said_alone(self) -> bool
        ensures { result ≡ is_said_alone self }
    {
        matches!(self, ErrorName::NoReply)
    }

    /// The place of the instruction that is at fault, where there is one.
    fn place(self) -> Option<usize>
        ensures { result ≡ place_of self }
    {
        match self {
            ErrorName::BadProgram(fault) => fault.place(),
            _ => None,
        }
    }
}

/// Its word and its sentence, as the body of the error has them, and ` at instruction ` with the place of one, from 0. NoReply
/// is its sentence alone, which is that of other buses: programs show it to people.
impl fmt::Display for ErrorName {
    ghost use Rattle.std.specs.Prelude.{Some};

    ghost output = { λ name. Some (text_of name) };

    fn fmt<W: fmt::Write>(&self, f: &mut fmt::Formatter<W>) -> fmt::Result {
        let Terms { word, sentence } = self.terms();
        match self.place() {
            Some(place) => write!(f, "{word}: {sentence} at instruction {place}"),
            None if self.is_said_alone() => f.write_str(sentence),
            None => write!(f, "{word}: {sentence}"),
        }
    }
}
