// What is said to people of a fault.

use bpf_code::CodeError;
use captures::CaptureError;
use filter::Fault;
use match_key::RuleError;
use message_value::MsgError;
use std::fmt;

/// Of a rule's part with this key.
pub(crate) fn of_rule<W: fmt::Write>(
    f: &mut fmt::Formatter<W>,
    key: &str,
    fault: RuleError,
) -> fmt::Result {
    match fault {
        RuleError::UnknownKey => write!(f, "there is no key {key}"),
        RuleError::KeyTwice => write!(f, "{key} is given twice"),
        RuleError::BadValue => write!(f, "this is no value of {key}"),
        RuleError::Unquoted => write!(f, "the value of {key} isn't closed"),
        RuleError::ArgNumber => write!(f, "{key} isn't one of arg0 to arg63"),
        RuleError::TooLong | RuleError::PathTwice | RuleError::NoMemory => {
            f.write_str(fault.sentence())
        }
    }
}

/// Of a filter expression, in which this word stands at the fault, and this one or a sign before it.
pub(crate) fn of_filter<W: fmt::Write>(
    f: &mut fmt::Formatter<W>,
    word: &str,
    before: &str,
    fault: Fault,
) -> fmt::Result {
    match fault {
        Fault::TooLong => f.write_str("an expression has at most 4096 bytes"),
        Fault::BadByte => f.write_str("no word and no sign begins with this byte"),
        Fault::Unquoted => f.write_str("the quoted text isn't closed"),
        Fault::BadEscape => {
            f.write_str("in quotes a backslash stands before a backslash or a quote")
        }
        Fault::NoTest => wanted_after(f, "a test", before),
        Fault::UnknownWord => write!(f, "no test begins with {word}"),
        Fault::ArgNumber => write!(f, "{word} isn't of one of the arguments 0 to 63"),
        Fault::Depth => f.write_str("more than 64 parentheses and nots are open"),
        Fault::BadNumber => write!(f, "{word} is no integer from -2^63 to 2^64 - 1"),
        Fault::Unopened => f.write_str("this parenthesis closes nothing"),
        Fault::Unclosed => f.write_str("a parenthesis isn't closed"),
        Fault::BadOperator => wanted_after(f, "an operator", before),
        Fault::BadValue => wanted_after(f, "a value that fits", before),
        Fault::BadType => f.write_str(
            "a type is wanted after is, one of y b n q i u x t d s o g h a v r",
        ),
        Fault::BadField => f.write_str("a field or an argument is wanted after has"),
        Fault::NoConnective => wanted_after(f, "and, or, or the end", before),
    }
}

fn wanted_after<W: fmt::Write>(
    f: &mut fmt::Formatter<W>,
    wanted: &str,
    before: &str,
) -> fmt::Result {
    if before.is_empty() {
        write!(f, "{wanted} is wanted")
    } else {
        write!(f, "{wanted} is wanted after {before}")
    }
}

/// Of the bytes of a message.
pub(crate) fn of_message(fault: MsgError) -> &'static str {
    match fault {
        MsgError::Order => "the first byte is neither l nor B",
        MsgError::Kind => "the kind of the message is 0",
        MsgError::Version => "the version of the protocol isn't 1",
        MsgError::Serial => "the serial, or the one that a reply answers, is 0",
        MsgError::TooLarge => "the message would have more than 134,217,728 bytes",
        MsgError::FieldCode => "a header field has the code 0, which no field has",
        MsgError::FieldType => "a header field is of another type than it has to be",
        MsgError::FieldTwice => "a header field comes a second time",
        MsgError::FieldMissing => "a header field that messages of this kind need isn't there",
        MsgError::BadName => "a path or a name has the wrong form",
        MsgError::Padding => "a byte between two values isn't 0",
        MsgError::BadBool => "a boolean is above 1",
        MsgError::BadText => "a text isn't UTF-8, has a zero, or isn't ended by one",
        MsgError::BadSignature => "a signature is none, or isn't allowed where it stands",
        MsgError::ArrayLength =>
            "an array has more than 67,108,864 bytes, or an item reaches beyond its array",
        MsgError::Depth => "values are nested too deep",
        MsgError::Short => "the bytes end before the message does",
        MsgError::Trailing => "bytes come after the message, or after the last value of its body",
        MsgError::UnixFds => "the message announces file descriptors",
        MsgError::Reserved => "no message on a bus has this path or interface",
    }
}

/// Of a program's text.
pub(crate) fn of_code(fault: CodeError) -> &'static str {
    match fault {
        CodeError::Length => "the number of bytes isn't divisible by 8",
        CodeError::Code(_) => "there is no such instruction",
        CodeError::Line(_) => "this isn't a line of a program; see dbusfan-filter(7)",
        CodeError::Label(_) => "a label names no instruction that it may name",
        CodeError::FarJump(_) => "the jump is too far",
        CodeError::NoMemory => "there is no memory",
    }
}

/// Of a capture.
pub(crate) fn of_capture<W: fmt::Write>(
    f: &mut fmt::Formatter<W>,
    fault: CaptureError,
) -> fmt::Result {
    match fault {
        CaptureError::Magic => f.write_str("it's neither pcap nor pcapng"),
        CaptureError::Version => f.write_str(
            "its version isn't 2.4 of pcap, or 1.0 or 1.2 of pcapng",
        ),
        CaptureError::LinkType(link_type) => write!(
            f,
            "its packets are of link type {link_type}, D-Bus messages of 231"
        ),
        CaptureError::ByteOrder => f.write_str("a section doesn't say its byte order"),
        CaptureError::BlockLength => f.write_str("a block has a length that it can't have"),
        CaptureError::RecordLength => f.write_str(
            "a packet is longer than a message may be, or than its block",
        ),
        CaptureError::OptionLength => f.write_str("an option is longer than its block"),
        CaptureError::Resolution => f.write_str(
            "the resolution of an interface's times isn't one byte",
        ),
        CaptureError::Interface => f.write_str("a packet is of an interface that isn't described"),
        CaptureError::Interfaces => f.write_str(
            "a section describes more interfaces than are kept",
        ),
        CaptureError::Short => f.write_str(
            "it ends in the middle of a header, a packet or a block",
        ),
    }
}
