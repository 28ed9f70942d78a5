// The words and the operators of tests, as they are written.

ghost use Rattle.std.specs.Prelude.{◌≡◌};
ghost use Rattle.filter.specs.Printing.{equality_text, relation_text, order_text, kind_text, flag_text, field_text, suffix_text, type_text, truth_text};

use crate::test::{ArgType, Equality, Field, Flag, NumberRelation, TextRelation, TextType};
use match_key::KindName;

pub(crate) fn equality_text(equality: Equality) -> &'static str
    ensures { result.now ≡ equality_text equality }
{
    match equality {
        Equality::Equal => " = ",
        Equality::Unequal => " != ",
    }
}

pub(crate) fn relation_text(relation: TextRelation) -> &'static str
    ensures { result.now ≡ relation_text relation }
{
    match relation {
        TextRelation::Equal => " = ",
        TextRelation::Unequal => " != ",
        TextRelation::Begins => " begins ",
        TextRelation::Ends => " ends ",
    }
}

pub(crate) fn order_text(relation: NumberRelation) -> &'static str
    ensures { result.now ≡ order_text relation }
{
    match relation {
        NumberRelation::Equal => " = ",
        NumberRelation::Unequal => " != ",
        NumberRelation::Less => " < ",
        NumberRelation::AtMost => " <= ",
        NumberRelation::Greater => " > ",
        NumberRelation::AtLeast => " >= ",
        NumberRelation::Shares => " & ",
    }
}

pub(crate) fn kind_text(kind: KindName) -> &'static str
    ensures { result.now ≡ kind_text kind }
{
    match kind {
        KindName::MethodCall => "call",
        KindName::MethodReturn => "reply",
        KindName::Error => "error",
        KindName::Signal => "signal",
    }
}

pub(crate) fn flag_text(flag: Flag) -> &'static str
    ensures { result.now ≡ flag_text flag }
{
    match flag {
        Flag::NoReplyExpected => "no_reply_expected",
        Flag::NoAutoStart => "no_auto_start",
        Flag::AllowInteractiveAuthorization => "allow_interactive_authorization",
    }
}

pub(crate) fn field_text(field: Field) -> &'static str
    ensures { result.now ≡ field_text field }
{
    match field {
        Field::Path => "path",
        Field::Interface => "interface",
        Field::Member => "member",
        Field::ErrorName => "error_name",
        Field::ReplySerial => "reply_serial",
        Field::Destination => "destination",
        Field::Sender => "sender",
    }
}

pub(crate) fn suffix_text(text_type: TextType) -> &'static str
    ensures { result.now ≡ suffix_text text_type }
{
    match text_type {
        TextType::String => "",
        TextType::ObjectPath => "object",
        TextType::Signature => "signature",
    }
}

pub(crate) fn type_text(arg_type: ArgType) -> &'static str
    ensures { result.now ≡ type_text arg_type }
{
    match arg_type {
        ArgType::Byte => "y",
        ArgType::Boolean => "b",
        ArgType::Int16 => "n",
        ArgType::Uint16 => "q",
        ArgType::Int32 => "i",
        ArgType::Uint32 => "u",
        ArgType::Int64 => "x",
        ArgType::Uint64 => "t",
        ArgType::Double => "d",
        ArgType::String => "s",
        ArgType::ObjectPath => "o",
        ArgType::Signature => "g",
        ArgType::UnixFd => "h",
        ArgType::Array => "a",
        ArgType::Variant => "v",
        ArgType::Struct => "r",
    }
}

pub(crate) fn truth_text(truth: bool) -> &'static str
    ensures { result.now ≡ truth_text truth }
{
    if truth { "true" } else { "false" }
}
