// The words that begin a test.

ghost use Rattle.std.specs.Prelude.{◌≡◌};
ghost use Rattle.match_key.specs.Rows.{row_of};
ghost use Rattle.filter.specs.WordTables.{kind_tests, flag_words, whole_test, text_fields_by_word, number_words, operand_of_arg, operand_words, operand_named, opening_of};

use crate::arg_word::{ArgSuffix, arg_word};
use crate::error::Fault;
use crate::test::{Equality, Flag, NumberSource, Scope, Test, TextField, TextSource, TextType};
use match_key::{ArgNumber, KindName};

/// What stands before an operator.
#[derive(Clone, Copy, Debug, PartialEq, Eq)]
pub(crate) enum Operand {
    /// `type`
    Kind,
    Text(TextSource),
    Scope(Scope),
    Number(NumberSource),
    /// `argN`, whatever its type is.
    Arg(ArgNumber),
}

/// What the first word of a test begins: it is the whole test, `has`, or an operand.
#[derive(Debug, Drop)]
pub(crate) enum Opening {
    Whole(Test),
    Has,
    Begins(Operand),
}

fn kind_test(word: &[u8]) -> Option<Test>
    ensures { result ≡ row_of kind_tests word.now }
{
    if word == b"call".as_slice() {
        Some(Test::Kind(Equality::Equal, KindName::MethodCall))
    } else if word == b"reply".as_slice() {
        Some(Test::Kind(Equality::Equal, KindName::MethodReturn))
    } else if word == b"error".as_slice() {
        Some(Test::Kind(Equality::Equal, KindName::Error))
    } else if word == b"signal".as_slice() {
        Some(Test::Kind(Equality::Equal, KindName::Signal))
    } else if word == b"broadcast".as_slice() {
        Some(Test::Broadcast)
    } else {
        None
    }
}

fn flag_named(word: &[u8]) -> Option<Flag>
    ensures { result ≡ row_of flag_words word.now }
{
    if word == b"no_reply_expected".as_slice() {
        Some(Flag::NoReplyExpected)
    } else if word == b"no_auto_start".as_slice() {
        Some(Flag::NoAutoStart)
    } else if word == b"allow_interactive_authorization".as_slice() {
        Some(Flag::AllowInteractiveAuthorization)
    } else {
        None
    }
}

/// The test that a word is by itself.
fn whole_test(word: &[u8]) -> Option<Test>
    ensures { result ≡ whole_test word.now }
{
    if let Some(test) = kind_test(word) {
        return Some(test);
    }
    let flag = flag_named(word)?;
    Some(Test::Flag(flag))
}

pub(crate) fn text_field_named(word: &[u8]) -> Option<TextField>
    ensures { result ≡ row_of text_fields_by_word word.now }
{
    if word == b"path".as_slice() {
        Some(TextField::Path)
    } else if word == b"interface".as_slice() {
        Some(TextField::Interface)
    } else if word == b"member".as_slice() {
        Some(TextField::Member)
    } else if word == b"error_name".as_slice() {
        Some(TextField::ErrorName)
    } else if word == b"destination".as_slice() {
        Some(TextField::Destination)
    } else if word == b"sender".as_slice() {
        Some(TextField::Sender)
    } else {
        None
    }
}

fn number_named(word: &[u8]) -> Option<NumberSource>
    ensures { result ≡ row_of number_words word.now }
{
    if word == b"serial".as_slice() {
        Some(NumberSource::Serial)
    } else if word == b"reply_serial".as_slice() {
        Some(NumberSource::ReplySerial)
    } else if word == b"flags".as_slice() {
        Some(NumberSource::Flags)
    } else if word == b"body_length".as_slice() {
        Some(NumberSource::BodyLength)
    } else if word == b"args".as_slice() {
        Some(NumberSource::Args)
    } else if word == b"length".as_slice() {
        Some(NumberSource::Length)
    } else {
        None
    }
}

fn operand_of_word(word: &[u8]) -> Option<Operand>
    ensures { result ≡ row_of operand_words word.now }
{
    if word == b"type".as_slice() {
        Some(Operand::Kind)
    } else if word == b"path_namespace".as_slice() {
        Some(Operand::Scope(Scope::PathNamespace))
    } else {
        None
    }
}

/// The operand that a word is, but for arguments.
fn operand_named(word: &[u8]) -> Option<Operand>
    ensures { result ≡ operand_named word.now }
{
    if let Some(operand) = operand_of_word(word) {
        return Some(operand);
    }
    if let Some(field) = text_field_named(word) {
        return Some(Operand::Text(TextSource::Field(field)));
    }
    let number = number_named(word)?;
    Some(Operand::Number(number))
}

fn operand_of_arg(n: ArgNumber, suffix: ArgSuffix) -> Operand
    ensures { result ≡ operand_of_arg n suffix }
{
    match suffix {
        ArgSuffix::Bare => Operand::Arg(n),
        ArgSuffix::Path => Operand::Scope(Scope::ArgPath(n)),
        ArgSuffix::Namespace => Operand::Scope(Scope::ArgNamespace(n)),
        ArgSuffix::Object => Operand::Text(TextSource::Arg(n, TextType::ObjectPath)),
        ArgSuffix::Signature => Operand::Text(TextSource::Arg(n, TextType::Signature)),
    }
}

impl Opening {
    /// What a test's first word begins.
    pub(crate) fn of_word(word: &[u8]) -> Result<Opening, Fault>
        ensures { result ≡ opening_of word.now }
    {
        if let Some(test) = whole_test(word) {
            return Ok(Opening::Whole(test));
        }
        if word == b"has".as_slice() {
            return Ok(Opening::Has);
        }
        if let Some(operand) = operand_named(word) {
            return Ok(Opening::Begins(operand));
        }
        let (n, suffix) = arg_word(word)?;
        Ok(Opening::Begins(operand_of_arg(n, suffix)))
    }
}
