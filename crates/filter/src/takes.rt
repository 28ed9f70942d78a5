// The tests of an operand, an operator and a value.

ghost use Rattle.std.specs.Prelude.{◌≡◌};
ghost use Rattle.filter.specs.Tests.{is_text_of_field, is_text_of, text_test, is_text_of_scope, scope_test, kind_test, flag_of_bit, flags_test, number_test, test_of_text, test_of_integer, test_of_truth, test_of};

use crate::integer::Integer;
use crate::opening::Operand;
use crate::operator::Operator;
use crate::test::{
    Equality, Flag, NumberRelation, NumberSource, Scope, Test, TextField, TextRelation, TextSource,
    TextType,
};
use crate::text::Text;
use crate::value::Value;
use match_key::KindName;
use signature::{check_bus_name, check_interface, check_member, check_namespace, check_path};

/// Whether a field may equal a text.
fn is_text_of_field(field: TextField, text: &str) -> bool
    ensures { result ≡ is_text_of_field field text.now }
{
    match field {
        TextField::Path => check_path(text),
        TextField::Interface | TextField::ErrorName => check_interface(text),
        TextField::Member => check_member(text),
        TextField::Destination | TextField::Sender => check_bus_name(text),
    }
}

/// Whether what a source has may equal a text.
fn is_text_of(source: TextSource, text: &str) -> bool
    ensures { result ≡ is_text_of source text.now }
{
    match source {
        TextSource::Field(field) => is_text_of_field(field, text),
        TextSource::Arg(_, TextType::ObjectPath) => check_path(text),
        TextSource::Arg(_, TextType::String | TextType::Signature) => true,
    }
}

/// The test of a text, which has to be one that the source may have, but for `begins` and `ends`.
fn text_test(source: TextSource, relation: TextRelation, text: Text) -> Option<Test>
    ensures { result ≡ text_test source relation text }
{
    let is_allowed = match relation {
        TextRelation::Equal | TextRelation::Unequal => is_text_of(source, text.as_str()),
        TextRelation::Begins | TextRelation::Ends => true,
    };
    is_allowed.then_some(Test::Text(source, relation, text))
}

/// Whether a scope may be compared with a text.
fn is_text_of_scope(scope: Scope, text: &str) -> bool
    ensures { result ≡ is_text_of_scope scope text.now }
{
    match scope {
        Scope::PathNamespace => check_path(text),
        Scope::ArgNamespace(_) => check_namespace(text),
        Scope::ArgPath(_) => true,
    }
}

/// The test of a scope, whose text has to be one that it may be compared with.
fn scope_test(scope: Scope, equality: Equality, text: Text) -> Option<Test>
    ensures { result ≡ scope_test scope equality text }
{
    let is_allowed = is_text_of_scope(scope, text.as_str());
    is_allowed.then_some(Test::Within(scope, equality, text))
}

/// The test of the kind that a text names.
fn kind_test(equality: Equality, text: Text) -> Option<Test>
    ensures { result ≡ kind_test equality text }
{
    let kind = KindName::of_word(text.as_str().as_bytes())?;
    Some(Test::Kind(equality, kind))
}

/// The flag of a bit.
fn flag_of_bit(bit: u64) -> Option<Flag>
    ensures { result ≡ flag_of_bit bit }
{
    match bit {
        1 => Some(Flag::NoReplyExpected),
        2 => Some(Flag::NoAutoStart),
        4 => Some(Flag::AllowInteractiveAuthorization),
        _ => None,
    }
}

/// The test of a number: `flags & 1` is that of a flag, and `&` takes nothing below 0.
fn number_test(source: NumberSource, relation: NumberRelation, integer: Integer) -> Option<Test>
    ensures { result ≡ number_test source relation integer }
{
    match (source, relation, integer) {
        (_, NumberRelation::Shares, Integer::Negative(_)) => None,
        (NumberSource::Flags, NumberRelation::Shares, Integer::Natural(bit)) => {
            Some(flags_test(bit))
        }
        _ => Some(Test::Number(source, relation, integer)),
    }
}

/// The test of the bits of the flags.
fn flags_test(bits: u64) -> Test
    ensures { result ≡ flags_test bits }
{
    match flag_of_bit(bits) {
        Some(flag) => Test::Flag(flag),
        None => Test::Number(
            NumberSource::Flags,
            NumberRelation::Shares,
            Integer::Natural(bits),
        ),
    }
}

/// The test that an operand and an operator make with a text.
fn test_of_text(operand: Operand, operator: Operator, text: Text) -> Option<Test>
    ensures { result ≡ test_of_text operand operator text }
{
    match operand {
        Operand::Kind => kind_test(operator.equality()?, text),
        Operand::Text(source) => text_test(source, operator.text_relation()?, text),
        Operand::Scope(scope) => scope_test(scope, operator.equality()?, text),
        Operand::Number(_) => None,
        Operand::Arg(n) => text_test(
            TextSource::Arg(n, TextType::String),
            operator.text_relation()?,
            text,
        ),
    }
}

/// The test that an operand and an operator make with an integer.
fn test_of_integer(operand: Operand, operator: Operator, integer: Integer) -> Option<Test>
    ensures { result ≡ test_of_integer operand operator integer }
{
    match operand {
        Operand::Number(source) => number_test(source, operator.number_relation()?, integer),
        Operand::Arg(n) => number_test(NumberSource::Arg(n), operator.number_relation()?, integer),
        Operand::Kind | Operand::Text(_) | Operand::Scope(_) => None,
    }
}

/// The test that an operand and an operator make with `true` or `false`.
fn test_of_truth(operand: Operand, operator: Operator, truth: bool) -> Option<Test>
    ensures { result ≡ test_of_truth operand operator truth }
{
    match operand {
        Operand::Arg(n) => Some(Test::Truth(n, operator.equality()?, truth)),
        _ => None,
    }
}

/// The test that an operand and an operator make with a value, if they take it.
pub(crate) fn test_of(operand: Operand, operator: Operator, value: Value) -> Option<Test>
    ensures { result ≡ test_of operand operator value }
{
    match value {
        Value::Text(text) => test_of_text(operand, operator, text),
        Value::Integer(integer) => test_of_integer(operand, operator, integer),
        Value::Truth(truth) => test_of_truth(operand, operator, truth),
    }
}
