// Tests as texts.

ghost use Rattle.std.specs.Prelude.{◌≡◌, ◌++◌, IfOk, string_bytes};
ghost use Rattle.filter.specs.Printing.{integer_text, arg_text, source_text, scope_text, number_text, kind_test_text, test_text};

use crate::escaping::push_quoted;
use crate::has::field_of_text;
use crate::integer::Integer;
use crate::test::{Equality, NumberSource, Scope, Test, TextSource};
use crate::words::{
    equality_text, field_text, flag_text, kind_text, order_text, relation_text, suffix_text,
    truth_text, type_text,
};
use itoa::Buffer;
use match_key::{ArgNumber, KindName};
use std::alloc::{AllocError, Global};

fn push_arg(text: &mut String, n: ArgNumber) -> Result<(), AllocError>
    ensures { IfOk result (λ _. string_bytes text.new ≡ string_bytes text.old ++ arg_text n) }
{
    text.push_str("arg")?;
    text.push_str(Buffer::new().format(n.number()))
}

fn push_integer(text: &mut String, integer: Integer) -> Result<(), AllocError>
    ensures { IfOk result (λ _. string_bytes text.new ≡ string_bytes text.old ++ integer_text integer) }
{
    match integer {
        Integer::Natural(n) => text.push_str(Buffer::new().format(n)),
        Integer::Negative(n) => {
            text.push_str("-")?;
            text.push_str(Buffer::new().format(u128::from(n) + 1))
        }
    }
}

fn push_source(text: &mut String, source: TextSource) -> Result<(), AllocError>
    ensures { IfOk result (λ _. string_bytes text.new ≡ string_bytes text.old ++ source_text source) }
{
    match source {
        TextSource::Field(field) => text.push_str(field_text(field_of_text(field))),
        TextSource::Arg(n, text_type) => {
            push_arg(text, n)?;
            text.push_str(suffix_text(text_type))
        }
    }
}

fn push_scope(text: &mut String, scope: Scope) -> Result<(), AllocError>
    ensures { IfOk result (λ _. string_bytes text.new ≡ string_bytes text.old ++ scope_text scope) }
{
    match scope {
        Scope::PathNamespace => text.push_str("path_namespace"),
        Scope::ArgNamespace(n) => {
            push_arg(text, n)?;
            text.push_str("namespace")
        }
        Scope::ArgPath(n) => {
            push_arg(text, n)?;
            text.push_str("path")
        }
    }
}

fn push_number(text: &mut String, source: NumberSource) -> Result<(), AllocError>
    ensures { IfOk result (λ _. string_bytes text.new ≡ string_bytes text.old ++ number_text source) }
{
    match source {
        NumberSource::Serial => text.push_str("serial"),
        NumberSource::ReplySerial => text.push_str("reply_serial"),
        NumberSource::Flags => text.push_str("flags"),
        NumberSource::BodyLength => text.push_str("body_length"),
        NumberSource::Args => text.push_str("args"),
        NumberSource::Length => text.push_str("length"),
        NumberSource::Arg(n) => push_arg(text, n),
    }
}

fn push_kind(text: &mut String, equality: Equality, kind: KindName) -> Result<(), AllocError>
    ensures { IfOk result (λ _. string_bytes text.new ≡ string_bytes text.old ++ kind_test_text equality kind) }
{
    match equality {
        Equality::Equal => text.push_str(kind_text(kind)),
        Equality::Unequal => {
            text.push_str("type != '")?;
            text.push_str(kind.word())?;
            text.push_str("'")
        }
    }
}

/// Adds a test.
pub(crate) fn push_test(alloc: Global, text: &mut String, test: &Test) -> Result<(), AllocError>
    ensures { IfOk result (λ _. string_bytes text.new ≡ string_bytes text.old ++ test_text test.now) }
{
    match test {
        Test::Kind(equality, kind) => push_kind(text, *equality, *kind),
        Test::Broadcast => text.push_str("broadcast"),
        Test::Flag(flag) => text.push_str(flag_text(*flag)),
        Test::HasField(field) => {
            text.push_str("has ")?;
            text.push_str(field_text(*field))
        }
        Test::HasArg(n) => {
            text.push_str("has ")?;
            push_arg(text, *n)
        }
        Test::IsType(n, arg_type) => {
            push_arg(text, *n)?;
            text.push_str(" is ")?;
            text.push_str(type_text(*arg_type))
        }
        Test::Truth(n, equality, truth) => {
            push_arg(text, *n)?;
            text.push_str(equality_text(*equality))?;
            text.push_str(truth_text(*truth))
        }
        Test::Text(source, relation, value) => {
            push_source(text, *source)?;
            text.push_str(relation_text(*relation))?;
            push_quoted(alloc, text, value.as_str())
        }
        Test::Within(scope, equality, value) => {
            push_scope(text, *scope)?;
            text.push_str(equality_text(*equality))?;
            push_quoted(alloc, text, value.as_str())
        }
        Test::Number(source, relation, integer) => {
            push_number(text, *source)?;
            text.push_str(order_text(*relation))?;
            push_integer(text, *integer)
        }
    }
}
