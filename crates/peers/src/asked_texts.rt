// The texts that a filter asks for, by which its program is looked up.

ghost use Rattle.std.specs.Prelude.{◌≡◌, IfOk, map, string_bytes};
ghost use Rattle.filter.specs.FilterTree.{list_of};
ghost use Rattle.filter.specs.Filters.{tree_of};
ghost use Rattle.peers.specs.AskedTexts.{asked_by, with_filter, with_filters, with_scope, with_test, with_text};

use filter::{Equality, Filter, Scope, Test, TextField, TextRelation, TextSource, TextType};
use router::AskedTexts;
use std::alloc::{AllocError, Global};

/// Texts that each message of which a filter holds has: those that a test by `=` at its top asks for, or such tests joined
/// there by `and`. Tests further down may be left out of what holds.
pub(crate) fn asked_by(alloc: Global, filter: &Filter) -> Result<AskedTexts, AllocError>
    ensures { IfOk result (λ asked. asked ≡ asked_by (tree_of filter.now)) }
{
    let mut asked = AskedTexts::none();
    match filter {
        Filter::All(filters) => put_filters(alloc, &mut asked, filters.as_slice())?,
        _ => put_filter(alloc, &mut asked, filter)?,
    }
    Ok(asked)
}

fn put_filters(alloc: Global, asked: &mut AskedTexts, filters: &[Filter]) -> Result<(), AllocError>
    ensures { IfOk result (λ _. asked.new ≡ with_filters (list_of (map tree_of filters.now)) asked.old) }
{
    for filter in filters {
        put_filter(alloc, asked, filter)?;
    }
    Ok(())
}

fn put_filter(alloc: Global, asked: &mut AskedTexts, filter: &Filter) -> Result<(), AllocError>
    ensures { IfOk result (λ _. asked.new ≡ with_filter (tree_of filter.now) asked.old) }
{
    match filter {
        Filter::Test(test) => put_test(alloc, asked, test),
        Filter::All(_) | Filter::Any(_) | Filter::Not(_) => Ok(()),
    }
}

fn put_test(alloc: Global, asked: &mut AskedTexts, test: &Test) -> Result<(), AllocError>
    ensures { IfOk result (λ _. asked.new ≡ with_test test.now asked.old) }
{
    match test {
        Test::Text(source, TextRelation::Equal, text) => {
            put_text(alloc, asked, *source, text.as_str())
        }
        Test::Within(scope, Equality::Equal, text) => {
            put_scope(alloc, asked, *scope, text.as_str())
        }
        _ => Ok(()),
    }
}

/// Puts in the text that a source has to equal. Nothing is looked up by other sources than these.
fn put_text(
    alloc: Global,
    asked: &mut AskedTexts,
    source: TextSource,
    text: &str,
) -> Result<(), AllocError>
    ensures { IfOk result (λ _. asked.new ≡ with_text source text.now asked.old) }
{
    match source {
        TextSource::Field(TextField::Member) => asked.member = Some(copy(alloc, text)?),
        TextSource::Field(TextField::Interface) => asked.interface = Some(copy(alloc, text)?),
        TextSource::Field(TextField::Path) => asked.path = Some(copy(alloc, text)?),
        TextSource::Arg(n, TextType::String) => {
            if n.number() == 0 {
                asked.arg0 = Some(copy(alloc, text)?);
            }
        }
        _ => {}
    }
    Ok(())
}

/// Puts in the namespace that the path or argument 0 has to lie in.
fn put_scope(
    alloc: Global,
    asked: &mut AskedTexts,
    scope: Scope,
    text: &str,
) -> Result<(), AllocError>
    ensures { IfOk result (λ _. asked.new ≡ with_scope scope text.now asked.old) }
{
    match scope {
        Scope::PathNamespace => asked.path_namespace = Some(copy(alloc, text)?),
        Scope::ArgNamespace(n) => {
            if n.number() == 0 {
                asked.arg0_namespace = Some(copy(alloc, text)?);
            }
        }
        Scope::ArgPath(_) => {}
    }
    Ok(())
}

fn copy(alloc: Global, text: &str) -> Result<String, AllocError>
    ensures { IfOk result (λ copy. string_bytes copy ≡ text.now) }
{
    let mut copy = String::new(alloc);
    copy.push_str(text)?;
    Ok(copy)
}
