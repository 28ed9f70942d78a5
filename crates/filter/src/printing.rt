// Filters as texts.

ghost use Rattle.std.specs.Prelude.{◌≡◌, ◌++◌, false, map, IfOk, string_bytes};
ghost use Rattle.filter.specs.FilterTree.{list_of};
ghost use Rattle.filter.specs.Filters.{tree_of};
ghost use Rattle.filter.specs.Printing.{is_list, is_any, text_if, text_of, all_text, any_text};

use crate::filter::Filter;
use crate::test_text::push_test;
use std::alloc::{AllocError, Global};

/// Adds a word where one is wanted.
fn push_if(text: &mut String, wanted: bool, word: &str) -> Result<(), AllocError>
    ensures { IfOk result (λ _. string_bytes text.new ≡ string_bytes text.old ++ text_if wanted word.now) }
{
    if wanted { text.push_str(word) } else { Ok(()) }
}

/// Whether a filter is an `and` or an `or`, which stands in parentheses in an `and` and under `not`.
fn is_list(filter: &Filter) -> bool
    ensures { result ≡ is_list (tree_of filter.now) }
{
    match filter {
        Filter::All(_) | Filter::Any(_) => true,
        Filter::Test(_) | Filter::Not(_) => false,
    }
}

/// Whether a filter is an `or`, which stands in parentheses in an `or` too.
fn is_any(filter: &Filter) -> bool
    ensures { result ≡ is_any (tree_of filter.now) }
{
    match filter {
        Filter::Any(_) => true,
        Filter::All(_) | Filter::Test(_) | Filter::Not(_) => false,
    }
}

/// Adds a filter.
#[cycle(print)]
fn push_filter(alloc: Global, text: &mut String, filter: &Filter) -> Result<(), AllocError>
    ensures { IfOk result (λ _. string_bytes text.new ≡ string_bytes text.old ++ text_of (tree_of filter.now)) }
{
    match filter {
        Filter::Test(test) => push_test(alloc, text, test),
        Filter::All(filters) => push_all(alloc, text, filters.as_slice()),
        Filter::Any(filters) => push_any(alloc, text, filters.as_slice()),
        Filter::Not(filter) => {
            let grouped = is_list(filter);
            text.push_str("not ")?;
            push_if(text, grouped, "(")?;
            push_filter(alloc, text, filter)?;
            push_if(text, grouped, ")")
        }
    }
}

/// Adds filters with `and` between them.
#[cycle(print)]
fn push_all(alloc: Global, text: &mut String, filters: &[Filter]) -> Result<(), AllocError>
    ensures { IfOk result (λ _. string_bytes text.new ≡ string_bytes text.old ++ all_text false (list_of (map tree_of filters.now))) }
{
    let mut later = false;
    for filter in filters {
        let grouped = is_list(filter);
        push_if(text, later, " and ")?;
        push_if(text, grouped, "(")?;
        push_filter(alloc, text, filter)?;
        push_if(text, grouped, ")")?;
        later = true;
    }
    Ok(())
}

/// Adds filters with `or` between them.
#[cycle(print)]
fn push_any(alloc: Global, text: &mut String, filters: &[Filter]) -> Result<(), AllocError>
    ensures { IfOk result (λ _. string_bytes text.new ≡ string_bytes text.old ++ any_text false (list_of (map tree_of filters.now))) }
{
    let mut later = false;
    for filter in filters {
        let grouped = is_any(filter);
        push_if(text, later, " or ")?;
        push_if(text, grouped, "(")?;
        push_filter(alloc, text, filter)?;
        push_if(text, grouped, ")")?;
        later = true;
    }
    Ok(())
}

impl Filter {
    /// The filter as a text, with one blank between tokens, and no parentheses that aren't needed.
    ///
    /// # Errors
    ///
    /// Memory was refused.
    pub fn print(&self, alloc: Global) -> Result<String, AllocError>
        ensures { IfOk result (λ text. string_bytes text ≡ text_of (tree_of self.now)) }
    {
        let mut text = String::new(alloc);
        push_filter(alloc, &mut text, self)?;
        Ok(text)
    }
}
