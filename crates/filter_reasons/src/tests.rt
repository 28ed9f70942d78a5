// The tests of filters.

ghost use Rattle.std.specs.Prelude.{◌≡◌, ◌++◌, IfOk, map};
ghost use Rattle.filter.specs.FilterTree.{list_of};
ghost use Rattle.filter.specs.Filters.{tree_of};
ghost use Rattle.filter_reasons.specs.TestsOf.{tests_of, tests_in};
ghost use Rattle.filter_reasons.specs.Lent.{trees};

use filter::Filter;
use std::alloc::{AllocError, Global};

/// The tests of a filter, each as a filter of its own, in the order of the text.
pub(crate) fn tests_of<'a>(alloc: Global, filter: &'a Filter) -> Result<Vec<&'a Filter>, AllocError>
    ensures { IfOk result (λ tests. trees tests.items ≡ tests_of (tree_of filter.entry.now)) }
{
    let mut tests = Vec::new(alloc);
    add_tests(&mut tests, filter)?;
    Ok(tests)
}

/// Adds the tests of a filter.
#[cycle(tests)]
fn add_tests<'a>(tests: &mut Vec<&'a Filter>, filter: &'a Filter) -> Result<(), AllocError>
    ensures { IfOk result (λ _. trees tests.new.items ≡ trees tests.old.items ++ tests_of (tree_of filter.entry.now)) }
{
    match filter {
        Filter::Test(_) => Ok(tests.push(filter)?),
        Filter::All(filters) => add_all_tests(tests, filters.as_slice()),
        Filter::Any(filters) => add_all_tests(tests, filters.as_slice()),
        Filter::Not(filter) => add_tests(tests, filter),
    }
}

/// Adds the tests of filters.
#[cycle(tests)]
fn add_all_tests<'a>(tests: &mut Vec<&'a Filter>, filters: &'a [Filter]) -> Result<(), AllocError>
    ensures { IfOk result (λ _. trees tests.new.items ≡ trees tests.old.items ++ tests_in (list_of (map tree_of filters.entry.now))) }
{
    for filter in filters {
        add_tests(tests, filter)?;
    }
    Ok(())
}
