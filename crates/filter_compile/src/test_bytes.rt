// The texts of a filter's tests.
ghost use Rattle.std.specs.Prelude.{map};
ghost use Rattle.message_value.specs.Bytes.{AreBytes};
ghost use Rattle.filter.specs.FilterTree.{list_of};
ghost use Rattle.filter.specs.Filters.{tree_of};
ghost use Rattle.filter_compile.specs.EachTest.{HasBytes, Each, EachIn};

use filter::{Filter, Test};

/// The bytes of a text are below 256.
fn text_bytes(text: &str)
    ensures { AreBytes text.now }
{}

fn has_bytes(test: &Test)
    ensures { HasBytes test.now }
{
    match test {
        Test::Text(_, _, value) => text_bytes(value.as_str()),
        Test::Within(_, _, value) => text_bytes(value.as_str()),
        _ => {}
    }
}

/// So are those of the texts of a filter's tests.
#[cycle(bytes)]
pub(crate) fn have_bytes(filter: &Filter)
    ensures { Each HasBytes (tree_of filter.now) }
{
    match filter {
        Filter::Test(test) => has_bytes(test),
        Filter::All(filters) => all_have_bytes(filters.as_slice()),
        Filter::Any(filters) => all_have_bytes(filters.as_slice()),
        Filter::Not(filter) => have_bytes(filter),
    }
}

#[cycle(bytes)]
fn all_have_bytes(filters: &[Filter])
    ensures { EachIn HasBytes (list_of (map tree_of filters.now)) }
{
    for filter in filters {
        have_bytes(filter);
    }
}
