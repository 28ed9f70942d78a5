// Filters as programs that aren't lowered yet.
ghost use Rattle.std.specs.Prelude.{◌≡◌, ◌<◌, ◌≤◌, length, map, IfOk};
ghost use Rattle.filter.specs.FilterTree.{list_of};
ghost use Rattle.filter.specs.Filters.{tree_of};
ghost use Rattle.filter.specs.Weights.{tests_weight, sum_weight};
ghost use Rattle.filter_compile.specs.Entered.{Entered};
ghost use Rattle.filter_compile.specs.FilterCode.{filter_code, all_code, any_code};

use crate::code::Code;
use crate::exits::Exits;
use crate::names::Names;
use crate::test::put_test;
use filter::Filter;
use std::alloc::AllocError;

/// Puts the program of a filter in front, and gives where it begins: how many instructions there are from there to the end.
#[cycle(filter)]
pub(crate) fn put_filter(
    code: &mut Code,
    names: &Names<'_>,
    filter: &Filter,
    exits: Exits,
) -> Result<usize, AllocError>
    requires names { length names.now ≤ 512 }
    requires weight { tests_weight (tree_of filter.now) ≤ 4096 }
    ensures { IfOk result (λ entry. record { code = code.new; entry = entry } ≡ filter_code names.now (tree_of filter.now) exits code.old) }
{
    match filter {
        Filter::Test(test) => {
            put_test(code, names, test, exits)?;
            Ok(code.len())
        }
        Filter::All(filters) => put_all(code, names, filters.as_slice(), exits),
        Filter::Any(filters) => put_any(code, names, filters.as_slice(), exits),
        Filter::Not(filter) => put_filter(code, names, filter, exits.turned()),
    }
}

/// Puts filters in front each of which is to hold.
#[cycle(filter)]
fn put_all(
    code: &mut Code,
    names: &Names<'_>,
    filters: &[Filter],
    exits: Exits,
) -> Result<usize, AllocError>
    requires names { length names.now ≤ 512 }
    requires weight { sum_weight (list_of (map tree_of filters.now)) ≤ 4096 }
    ensures { IfOk result (λ entry. record { code = code.new; entry = entry } ≡ all_code names.now (list_of (map tree_of filters.now)) exits.fails (record { code = code.old; entry = exits.holds })) }
{
    let mut next = exits;
    for place in (0..filters.len()).rev() {
        next.holds = put_filter(code, names, &filters[place], next)?;
    }
    Ok(next.holds)
}

/// Puts filters in front one of which is to hold.
#[cycle(filter)]
fn put_any(
    code: &mut Code,
    names: &Names<'_>,
    filters: &[Filter],
    exits: Exits,
) -> Result<usize, AllocError>
    requires names { length names.now ≤ 512 }
    requires weight { sum_weight (list_of (map tree_of filters.now)) ≤ 4096 }
    ensures { IfOk result (λ entry. record { code = code.new; entry = entry } ≡ any_code names.now (list_of (map tree_of filters.now)) exits.holds (record { code = code.old; entry = exits.fails })) }
{
    let mut next = exits;
    for place in (0..filters.len()).rev() {
        next.fails = put_filter(code, names, &filters[place], next)?;
    }
    Ok(next.fails)
}
