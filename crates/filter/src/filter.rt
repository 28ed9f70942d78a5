// Filters.

ghost use Rattle.std.specs.Prelude.{◌≡◌, map, IfOk};
ghost use Rattle.filter.specs.FilterTree.{all_of, any_of, with_nots};
ghost use Rattle.filter.specs.Filters.{tree_of};

use crate::test::Test;
use std::alloc::{AllocError, Global};

/// What a message has to be. A list has two filters or more.
#[derive(Debug, Drop)]
pub enum Filter {
    Test(Test),
    /// Each of them holds.
    All(Vec<Filter>),
    /// One of them holds.
    Any(Vec<Filter>),
    /// It doesn't hold.
    Not(Box<Filter>),
}

impl Filter {
    /// The filter of a list of `and`, which is the filter in it where it has one alone.
    pub(crate) fn all(mut filters: Vec<Filter>) -> Filter
        ensures { tree_of result ≡ all_of (map tree_of filters.items) }
    {
        if filters.len() == 1
            && let Some(only) = filters.pop()
        {
            return only;
        }
        Filter::All(filters)
    }

    /// The filter of a list of `or`, which is the filter in it where it has one alone.
    pub(crate) fn any(mut filters: Vec<Filter>) -> Filter
        ensures { tree_of result ≡ any_of (map tree_of filters.items) }
    {
        if filters.len() == 1
            && let Some(only) = filters.pop()
        {
            return only;
        }
        Filter::Any(filters)
    }

    /// The filter after n times `not`.
    pub(crate) fn with_nots(self, alloc: Global, times: usize) -> Result<Filter, AllocError>
        ensures { IfOk result (λ filter. tree_of filter ≡ with_nots times (tree_of self)) }
    {
        let mut filter = self;
        for _ in 0..times {
            filter = Filter::Not(Box::new(alloc, filter)?);
        }
        Ok(filter)
    }
}
