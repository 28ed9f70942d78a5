// The lists of an expression that aren't ended.

ghost use Rattle.std.specs.Prelude.{◌≡◌, ◌<◌, ◌^◌, Ok};
ghost use Rattle.filter.specs.Answers.{Gives};
ghost use Rattle.filter.specs.Filters.{tree_of};
ghost use Rattle.filter.specs.LevelViews.{level_of};
ghost use Rattle.filter.specs.Levels.{empty_level, with_not, with_one, with_or, filter_of};

use crate::error::StepError;
use crate::filter::Filter;
use std::alloc::Global;

/// What was read of an expression, or of what stands in parentheses: the lists of `and` that an `or` ended, the filters of
/// the last one, and how many `not` stand before the next filter.
#[derive(Drop)]
pub(crate) struct Level {
    alls: Vec<Filter>,
    ones: Vec<Filter>,
    nots: usize,
}

impl Level {
    pub(crate) fn new(alloc: Global) -> Level
        ensures { level_of result ≡ empty_level }
    {
        Level {
            alls: Vec::new(alloc),
            ones: Vec::new(alloc),
            nots: 0,
        }
    }

    /// How many `not` stand before the next filter.
    pub(crate) fn nots(&self) -> usize
        ensures { result ≡ self.now.nots }
    {
        self.nots
    }

    /// One more `not`.
    pub(crate) fn with_not(self) -> Level
        requires { self.nots < 2 ^ 63 }
        ensures { level_of result ≡ with_not (level_of self) }
    {
        Level {
            alls: self.alls,
            ones: self.ones,
            nots: self.nots + 1,
        }
    }

    /// One more filter, after the `not` that stand before it.
    pub(crate) fn with_one(self, alloc: Global, filter: Filter) -> Result<Level, StepError>
        ensures { Gives level_of result (Ok (with_one (level_of self) (tree_of filter))) }
    {
        let mut ones = self.ones;
        let one = filter.with_nots(alloc, self.nots)?;
        ones.push(one)?;
        Ok(Level {
            alls: self.alls,
            ones,
            nots: 0,
        })
    }

    /// An `or`, which ends a list of `and`.
    pub(crate) fn with_or(self, alloc: Global) -> Result<Level, StepError>
        ensures { Gives level_of result (Ok (with_or (level_of self))) }
    {
        let mut alls = self.alls;
        alls.push(Filter::all(self.ones))?;
        Ok(Level {
            alls,
            ones: Vec::new(alloc),
            nots: self.nots,
        })
    }

    /// The filter of all that was read.
    pub(crate) fn filter(self) -> Result<Filter, StepError>
        ensures { Gives tree_of result (Ok (filter_of (level_of self))) }
    {
        let mut alls = self.alls;
        alls.push(Filter::all(self.ones))?;
        Ok(Filter::any(alls))
    }
}
