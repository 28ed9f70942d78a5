// The parentheses and the `not` that are open.

ghost use Rattle.std.specs.Prelude.{◌≡◌, ◌≤◌, Ok};
ghost use Rattle.filter.specs.Answers.{Reads, Gives};
ghost use Rattle.filter.specs.Filters.{tree_of};
ghost use Rattle.filter.specs.LevelViews.{nest_of};
ghost use Rattle.filter.specs.Levels.{empty_nest, max_open, open_in, nest_open, nest_not, nest_one, nest_or, nest_close, nest_end};

use crate::error::{Fault, StepError};
use crate::filter::Filter;
use crate::level::Level;
use std::alloc::Global;

/// The most `(` and `not` that are open at once.
const MAX_OPEN: usize = 64;

/// The levels around the one that is read, the innermost last, that level, and how many `(` and `not` are open.
#[derive(Drop)]
pub(crate) struct Nesting {
    outer: Vec<Level>,
    inner: Level,
    open_count: usize,
    ghost counted: { open_count ≡ open_in (nest_of outer.items inner) },
    ghost few: { open_count ≤ max_open },
}

impl Nesting {
    pub(crate) fn new(alloc: Global) -> Nesting
        ensures { nest_of result.outer.items result.inner ≡ empty_nest }
    {
        Nesting {
            outer: Vec::new(alloc),
            inner: Level::new(alloc),
            open_count: 0,
        }
    }

    /// After `(`.
    pub(crate) fn with_open(self, alloc: Global) -> Result<Nesting, StepError>
        ensures { Gives (λ n. nest_of n.outer.items n.inner) result (nest_open (nest_of self.outer.items self.inner)) }
    {
        if self.open_count == MAX_OPEN {
            return Err(StepError::Fault(Fault::Depth));
        }
        let mut outer = self.outer;
        outer.push(self.inner)?;
        Ok(Nesting {
            outer,
            inner: Level::new(alloc),
            open_count: self.open_count + 1,
        })
    }

    /// After `not`.
    pub(crate) fn with_not(self) -> Result<Nesting, Fault>
        ensures { Reads (λ n. nest_of n.outer.items n.inner) result (nest_not (nest_of self.outer.items self.inner)) }
    {
        if self.open_count == MAX_OPEN {
            return Err(Fault::Depth);
        }
        Ok(Nesting {
            outer: self.outer,
            inner: self.inner.with_not(),
            open_count: self.open_count + 1,
        })
    }

    /// After a filter.
    pub(crate) fn with_one(self, alloc: Global, filter: Filter) -> Result<Nesting, StepError>
        ensures { Gives (λ n. nest_of n.outer.items n.inner) result (Ok (nest_one (nest_of self.outer.items self.inner) (tree_of filter))) }
    {
        let open_count = self.open_count - self.inner.nots();
        let inner = self.inner.with_one(alloc, filter)?;
        Ok(Nesting {
            outer: self.outer,
            inner,
            open_count,
        })
    }

    /// After `or`.
    pub(crate) fn with_or(self, alloc: Global) -> Result<Nesting, StepError>
        ensures { Gives (λ n. nest_of n.outer.items n.inner) result (Ok (nest_or (nest_of self.outer.items self.inner))) }
    {
        let inner = self.inner.with_or(alloc)?;
        Ok(Nesting {
            outer: self.outer,
            inner,
            open_count: self.open_count,
        })
    }

    /// After `)`.
    pub(crate) fn with_close(self, alloc: Global) -> Result<Nesting, StepError>
        ensures { Gives (λ n. nest_of n.outer.items n.inner) result (nest_close (nest_of self.outer.items self.inner)) }
    {
        let mut outer = self.outer;
        let Some(level) = outer.pop() else {
            return Err(StepError::Fault(Fault::Unopened));
        };
        let open_count = self.open_count - self.inner.nots() - level.nots() - 1;
        let filter = self.inner.filter()?;
        let inner = level.with_one(alloc, filter)?;
        Ok(Nesting {
            outer,
            inner,
            open_count,
        })
    }

    /// At the end.
    pub(crate) fn finish(self) -> Result<Filter, StepError>
        ensures { Gives tree_of result (nest_end (nest_of self.outer.items self.inner)) }
    {
        if self.outer.is_empty() {
            self.inner.filter()
        } else {
            Err(StepError::Fault(Fault::Unclosed))
        }
    }
}
