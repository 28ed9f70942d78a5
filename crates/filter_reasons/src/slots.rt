// The slots of the names that filters ask for.

ghost use Rattle.std.specs.Prelude.{◌≡◌, ◌≤◌, ℕ, nat_lt, IfOk, IfErr};
ghost use Rattle.filter.specs.Filters.{tree_of};
ghost use Rattle.filter_compile.specs.Compiled.{AgreeOn, IsRefusal};
ghost use Rattle.summary.specs.Sets.{has_slot, IsSet};

use filter::Filter;
use filter_compile::{CompileError, Names};
use std::alloc::Global;
use summary::Slots;

/// A filter that asks for more names weighs more than 8 for each of them, and isn't compiled.
const MAX_NAMES: usize = 1024;

/// The slots of all names that a filter asks for, if the sender owns them, else none.
pub fn slots_of(alloc: Global, filter: &Filter, owns: bool) -> Result<Slots, CompileError>
    ensures owned { IfOk result (λ slots. IsSet slots × AgreeOn (tree_of filter.now) (λ name. owns) slots) }
    ensures refused { IfErr result (IsRefusal (tree_of filter.now)) }
{
    if !owns {
        return Ok(Slots::empty());
    }
    let names = Names::of(alloc, filter)?;
    let count = names.as_slice().len();
    if count > MAX_NAMES {
        return Err(CompileError::TooHeavy);
    }
    Ok(first_slots(count as u16))
}

/// The first `count` slots.
fn first_slots(count: u16) -> Slots
    requires { count ≤ 1024 }
    ensures set { IsSet result }
    ensures first { (slot : ℕ) → has_slot result slot ≡ nat_lt slot count }
{
    let mut slots = Slots::empty();
    for slot in 0..count {
        slots.insert(slot);
    }
    slots
}
