// Whether a filter holds of a message, by its program.

ghost use Rattle.std.specs.Prelude.{◌↔◌, IsTrue, IfOk, IfErr};
ghost use Rattle.message_view.specs.Message.{Message};
ghost use Rattle.message_view.specs.Valid.{Valid};
ghost use Rattle.filter.specs.Filters.{tree_of};
ghost use Rattle.filter_compile.specs.Compiled.{IsRefusal};
ghost use Rattle.filter_compile.specs.Holds.{FilterHolds};

use crate::slots::slots_of;
use bpf_machine::run;
use filter::Filter;
use filter_compile::{CompileError, compile};
use message_view::View;
use std::alloc::Global;
use summary::{Edition, Image};

/// Whether a filter holds of a message. `owns` says whether the message's sender owns each name that the filter asks for.
pub(crate) fn holds(
    alloc: Global,
    filter: &Filter,
    view: &View<'_>,
    owns: bool,
) -> Result<bool, CompileError>
    ensures value { IfOk result (λ held. (m : Message) → Valid view.now m → (IsTrue held ↔ FilterHolds (tree_of filter.now) m (λ name. owns))) }
    ensures refused { IfErr result (IsRefusal (tree_of filter.now)) }
{
    let program = compile(alloc, filter)?;
    let slots = slots_of(alloc, filter, owns)?;
    let image = Image::new(view, &slots, Edition::Two);
    Ok(run(&program, &image).verdict != 0)
}
