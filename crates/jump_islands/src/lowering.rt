ghost use Rattle.std.specs.Prelude.{IfOk, IfErr};
ghost use Rattle.jump_islands.specs.Draft.{IsClosed};
ghost use Rattle.jump_islands.specs.Lowering.{IsLowered, IsRefusal};

use crate::draft::Draft;
use crate::error::LowerError;
use bpf_code::Ins;
use std::alloc::Global;

/// A program that does what a closed draft does: that of the draft as a source program.
pub fn lower(alloc: Global, draft: &Draft) -> Result<Vec<Ins>, LowerError>
    requires { IsClosed draft.now }
    ensures lowered { IfOk result (λ program. IsLowered draft.now program.items) }
    ensures refused { IfErr result (IsRefusal draft.now) }
{
    let source = draft.source(alloc)?;
    source.lower(alloc)
}
