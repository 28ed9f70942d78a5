// Unicast messages through the bus.

ghost use Rattle.std.specs.Prelude.{IfOk, MatchResult};
ghost use Rattle.passes.specs.Passes.{IsOpenTo};
ghost use Rattle.passes.specs.Unicasts.{Unicasts, IsUnsent};

use crate::bus::Bus;
use bytes::Bytes;
use passes::{BusBrand, BusError, Mailbox, Pass, Sent, Source, Standing};
use std::alloc::Global;
use std::sync::Wait;

impl<B: BusBrand, M: Mailbox, R: Wait + Drop> Bus<B, M, R> {
    /// Finds the owner of a name, which is unique or well-known, leaves the published state, and puts the message into
    /// the owner's outbox. Nothing is written out: `Pass::push_out` does it.
    ///
    /// # Errors
    ///
    /// Nothing was put then. `Closed` where the pass was never connected, or was closed, or the bus is gone;
    /// `NoMemory`.
    pub fn unicast<W: Wait>(
        &self,
        rt: &W,
        alloc: Global,
        pass: &mut Pass<B, M>,
        to: &str,
        bytes: &Bytes,
    ) -> Result<Sent, BusError>
        ensures sent { MatchResult result (λ sent. Unicasts Standing.Apart M.outbox_of to.now bytes.now pass.old sent pass.new) (λ error. IsUnsent M.outbox_of error pass.old pass.new) }
        ensures open { IfOk result (λ _. IsOpenTo Source.Own pass.old) }
    {
        pass.send_to(rt, alloc, Source::Own, to, bytes)
    }
}
