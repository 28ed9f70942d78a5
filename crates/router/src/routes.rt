// Broadcasts through the bus.

ghost use Rattle.std.specs.Prelude.{◌≡◌, IfOk, MatchResult};
ghost use Rattle.passes.specs.Passes.{IsOpenTo};
ghost use Rattle.passes.specs.Routes.{HasRoutedToSome, IsUnrouted};

use crate::bus::Bus;
use arrayvec::ArrayVec;
use bytes::Bytes;
use message_view::View;
use passes::{BusBrand, BusError, MAX_RECIPIENTS, Mailbox, Pass, RouteLists, Source, Standing};
use routing::{Gate, OpenGate};
use std::alloc::Global;
use std::sync::Wait;

impl<B: BusBrand, M: Mailbox, R: Wait + Drop> Bus<B, M, R> {
    /// Finds the recipients of a broadcast, leaves the published state, and puts the message into their outboxes.
    /// Answers those whose outbox refused it, a shut one included, by rising number.
    /// Nothing is written out: `Pass::push_out` does it.
    ///
    /// # Errors
    ///
    /// Nothing was put then. `Closed` if the pass was never connected, or was closed and the message isn't the
    /// bus's, or the bus is gone; `NoMemory`; `Counts` if the pass's last count was used.
    pub fn route<W: Wait>(
        &self,
        rt: &W,
        alloc: Global,
        pass: &mut Pass<B, M>,
        source: Source,
        view: &View<'_>,
        bytes: &Bytes,
    ) -> Result<ArrayVec<u64, MAX_RECIPIENTS>, BusError>
        // The view is that of the bytes.
        requires { view.now ≡ bytes.now }
        ensures routed { MatchResult result (λ refused. HasRoutedToSome Standing.Apart M.outbox_of source bytes.now pass.old refused.items pass.new) (λ error. IsUnrouted M.outbox_of error pass.old pass.new) }
        ensures open { IfOk result (λ _. IsOpenTo source pass.old) }
    {
        self.route_gated(rt, alloc, pass, source, view, bytes, &OpenGate)
    }

    /// Routes as `route` does. `gate.before(0)` is called once the published state is left and the seats are there,
    /// before the first put, and `gate.after(0)` after the last. By it a test holds a broadcast back.
    pub fn route_gated<W: Wait, G: Gate>(
        &self,
        rt: &W,
        alloc: Global,
        pass: &mut Pass<B, M>,
        source: Source,
        view: &View<'_>,
        bytes: &Bytes,
        gate: &G,
    ) -> Result<ArrayVec<u64, MAX_RECIPIENTS>, BusError>
        // The view is that of the bytes.
        requires { view.now ≡ bytes.now }
        ensures routed { MatchResult result (λ refused. HasRoutedToSome Standing.Apart M.outbox_of source bytes.now pass.old refused.items pass.new) (λ error. IsUnrouted M.outbox_of error pass.old pass.new) }
        ensures open { IfOk result (λ _. IsOpenTo source pass.old) }
    {
        let mut lists = RouteLists::new();
        pass.broadcast(rt, alloc, source, view, bytes, gate, &mut lists)?;
        let RouteLists { refused, .. } = lists;
        Ok(refused)
    }
}
