// What is told of names, under the lock of the bus, in the order of its history.

ghost use Rattle.std.specs.Prelude.{◌≡◌, IfErr, IfOk, IfSome, MatchResult, OnErr, OnOk};
ghost use Rattle.passes.specs.Passes.{IsOpenTo};
ghost use Rattle.passes.specs.Routes.{HasRouted, IsUnrouted};
ghost use Rattle.passes.specs.Unicasts.{Unicasts, IsUnsent};

use crate::control::Control;
use crate::error::BusError;
use crate::pass::Pass;
use crate::reading::Source;
use crate::route_lists::RouteLists;
use crate::routes::route;
use crate::seating::{seat_owner, seat_those_there};
use crate::standing::Standing;
use crate::unicasts::{Sent, deliver};
use bytes::Bytes;
use message_view::View;
use published::BusBrand;
use routing::{Mailbox, OpenGate, Turns};
use std::alloc::Global;
use std::sync::Wait;

// Puts at this place from now on, if it is one.
fn stand_at(turns: &mut Turns, place: Option<u64>) -> Result<(), BusError>
    ensures turns { turns.new.turns ≡ turns.old.turns }
    ensures at { OnOk result (IfSome place (λ p. p ≡ turns.new.latest)) }
    ensures error { IfErr result (λ error. error ≡ BusError.Closed) }
{
    match place {
        Some(place) if !turns.stand_at(place) => Err(BusError::Closed),
        _ => Ok(()),
    }
}

impl<B: BusBrand, M: Mailbox, R: Wait + Drop> Control<B, M, R> {
    /// Puts a broadcast about names into the outboxes of its recipients, as the pass's `broadcast` does, at the place at which it
    /// stands in the history. The recipients are those of what is published, which the pass has then seen.
    ///
    /// # Errors
    ///
    /// Nothing was put then. `Closed` if the pass was never connected, or was closed and the message isn't the bus's, or if
    /// something was put that stands later, as once the bus has ended; `NoMemory`; `Counts` if the pass's last count was used.
    pub fn broadcast<W: Wait>(
        &mut self,
        rt: &W,
        alloc: Global,
        pass: &mut Pass<B, M>,
        standing: Standing,
        source: Source,
        view: &View<'_>,
        bytes: &Bytes,
        lists: &mut RouteLists,
    ) -> Result<(), BusError>
        // The view is that of the bytes.
        requires { view.now ≡ bytes.now }
        ensures same { self.new ≡ self.old }
        ensures routed { MatchResult result (λ _. HasRouted standing M.outbox_of source bytes.now pass.old lists.new.recipients.items lists.new.refused.items pass.new) (λ error. IsUnrouted M.outbox_of error pass.old pass.new) }
        ensures open { IfOk result (λ _. IsOpenTo source pass.old) }
        ensures seen { IfOk result (λ _. pass.new.seen ≡ self.old.history) }
    {
        lists.clear();
        pass.check_open(source)?;
        let place = standing.place(self.publisher.value.commands())?;
        stand_at(&mut self.turns, place)?;
        self.tell(pass)?;
        let mut sender = pass.take_sender(alloc);
        let from = source.sender(pass.connection());
        let seated = seat_those_there(
            self.state(),
            view,
            from,
            &mut sender,
            &mut lists.marks,
            &mut lists.recipients,
        );
        let answer = route(
            rt,
            alloc,
            &mut sender,
            seated,
            &lists.recipients,
            bytes,
            place,
            &mut self.turns,
            &OpenGate,
            &mut lists.refused,
        );
        let _ = sender.seats();
        pass.put_back(sender);
        answer
    }

    /// Puts a message about names into the outbox of the owner of a name, as the pass's `send_to` does, at the place at which it
    /// stands in the history. The owner is that of what is published, which the pass has then seen.
    ///
    /// # Errors
    ///
    /// Nothing was put then. `Closed` if the pass was never connected, or was closed and the message isn't the bus's, or if
    /// something was put that stands later, as once the bus has ended; `NoMemory`.
    pub fn send_to<W: Wait>(
        &mut self,
        rt: &W,
        alloc: Global,
        pass: &mut Pass<B, M>,
        standing: Standing,
        source: Source,
        to: &str,
        bytes: &Bytes,
    ) -> Result<Sent, BusError>
        ensures same { self.new ≡ self.old }
        ensures sent { MatchResult result (λ sent. Unicasts standing M.outbox_of to.now bytes.now pass.old sent pass.new) (λ error. IsUnsent M.outbox_of error pass.old pass.new) }
        ensures open { IfOk result (λ _. IsOpenTo source pass.old) }
        ensures seen { IfOk result (λ _. pass.new.seen ≡ self.old.history) }
    {
        pass.check_open(source)?;
        let place = standing.place(self.publisher.value.commands())?;
        stand_at(&mut self.turns, place)?;
        self.tell(pass)?;
        let mut sender = pass.take_sender(alloc);
        let seated = seat_owner(self.state(), &mut sender, to);
        let answer = deliver(
            rt,
            alloc,
            &mut sender,
            seated,
            bytes,
            place,
            &mut self.turns,
        );
        let _ = sender.seats();
        pass.put_back(sender);
        answer
    }
}
