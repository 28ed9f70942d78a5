// Broadcasts of a pass.

ghost use Rattle.std.specs.Prelude.{◌≡◌, ◌⊎◌, [], ℕ, IfErr, IfOk, OnOk, MatchResult};
ghost use Rattle.routing.specs.RecipientSeats.{RisesFrom, AllHave, Keeps, Routed, Unrouted, all_written};
ghost use Rattle.routing.specs.Turns.{KeepsTurns, MayStand};
ghost use Rattle.passes.specs.Passes.{IsOpenTo};
ghost use Rattle.passes.specs.Sending.{SendsFor, count_in, recipient_seats_in};
ghost use Rattle.passes.specs.Routes.{HasRouted, IsUnrouted, pass_written};

use crate::error::BusError;
use crate::pass::Pass;
use crate::reading::Source;
use crate::route_lists::RouteLists;
use crate::seating::seat_recipients;
use crate::standing::Standing;
use arrayvec::ArrayVec;
use bytes::Bytes;
use fan_out::MAX_RECIPIENTS;
use message_view::View;
use published::BusBrand;
use routing::{Gate, Mailbox, RouteError, Sender, Turns};
use std::alloc::{AllocError, Global};
use std::sync::Wait;

/// Puts a broadcast to its recipients, once the sender has its seats, at this place if at any.
pub(crate) fn route<M: Mailbox, W: Wait, G: Gate>(
    rt: &W,
    alloc: Global,
    sender: &mut Sender<M>,
    seated: Result<(), AllocError>,
    recipients: &ArrayVec<u64, MAX_RECIPIENTS>,
    bytes: &Bytes,
    place: Option<u64>,
    turns: &mut Turns,
    gate: &G,
    refused: &mut ArrayVec<u64, MAX_RECIPIENTS>,
) -> Result<(), BusError>
    requires none { refused.old.items ≡ [] }
    requires rising { RisesFrom 0 recipients.now.items }
    requires seats { OnOk seated (AllHave recipients.now.items sender.old.recipient_seats) }
    requires stands { MayStand place recipients.now.items sender.old.recipient_seats turns.old }
    ensures turns { KeepsTurns turns.old turns.new }
    ensures keeps { Keeps [] sender.old sender.new }
    ensures ok { OnOk result (Routed place bytes.now recipients.now.items refused.new.items sender.old sender.new) }
    ensures err { IfErr result (λ error. ((error ≡ BusError.NoMemory) ⊎ ((error ≡ BusError.Counts) × (sender.old.count ≡ u64.MAX))) × Unrouted sender.old sender.new) }
{
    match seated {
        Ok(()) => {}
        Err(_) => return Err(BusError::NoMemory),
    }
    match sender.broadcast(
        rt,
        alloc,
        recipients.as_slice(),
        bytes,
        place,
        turns,
        gate,
        refused,
    ) {
        Ok(()) => Ok(()),
        Err(RouteError::NoMemory) => Err(BusError::NoMemory),
        Err(RouteError::Counts) => Err(BusError::Counts),
    }
}

impl<B: BusBrand, M: Mailbox> Pass<B, M> {
    /// Finds the recipients of a broadcast, leaves the published state, and puts the message into their outboxes, without
    /// any lock. The caller's lists are then of this broadcast: its recipients, and those whose outbox refused it, a shut
    /// one included. No outbox gives the message out before it was put at all of them. Nothing is written out:
    /// `push_out` does it. `gate.before(0)` is called once the published state is left and the seats are there, before the
    /// first put, and `gate.after(0)` after the last, before the message is given out.
    ///
    /// # Errors
    ///
    /// Nothing was put then. `Closed` if the pass was never connected, or was closed and the message isn't the bus's, or
    /// the bus is gone; `NoMemory`; `Counts` if the pass's last count was used.
    pub fn broadcast<W: Wait, G: Gate>(
        &mut self,
        rt: &W,
        alloc: Global,
        source: Source,
        view: &View<'_>,
        bytes: &Bytes,
        gate: &G,
        lists: &mut RouteLists,
    ) -> Result<(), BusError>
        // The view is that of the bytes.
        requires { view.now ≡ bytes.now }
        ensures routed { MatchResult result (λ _. HasRouted Standing.Apart M.outbox_of source bytes.now self.old lists.new.recipients.items lists.new.refused.items self.new) (λ error. IsUnrouted M.outbox_of error self.old self.new) }
        ensures open { IfOk result (λ _. IsOpenTo source self.old) }
    {
        lists.clear();
        let guard = self.enter(source)?;
        let mut sender = self.take_sender(alloc);
        let from = source.sender(self.connection());
        let seated = seat_recipients(
            guard.state(),
            view,
            from,
            &mut sender,
            &mut lists.marks,
            &mut lists.recipients,
        );
        self.leave(guard);
        let answer = route(
            rt,
            alloc,
            &mut sender,
            seated,
            &lists.recipients,
            bytes,
            None,
            &mut Turns::new(alloc),
            gate,
            &mut lists.refused,
        );
        let _ = sender.seats();
        self.put_back(sender);
        answer
    }

    /// Writes out what stands in each outbox into which the pass has put since the last call. Nothing is held any more.
    pub fn push_out<W: Wait>(&mut self, rt: &W)
        ensures { self.new ≡ pass_written self.old }
    {
        push_out(rt, &mut self.sender);
    }
}

// Has a sender, if there is one, write out what it put.
fn push_out<M: Mailbox, W: Wait>(rt: &W, sender: &mut Option<Sender<M>>)
    ensures seats { recipient_seats_in sender.new ≡ all_written (recipient_seats_in sender.old) }
    ensures count { count_in sender.new ≡ count_in sender.old }
    ensures stays { (connection : ℕ) → SendsFor connection sender.old → SendsFor connection sender.new }
{
    if let Some(sender) = sender {
        sender.push_out(rt);
    }
}
