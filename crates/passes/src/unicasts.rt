// Unicast messages of a pass.

ghost use Rattle.std.specs.Prelude.{◌≡◌, [], IfOk, IfErr, IfSome, MatchResult};
ghost use Rattle.routing.specs.RecipientSeats.{HasSeat, Keeps, Unrouted};
ghost use Rattle.routing.specs.Turns.{KeepsTurns, StandsAt};
ghost use Rattle.passes.specs.Deliveries.{IsDelivered};
ghost use Rattle.passes.specs.Passes.{IsOpenTo};
ghost use Rattle.passes.specs.Unicasts.{Unicasts, IsUnsent};

use crate::error::BusError;
use crate::pass::Pass;
use crate::reading::Source;
use crate::seating::seat_owner;
use crate::standing::Standing;
use bytes::Bytes;
use published::BusBrand;
use routing::{Mailbox, Sender, Sent as PutOrFull, Turns};
use std::alloc::{AllocError, Global};
use std::sync::Wait;

/// What became of a unicast message.
#[derive(Clone, Copy, Debug, PartialEq, Eq)]
pub enum Sent {
    /// It was put to the connection of this number.
    Put(u64),
    /// Nobody owns the name.
    NoOwner,
    /// The outbox of the connection of this number is full or shut.
    Full(u64),
}

/// Puts a message to the connection that was found, if one was, once the sender has its seat there, at this place if at any.
pub(crate) fn deliver<M: Mailbox, W: Wait>(
    rt: &W,
    alloc: Global,
    sender: &mut Sender<M>,
    seated: Result<Option<u64>, AllocError>,
    bytes: &Bytes,
    place: Option<u64>,
    turns: &mut Turns,
) -> Result<Sent, BusError>
    requires has { IfOk seated (λ owner. IfSome owner (λ n. HasSeat n sender.old.recipient_seats)) }
    requires stands { IfOk seated (λ owner. IfSome owner (λ n. StandsAt place n sender.old.recipient_seats turns.old)) }
    ensures turns { KeepsTurns turns.old turns.new }
    ensures keeps { Keeps [] sender.old sender.new }
    ensures sent { IfOk result (IsDelivered place seated bytes.now sender.old sender.new) }
    ensures err { IfErr result (λ error. (error ≡ BusError.NoMemory) × Unrouted sender.old sender.new) }
{
    let number = match seated {
        Ok(Some(number)) => number,
        Ok(None) => return Ok(Sent::NoOwner),
        Err(_) => return Err(BusError::NoMemory),
    };
    match sender.unicast(rt, alloc, number, bytes, place, turns) {
        Ok(PutOrFull::Put) => Ok(Sent::Put(number)),
        Ok(PutOrFull::Full) => Ok(Sent::Full(number)),
        Err(_) => Err(BusError::NoMemory),
    }
}

impl<B: BusBrand, M: Mailbox> Pass<B, M> {
    /// Finds the owner of a name, which is unique or well-known, leaves the published state, and puts the message into
    /// the owner's outbox.
    ///
    /// # Errors
    ///
    /// Nothing was put then. `Closed` where the pass was never connected, or was closed and the message isn't the bus's, or
    /// the bus is gone; `NoMemory`.
    pub fn send_to<W: Wait>(
        &mut self,
        rt: &W,
        alloc: Global,
        source: Source,
        to: &str,
        bytes: &Bytes,
    ) -> Result<Sent, BusError>
        ensures sent { MatchResult result (λ sent. Unicasts Standing.Apart M.outbox_of to.now bytes.now self.old sent self.new) (λ error. IsUnsent M.outbox_of error self.old self.new) }
        ensures open { IfOk result (λ _. IsOpenTo source self.old) }
    {
        let guard = self.enter(source)?;
        let mut sender = self.take_sender(alloc);
        let seated = seat_owner(guard.state(), &mut sender, to);
        self.leave(guard);
        let answer = deliver(
            rt,
            alloc,
            &mut sender,
            seated,
            bytes,
            None,
            &mut Turns::new(alloc),
        );
        let _ = sender.seats();
        self.put_back(sender);
        answer
    }
}
