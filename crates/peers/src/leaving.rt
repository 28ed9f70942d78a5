// How a peer leaves the bus.

ghost use Rattle.std.specs.Prelude.{◌≡◌, codes};
ghost use Rattle.peers.specs.Announcements.{TellsOwner};
ghost use Rattle.peers.specs.Departure.{Departs, Leaves, HasLeft, AreGivenUp, GivesUpName, Closes, ClosesPass, IsClosing, giving_of, told_by};
ghost use Rattle.peers.specs.PeerState.{name_of};

use crate::context::Context;
use crate::error::AnswerError;
use crate::peer::Peer;
use bus_messages::UniqueName;
use owners::MAX_CLAIMS;
use router::{BusBrand, BusError, Control, Mailbox, NameCall, Reply, RouteLists, Standing};
use std::sync::Wait;

/// Whether a peer that leaves is told that its unique name is lost.
#[derive(Clone, Copy, Debug, PartialEq, Eq)]
pub(crate) enum Farewell {
    /// Its client is gone.
    Silent,
    /// Its client stays, to watch the bus.
    Told,
}

/// How far a peer's leaving came.
#[derive(Clone, Copy, Debug, PartialEq, Eq)]
pub enum Leaving {
    /// It has left: its pass is closed.
    Done,
    /// The bus has ended, and its connections with it.
    Ended,
    /// Memory was refused: it is still on the bus, maybe without some of its names.
    Refused,
}

/// What giving up a name came to.
enum Giving {
    /// A name was given up, and there may be a further one.
    Further,
    /// No name is left, or the bus has ended.
    Last,
    /// Memory was refused.
    Refused,
}

impl<B: BusBrand, M: Mailbox> Peer<B, M> {
    /// Watches the bus no more, gives up the client's names one after the other, each change announced, closes its pass, announces that its own
    /// name is gone, answers NoReply to those who wait for the client's replies, and writes out what was put. A message that
    /// memory refuses is left out. Answers how far it came, and what became of all these messages.
    ///
    /// # Errors
    ///
    /// As those of `announce`.
    pub fn leave<W: Wait, R: Wait + Drop>(
        &mut self,
        context: &Context<'_, B, M, W, R>,
        lists: &mut RouteLists,
    ) -> (Leaving, Result<(), AnswerError>)
        ensures leaves { Leaves M.outbox_of self.old result.0 result.1 self.new }
        ensures closed { HasLeft result.0 self.new }
    {
        context
            .bus
            .monitors()
            .remove(context.rt, self.pass.connection());
        let leaving = self.depart(context, lists, Farewell::Silent);
        self.pass.push_out(context.rt);
        leaving
    }

    /// Leaves the bus, as `leave` says, but that nothing is written out. A client that stays is told that its unique name is lost,
    /// before that is announced.
    #[tactic(auto, using(crate::proofs::Departing::departed, crate::proofs::Departing::stayed))]
    pub(crate) fn depart<W: Wait, R: Wait + Drop>(
        &mut self,
        context: &Context<'_, B, M, W, R>,
        lists: &mut RouteLists,
        farewell: Farewell,
    ) -> (Leaving, Result<(), AnswerError>)
        ensures leaves { Departs M.outbox_of farewell self.old result.0 result.1 self.new }
        ensures closed { HasLeft result.0 self.new }
    {
        let (are_given_up, announced) = self.give_up_names(context, lists);
        if are_given_up {
            let (leaving, told) = self.close(context, lists, farewell);
            (leaving, announced.and(told))
        } else {
            (Leaving::Refused, announced)
        }
    }

    // Whether no name is left, and what became of the announcements.
    fn give_up_names<W: Wait, R: Wait + Drop>(
        &mut self,
        context: &Context<'_, B, M, W, R>,
        lists: &mut RouteLists,
    ) -> (bool, Result<(), AnswerError>)
        ensures { AreGivenUp M.outbox_of result.0 self.old result.1 self.new }
    {
        let mut announced = Ok(());
        for count in 0..=MAX_CLAIMS {
            let (giving, told) = self.give_up_name(context, lists);
            announced = announced.and(told);
            match giving {
                Giving::Further => {}
                Giving::Last => return (true, announced),
                Giving::Refused => return (false, announced),
            }
        }
        (false, announced)
    }

    fn give_up_name<W: Wait, R: Wait + Drop>(
        &mut self,
        context: &Context<'_, B, M, W, R>,
        lists: &mut RouteLists,
    ) -> (Giving, Result<(), AnswerError>)
        ensures { GivesUpName M.outbox_of self.old result.0 result.1 self.new }
    {
        let mut control = context.bus.control(context.rt);
        if control.claims_nothing(&mut self.pass) {
            return (Giving::Last, Ok(()));
        }
        let (dropped, announced) = self.change_owner(
            context,
            lists,
            &mut control,
            &NameCall::DropOne,
        );
        (giving_of(dropped), announced)
    }

    // Takes the connection off the bus, and ends the calls that wait.
    fn close<W: Wait, R: Wait + Drop>(
        &mut self,
        context: &Context<'_, B, M, W, R>,
        lists: &mut RouteLists,
        farewell: Farewell,
    ) -> (Leaving, Result<(), AnswerError>)
        ensures leaves { Closes M.outbox_of farewell self.old result.0 result.1 self.new }
        ensures closed { HasLeft result.0 self.new }
    {
        let (leaving, announced) = self.close_pass(context, lists, farewell);
        match leaving {
            Leaving::Done => {
                let answered = self.end_calls(context);
                (Leaving::Done, announced.and(answered))
            }
            Leaving::Ended => (Leaving::Ended, announced),
            Leaving::Refused => (Leaving::Refused, announced),
        }
    }

    // Takes the connection off the bus, and announces that before anybody is answered that it is gone.
    fn close_pass<W: Wait, R: Wait + Drop>(
        &mut self,
        context: &Context<'_, B, M, W, R>,
        lists: &mut RouteLists,
        farewell: Farewell,
    ) -> (Leaving, Result<(), AnswerError>)
        ensures closes { ClosesPass M.outbox_of farewell self.old result.0 result.1 self.new }
        ensures closed { HasLeft result.0 self.new }
    {
        let mut guard = context.bus.control(context.rt);
        let control = &mut *guard;
        // One whose outbox has no room for this is Slow at its next step.
        let lost = self.bid_farewell(context, control, farewell);
        let closed = control.close(&mut self.pass);
        self.announce_closed(context, lists, control, lost, closed)
    }

    // Tells a client that stays that its unique name is lost, at the place of the command that will close its pass.
    fn bid_farewell<W: Wait, R: Wait + Drop>(
        &mut self,
        context: &Context<'_, B, M, W, R>,
        control: &mut Control<B, M, R>,
        farewell: Farewell,
    ) -> Result<(), AnswerError>
        ensures told { TellsOwner Standing.Next M.outbox_of control.old.history (codes "NameLost") (name_of self.old) (told_by farewell self.old) self.old result self.new }
        ensures control { control.new ≡ control.old }
    {
        match farewell {
            Farewell::Silent => Ok(()),
            Farewell::Told => {
                let number = self.pass.connection();
                let name = UniqueName::new(number);
                self.tell_lost(context, control, Standing::Next, number, name.as_str())
            }
        }
    }

    // Announces that the client's unique name is gone, if its pass was closed, after the farewell.
    fn announce_closed<W: Wait, R: Wait + Drop>(
        &mut self,
        context: &Context<'_, B, M, W, R>,
        lists: &mut RouteLists,
        control: &mut Control<B, M, R>,
        lost: Result<(), AnswerError>,
        closed: Result<Reply, BusError>,
    ) -> (Leaving, Result<(), AnswerError>)
        ensures { IsClosing M.outbox_of control.old.history closed lost self.old result.0 result.1 self.new }
    {
        match closed {
            Ok(_) => {
                context.bus.tally_of_gone().add(self.own.tally().counts());
                let gone = self.announce_departure(context, lists, control);
                (Leaving::Done, lost.and(gone))
            }
            Err(BusError::NoMemory) => (Leaving::Refused, lost),
            Err(_) => (Leaving::Ended, lost),
        }
    }
}

/// What giving up a name came to, by what the bus answered.
fn giving_of(dropped: Result<Reply, BusError>) -> Giving
    ensures { result ≡ giving_of dropped }
{
    match dropped {
        Ok(Reply::Changed(_)) | Ok(Reply::Waiting) => Giving::Further,
        Ok(_) => Giving::Last,
        Err(BusError::NoMemory) => Giving::Refused,
        Err(_) => Giving::Last,
    }
}
