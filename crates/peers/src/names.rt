// The calls that change who owns a name.

ghost use Rattle.std.specs.Prelude.{◌≡◌, IfErr};
ghost use Rattle.peers.specs.Answers.{IsPutAt, UnlessShut};
ghost use Rattle.peers.specs.NameRows.{RequestsName, ReleasesName, TellsNamed};
ghost use Rattle.peers.specs.OwnerChanges.{ChangesOwner, ChangesAhead};

use crate::context::Context;
use crate::error::AnswerError;
use crate::holdings::Holdings;
use crate::peer::Peer;
use crate::refused::Refused;
use crate::request::Request;
use bus_messages::{Body, ErrorName};
use owners::{Change, WellKnown};
use router::{BusBrand, BusError, Control, Mailbox, NameCall, Reply, RouteLists, Standing};
use std::mem;
use std::sync::Wait;

impl<B: BusBrand, M: Mailbox> Peer<B, M> {
    pub(crate) fn request_name<W: Wait, R: Wait + Drop>(
        &mut self,
        context: &Context<'_, B, M, W, R>,
        lists: &mut RouteLists,
        request: Request,
        name: &str,
        flags: u32,
    ) -> Result<(), AnswerError>
        ensures row { RequestsName M.outbox_of context.now.shares request name.now flags self.old result self.new }
        ensures error { UnlessShut request.wants_answer result self.new }
    {
        let Ok(name) = WellKnown::read(name) else {
            return self.refuse(context, request, Refused::Error(ErrorName::InvalidArgs));
        };
        if let Err(why) = self.holdings.admit_name(context.shares, &name) {
            return self.refuse(context, request, why);
        }
        let mut guard = context.bus.control(context.rt);
        let control = &mut *guard;
        let call = NameCall::Request(name.copy(), flags);
        // What the client holds stands aside meanwhile, with the room that was made for the name.
        let mut holdings = mem::replace(&mut self.holdings, Holdings::new(context.alloc));
        let (asked, announced) = self.change_owner(context, lists, control, &call);
        holdings.note_request(&name, &asked);
        self.holdings = holdings;
        let answered = self.answer_named(context, control, request, asked);
        announced.and(answered)
    }

    pub(crate) fn release_name<W: Wait, R: Wait + Drop>(
        &mut self,
        context: &Context<'_, B, M, W, R>,
        lists: &mut RouteLists,
        request: Request,
        name: &str,
    ) -> Result<(), AnswerError>
        ensures row { ReleasesName M.outbox_of request name.now self.old result self.new }
        ensures error { UnlessShut request.wants_answer result self.new }
    {
        let Ok(name) = WellKnown::read(name) else {
            return self.refuse(context, request, Refused::Error(ErrorName::InvalidArgs));
        };
        let mut guard = context.bus.control(context.rt);
        let control = &mut *guard;
        let call = NameCall::Release(name.copy());
        let (asked, announced) = self.change_owner(context, lists, control, &call);
        self.holdings.note_release(&name, &asked);
        let answered = self.answer_named(context, control, request, asked);
        announced.and(answered)
    }

    /// Makes a call that may change who owns a name, under the lock of the bus. A change is announced before it is in force, and
    /// given out once it is: so whoever finds the new owner, or hears from it, has the announcement in front of that. If
    /// memory is refused to the command, the bus has ended, and the announcement is never given out.
    ///
    /// # Errors
    ///
    /// That of the call, and that of the announcement, which is `NoMemory`.
    pub(crate) fn change_owner<W: Wait, R: Wait + Drop>(
        &mut self,
        context: &Context<'_, B, M, W, R>,
        lists: &mut RouteLists,
        control: &mut Control<B, M, R>,
        call: &NameCall,
    ) -> (Result<Reply, BusError>, Result<(), AnswerError>)
        ensures changes { ChangesOwner M.outbox_of call.now self.old control.old result.0 result.1 self.new control.new }
        ensures error { IfErr result.1 (λ error. error ≡ AnswerError.NoMemory) }
    {
        match control.foresee(&mut self.pass, call) {
            Ok(Some(change)) => self.change_announced(context, lists, control, call, &change),
            Ok(None) => (control.change_name(&mut self.pass, call), Ok(())),
            Err(error) => (Err(error), Ok(())),
        }
    }

    // Announces the change that a call will make, and then makes the call.
    fn change_announced<W: Wait, R: Wait + Drop>(
        &mut self,
        context: &Context<'_, B, M, W, R>,
        lists: &mut RouteLists,
        control: &mut Control<B, M, R>,
        call: &NameCall,
        change: &Change,
    ) -> (Result<Reply, BusError>, Result<(), AnswerError>)
        ensures changes { ChangesAhead M.outbox_of call.now change.now self.old control.old result.0 result.1 self.new control.new }
        ensures error { IfErr result.1 (λ error. error ≡ AnswerError.NoMemory) }
    {
        self.pass.hold(context.alloc);
        let announced = self.announce(context, lists, control, change);
        let asked = control.change_name(&mut self.pass, call);
        if asked.is_ok() {
            self.pass.release();
        } else {
            self.pass.withdraw();
        }
        (asked, announced)
    }

    fn answer_named<W: Wait, R: Wait + Drop>(
        &mut self,
        context: &Context<'_, B, M, W, R>,
        control: &mut Control<B, M, R>,
        request: Request,
        reply: Result<Reply, BusError>,
    ) -> Result<(), AnswerError>
        ensures row { TellsNamed (IsPutAt Standing.State M.outbox_of control.old.history) request reply self.old result self.new }
        ensures error { UnlessShut request.wants_answer result self.new }
    {
        match reply {
            Ok(Reply::Name(named)) => {
                let number = Body::Number(named.answer.number());
                self.answer_placed(context, control, request, number)
            }
            Ok(_) => Ok(()),
            Err(error) => self.refuse_placed(context, control, request, Refused::from(error)),
        }
    }
}
