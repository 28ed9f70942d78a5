// The first message of a session, which has to be Hello.

ghost use Rattle.std.specs.Prelude.{◌≡◌, true, IfOk, IfErr, IfSome, IsSomeAnd};
ghost use Rattle.message_view.specs.Message.{Message, interface_of, member_of};
ghost use Rattle.message_view.specs.Valid.{Valid};
ghost use Rattle.peers.specs.Answers.{SlowIfShut};
ghost use Rattle.peers.specs.Handling.{names_bus};
ghost use Rattle.router.specs.Passes.{new_pass};
ghost use Rattle.sessions.specs.Hello.{is_hello, is_hello_member};
ghost use Rattle.sessions.specs.Newcomers.{HasConnected, HasNotJoined, IsRegistered};

use crate::client::Newcomer;
use crate::error::SessionError;
use bus_messages::{Call, ErrorName};
use crossbeam_utils::rule::Protocol;
use message_view::View;
use peers::{
    AnswerError, BUS_NAME, BusBrand, BusError, Command, Context, Control, Mailbox, Pass, Peer,
    Published, Refused, Request, RouteLists, Shown, StateReader, is_for_bus, join, put_refusal,
};
use std::collections::LinkedList;
use std::sync::Wait;

/// Why the first message makes no peer. The newcomer comes back, and the pass that was made for it.
#[derive(Drop)]
pub(crate) struct Rejection<B: BusBrand, M: Mailbox>
where
    Published: Protocol<Shown<B, M>, LinkedList<Command<M>>>,
{
    error: SessionError,
    newcomer: Newcomer<B, M>,
    pass: Option<Pass<B, M>>,
}

impl<B: BusBrand, M: Mailbox> Rejection<B, M> {
    /// Gives the pass back to the bus, if there is one. Answers why the session ends, and the newcomer.
    pub(crate) fn give_back<W: Wait, R: Wait + Drop>(
        self,
        context: &Context<'_, B, M, W, R>,
    ) -> (SessionError, Newcomer<B, M>)
        ensures { result ≡ (self.error, self.newcomer) }
    {
        let Rejection {
            error,
            newcomer,
            pass,
        } = self;
        if let Some(pass) = pass {
            let _ = context.give_back(pass);
        }
        (error, newcomer)
    }
}

/// The peer that the first message makes of a newcomer, and what became of the answer and the announcements. It reads the bus's
/// state by the reader that is lent, or else by its own.
///
/// # Errors
///
/// `NoHello` if the message isn't the call Hello, and if Hello is refused, which is answered with the error; `Slow`;
/// `NoMemory`.
pub(crate) fn greet<B: BusBrand, M: Mailbox, W: Wait, R: Wait + Drop>(
    context: &Context<'_, B, M, W, R>,
    lists: &mut RouteLists,
    mut newcomer: Newcomer<B, M>,
    view: &View<'_>,
) -> Result<(Peer<B, M>, Result<(), AnswerError>), Rejection<B, M>>
    ensures peer { IfOk result (λ made. IsRegistered M.outbox_of view.now newcomer.outbox made.1 made.0) }
    ensures slow { IfOk result (λ made. SlowIfShut made.1 made.0) }
    ensures outbox { IfErr result (λ rejection. rejection.newcomer.outbox ≡ newcomer.outbox) }
    ensures pass { IfErr result (λ rejection. IfSome rejection.pass HasNotJoined) }
{
    if !is_hello(view) {
        return Err(Rejection {
            error: SessionError::NoHello,
            newcomer,
            pass: None,
        });
    }
    match pass_for(context, &mut newcomer.reader, view) {
        Ok(pass) => {
            let mut guard = context.bus.control(context.rt);
            let_in(context, lists, &mut guard, pass, newcomer, view)
        }
        Err(why) => Err(turn_away(context, newcomer, None, view, why)),
    }
}

// Lets a client in that has said Hello. Nobody is answered before its name is announced, since the caller keeps the lock of the
// bus. Just its Connect is published, and nothing if it isn't let in.
fn let_in<B: BusBrand, M: Mailbox, W: Wait, R: Wait + Drop>(
    context: &Context<'_, B, M, W, R>,
    lists: &mut RouteLists,
    control: &mut Control<B, M, R>,
    mut pass: Pass<B, M>,
    mut newcomer: Newcomer<B, M>,
    view: &View<'_>,
) -> Result<(Peer<B, M>, Result<(), AnswerError>), Rejection<B, M>>
    requires new { pass ≡ new_pass pass.seen }
    requires hello { (m : Message) → Valid view.now m → is_hello m ≡ true }
    ensures peer { IfOk result (λ made. IsRegistered M.outbox_of view.now newcomer.outbox made.1 made.0) }
    ensures slow { IfOk result (λ made. SlowIfShut made.1 made.0) }
    ensures outbox { IfErr result (λ rejection. rejection.newcomer.outbox ≡ newcomer.outbox) }
    ensures pass { IfErr result (λ rejection. IsSomeAnd rejection.pass HasNotJoined) }
    ensures published { IfOk result (λ _. HasConnected M.outbox_of newcomer.outbox control.old control.new) }
    ensures unpublished { IfErr result (λ _. control.new.history ≡ control.old.history) }
{
    match join(control, &mut pass, &mut newcomer.own) {
        Ok(()) => {
            let mut peer = newcomer.into_peer(context.alloc, pass);
            peer.show_first(context, control, view);
            let registered = peer.register(context, lists, control, Request::of(view));
            Ok((peer, registered))
        }
        Err(why) => Err(turn_away(context, newcomer, Some(pass), view, why)),
    }
}

// Answers a Hello that is refused, and says why the session ends.
fn turn_away<B: BusBrand, M: Mailbox, W: Wait, R: Wait + Drop>(
    context: &Context<'_, B, M, W, R>,
    mut newcomer: Newcomer<B, M>,
    pass: Option<Pass<B, M>>,
    view: &View<'_>,
    why: Refused,
) -> Rejection<B, M>
    ensures outbox { result.newcomer.outbox ≡ newcomer.outbox }
    ensures pass { result.pass ≡ pass }
{
    let error = match why {
        Refused::Error(name) => answer_refused(context, &mut newcomer, view, name),
        Refused::Ended => SessionError::NoMemory,
    };
    Rejection {
        error,
        newcomer,
        pass,
    }
}

fn answer_refused<B: BusBrand, M: Mailbox, W: Wait, R: Wait + Drop>(
    context: &Context<'_, B, M, W, R>,
    newcomer: &mut Newcomer<B, M>,
    view: &View<'_>,
    name: ErrorName,
) -> SessionError
    ensures { newcomer.new.outbox ≡ newcomer.old.outbox }
{
    match put_refusal(context, &mut newcomer.own, Request::of(view), name) {
        Ok(()) => SessionError::NoHello,
        Err(error) => SessionError::from(error),
    }
}

/// Whether a message is the call Hello of the bus, whatever its arguments.
fn is_hello(view: &View<'_>) -> bool
    ensures { (m : Message) → Valid view.now m → result ≡ is_hello m }
{
    is_for_bus(view) && names_bus_interface(view) && names_hello(view)
}

fn names_bus_interface(view: &View<'_>) -> bool
    ensures { (m : Message) → Valid view.now m → result ≡ names_bus (interface_of m) }
{
    match view.interface() {
        Some(interface) => interface == BUS_NAME,
        None => true,
    }
}

fn names_hello(view: &View<'_>) -> bool
    ensures { (m : Message) → Valid view.now m → result ≡ is_hello_member (member_of m) }
{
    match view.member() {
        Some(member) => member == "Hello",
        None => false,
    }
}

// A pass for a client that says Hello.
fn pass_for<B: BusBrand, M: Mailbox, W: Wait, R: Wait + Drop>(
    context: &Context<'_, B, M, W, R>,
    lent: &mut Option<StateReader<B, M>>,
    view: &View<'_>,
) -> Result<Pass<B, M>, Refused>
    ensures { IfOk result (λ pass. pass ≡ new_pass pass.seen) }
{
    let _ = Call::read(context.alloc, view)?;
    Ok(new_pass(context, lent)?)
}

// A pass that did nothing, with the reader that is lent, or else with its own.
fn new_pass<B: BusBrand, M: Mailbox, W: Wait, R: Wait + Drop>(
    context: &Context<'_, B, M, W, R>,
    lent: &mut Option<StateReader<B, M>>,
) -> Result<Pass<B, M>, BusError>
    ensures { IfOk result (λ pass. pass ≡ new_pass pass.seen) }
{
    let Some(reader) = lent.take() else {
        return context.bus.pass(context.rt);
    };
    let mut pass = context.bus.pass_without_reader(context.rt);
    pass.lend(reader);
    Ok(pass)
}
