// What lies under the bus's lock.

ghost use Rattle.std.specs.Prelude.{◌≡◌, ◌<◌, ◌^◌, false, true, length, MatchBool, MatchResult, IfOk, IfErr};
ghost use mathlib.Core.List.{IsPrefix};
ghost use Rattle.program_table.specs.State.{State};
ghost use Rattle.program_table.specs.History.{after, is_command_of, IsHistory};
ghost use Rattle.published.specs.Publication.{Publication, nothing_published};
ghost use Rattle.passes.specs.Passes.{PassState, new_pass};
ghost use Rattle.passes.specs.Calls.{Answers, ClaimsNothing, ClaimsOrIsGone, Connects, Limits};
ghost use Rattle.passes.specs.Readiness.{Admits, IsReady};
ghost use Rattle.passes.specs.Theirs.{keeps_connections};

use crate::error::BusError;
use crate::pass::Pass;
use crossbeam_utils::rule::Protocol;
use entry_table::IndexKey;
use left_right::Absorb;
use logbook::Rule;
use outbox::Turn;
use program_table::{BusState, Capacity, Command, Reply};
use published::{
    BusBrand, Entry, HistoryPrefix, Law, Opened, PublishError, Published, Publisher, Shown,
    StateReader,
};
use routing::{Mailbox, Turns};
use std::alloc::{AllocError, Global};
use std::collections::LinkedList;
use std::marker::Model;
use std::sync::Wait;

/// A value that is dropped through its own type. A generic function can't drop a publisher by its name.
#[derive(Drop)]
pub(crate) struct Held<P: Drop> {
    pub(crate) value: P,
}

/// The writer of the published state, and the turns of the outboxes of the connections, as calls are lent them.
#[derive(Drop)]
pub struct Control<B: BusBrand, M: Mailbox, R: Wait + Drop>
where
    Published: Protocol<Shown<B, M>, LinkedList<Command<M>>>,
    Shown<B, M>: Absorb<Entry<B, M>, State = LinkedList<Command<M>>>,
    Law: Rule<Command<M>, u64>,
{
    pub(crate) publisher: Held<Publisher<B, M, R>>,
    pub(crate) turns: Turns,
}

impl<B: BusBrand, M: Mailbox, R: Wait + Drop> Model for Control<B, M, R>
where
    Published: Protocol<Shown<B, M>, LinkedList<Command<M>>>,
    Shown<B, M>: Absorb<Entry<B, M>, State = LinkedList<Command<M>>>,
    Law: Rule<Command<M>, u64>,
{
    ghost use Rattle.published.specs.Publication.{Publication};
    ghost use Rattle.passes.specs.Theirs.{HaveTurns};

    ghost Value = { Publication M };

    ghost view = { λ c. c.publisher.value };

    ghost invariant = { λ c. HaveTurns M.outbox_of c.publisher.value.history c.turns.turns };
}

impl<B: BusBrand, M: Mailbox, R: Wait + Drop> Control<B, M, R> {
    /// A bus to which nobody is connected, with places for this many readers. The key is that of its index of entries.
    pub fn new(
        rt: R,
        alloc: Global,
        key: IndexKey,
        opened: Opened<M>,
        readers: usize,
    ) -> Result<Control<B, M, R>, AllocError>
        requires name { opened ≡ B.book }
        requires readers { (0 < readers) × (readers < 2 ^ 32) }
        ensures { IfOk result (λ control. control ≡ nothing_published) }
    {
        Ok(Control {
            publisher: Held {
                value: Publisher::new(rt, alloc, key, opened, readers)?,
            },
            turns: Turns::new(alloc),
        })
    }

    /// A new pass with a reader of its own, which has seen what is published.
    pub fn pass(&mut self) -> Result<Pass<B, M>, BusError>
        ensures same { self.new ≡ self.old }
        ensures pass { MatchResult result (λ pass. pass ≡ new_pass self.old.history) (λ error. error ≡ BusError.Busy) }
    {
        match self.publisher.value.history_reader() {
            Some(history_reader) => Ok(Pass::new(history_reader)),
            None => Err(BusError::Busy),
        }
    }

    /// A new pass without a reader, which has seen what is published. It reads by what is lent to it.
    pub fn pass_without_reader(&self) -> Pass<B, M>
        ensures { result ≡ new_pass self.now.history }
    {
        Pass::new(self.publisher.value.history_without_reader())
    }

    /// A new reader, for the passes to which it will be lent.
    pub fn reader(&mut self) -> Result<StateReader<B, M>, BusError>
        ensures same { self.new ≡ self.old }
        ensures error { IfErr result (λ error. error ≡ BusError.Busy) }
    {
        self.publisher.value.reader().ok_or(BusError::Busy)
    }

    /// Tells the published history, which the pass has then seen.
    pub fn tell(&self, pass: &mut Pass<B, M>) -> Result<HistoryPrefix<B, M>, BusError>
        ensures { MatchResult result
            (λ told_history. (told_history ≡ self.now.history) × IsPrefix pass.old.seen told_history × (pass.new ≡ record pass.old { seen = told_history }))
            (λ error. (error ≡ BusError.Closed) × (length self.now.history < length pass.old.seen) × (pass.new ≡ pass.old)) }
    {
        match self.publisher.value.tell(pass.history()) {
            Some(told_history) => {
                pass.take_over(told_history.again());
                Ok(told_history)
            }
            None => Err(BusError::Closed),
        }
    }

    /// Whether the pass's connection is there and has no claim on a name, so that `drop_name` would find nothing. The pass has then
    /// seen what is published.
    pub fn claims_nothing(&self, pass: &mut Pass<B, M>) -> bool
        ensures { MatchBool result (ClaimsNothing pass.old self.now pass.new) (ClaimsOrIsGone pass.old self.now pass.new) }
    {
        if self.tell(pass).is_err() {
            return false;
        }
        let command = Command::DropOne(pass.connection());
        matches!(self.state().answer(&command), Reply::Nothing)
    }

    /// The published state.
    pub(crate) fn state(&self) -> &BusState<M>
        ensures state { result.now ≡ after self.now.history }
        ensures history { IsHistory self.now.history }
    {
        self.publisher.value.state()
    }

    /// Whether the pass may ask for something. It has then seen what is published.
    pub(crate) fn admit(&self, pass: &mut Pass<B, M>) -> Result<(), BusError>
        ensures { Admits pass.old self.now result pass.new }
    {
        let connection = pass.connection();
        let took = pass.took();
        if connection == 0 || pass.is_closed() || self.publisher.value.has_ended() {
            pass.shut_out();
            return Err(BusError::Closed);
        }
        if self.tell(pass).is_err() {
            pass.shut_out();
            return Err(BusError::Closed);
        }
        if self.state().commands_of(connection) != took {
            pass.shut_out();
            return Err(BusError::Closed);
        }
        let _took = pass.took();
        Ok(())
    }

    /// Publishes a command of a pass that was admitted, which the pass has then seen. It makes no connection, and closes none.
    pub(crate) fn publish(
        &mut self,
        pass: &mut Pass<B, M>,
        command: Command<M>,
    ) -> Result<Reply, BusError>
        requires ready { IsReady pass.old self.old }
        requires own { (s : State M) → is_command_of s pass.old.connection command ≡ true }
        requires stays { keeps_connections command ≡ true }
        ensures { Answers false pass.old self.old command result pass.new self.new }
    {
        publish(&mut self.publisher.value, pass, command)
    }

    /// Publishes a command of the pass's connection, which the pass has then seen. It makes no connection, and closes none.
    pub(crate) fn command(
        &mut self,
        pass: &mut Pass<B, M>,
        command: Command<M>,
    ) -> Result<Reply, BusError>
        requires own { (s : State M) → is_command_of s pass.old.connection command ≡ true }
        requires stays { keeps_connections command ≡ true }
        ensures { Answers false pass.old self.old command result pass.new self.new }
    {
        self.admit(pass)?;
        self.publish(pass, command)
    }

    /// Tells how much there may be on the bus from now on. What is there stays.
    ///
    /// # Errors
    ///
    /// `NoMemory`, and `Closed` where the bus has ended, or as many commands were accepted as can be counted.
    pub fn limit(&mut self, most: Capacity) -> Result<(), BusError>
        ensures { Limits most self.old result self.new }
    {
        match self.publisher.value.publish(Command::Limit(most)) {
            Ok(Reply::Refused(_)) | Err(PublishError::Ended) => Err(BusError::Closed),
            Ok(_) => Ok(()),
            Err(PublishError::NoMemory) => Err(BusError::NoMemory),
        }
    }

    /// Makes the connection of a pass that has none yet, whose messages go to the mailbox, and takes the turn of its outbox.
    ///
    /// # Errors
    ///
    /// The state's refusal; `Closed`; and `NoMemory`, after which the bus has ended, unless memory for the turn was refused.
    pub fn connect(
        &mut self,
        pass: &mut Pass<B, M>,
        mailbox: M,
        turn: Turn,
    ) -> Result<Reply, BusError>
        // The turn is that of the mailbox's outbox, and nothing was put by it.
        requires { (turn.queue ≡ (M.outbox_of mailbox).queue) × (turn.last ≡ 0) }
        ensures { Connects pass.old self.old mailbox result pass.new self.new }
    {
        let connection = pass.connection();
        let _took = pass.took();
        if connection != 0 || pass.is_closed() {
            return Err(BusError::Closed);
        }
        self.tell(pass)?;
        let _commands = self.state().commands();
        if self.turns.reserve().is_err() {
            return Err(BusError::NoMemory);
        }
        let reply = match self.publisher.value.publish(Command::Connect(mailbox)) {
            Ok(reply) => reply,
            Err(PublishError::NoMemory) => return Err(BusError::NoMemory),
            Err(PublishError::Ended) => return Err(BusError::Closed),
        };
        if let Reply::Refused(refusal) = reply {
            return Err(pass.refuse(BusError::of(refusal)));
        }
        let Reply::Connected(number) = reply else {
            unreachable!()
        };
        pass.count_in(self.publisher.value.front(), number);
        self.turns.add(number, turn);
        Ok(Reply::Connected(number))
    }
}

// Publishes a command of a pass that was admitted, which the pass has then seen.
pub(crate) fn publish<B: BusBrand, M: Mailbox, R: Wait + Drop>(
    publisher: &mut Publisher<B, M, R>,
    pass: &mut Pass<B, M>,
    command: Command<M>,
) -> Result<Reply, BusError>
    requires ready { IsReady pass.old publisher.old }
    requires own { (s : State M) → is_command_of s pass.old.connection command ≡ true }
    ensures { Answers false pass.old publisher.old command result pass.new publisher.new }
{
    let reply = match publisher.publish(command) {
        Ok(reply) => reply,
        Err(PublishError::NoMemory) => {
            pass.shut_out();
            return Err(BusError::NoMemory);
        }
        Err(PublishError::Ended) => {
            pass.shut_out();
            return Err(BusError::Closed);
        }
    };
    if let Reply::Refused(refusal) = reply {
        return Err(pass.refuse(BusError::of(refusal)));
    }
    let connection = pass.connection();
    pass.count_in(publisher.front(), connection);
    Ok(reply)
}
