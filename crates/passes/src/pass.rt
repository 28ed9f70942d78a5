// What one user of the bus has seen and done.

ghost use Rattle.std.specs.Prelude.{◌≡◌, ◌≢◌, ◌⊎◌, ◌+◌, ◌≤◌, ◌<◌, ◌^◌, [], true, length, IfErr, IfOk, OnOk, MatchResult};
ghost use mathlib.Core.List.{IsPrefix};
ghost use Rattle.program_table.specs.History.{own_commands};
ghost use Rattle.passes.specs.Passes.{PassState, HasTaken, IsOpenTo, new_pass};
ghost use Rattle.passes.specs.Calls.{after_error, shut_out};
ghost use Rattle.passes.specs.Sending.{sending};
ghost use Rattle.passes.specs.Theirs.{AreTheirs};

use crate::error::BusError;
use crate::reading::Source;
use crossbeam_utils::rule::Protocol;
use program_table::Command;
use published::{BusBrand, HistoryPrefix, HistoryReader, Published, ReadGuard, Shown, StateReader};
use routing::{Mailbox, Sender};
use std::alloc::Global;
use std::collections::LinkedList;
use std::marker::Model;

/// One user of the bus: what it has seen of the history, its connection, and how many of its calls were accepted.
#[derive(Drop)]
pub struct Pass<B: BusBrand, M: Mailbox>
where
    Published: Protocol<Shown<B, M>, LinkedList<Command<M>>>,
{
    history_reader: HistoryReader<B, M>,
    // 0 where the pass was never connected.
    connection: u64,
    is_closed: bool,
    // A call was Closed, or has ended the bus.
    is_shut_out: bool,
    took: u64,
    // It exists from the first message on.
    pub(crate) sender: Option<Sender<M>>,
}

impl<B: BusBrand, M: Mailbox> Model for Pass<B, M>
where
    Published: Protocol<Shown<B, M>, LinkedList<Command<M>>>,
{
    ghost use Rattle.passes.specs.Passes.{PassState, HasTaken};
    ghost use Rattle.passes.specs.Sending.{SendsFor, count_in, recipient_seats_in};
    ghost use Rattle.passes.specs.Theirs.{AreTheirs};

    ghost Value = { PassState M };

    ghost view = { λ p. record { seen = p.history_reader; connection = p.connection; is_closed = p.is_closed; is_shut_out = p.is_shut_out; took = p.took; count = count_in p.sender; recipient_seats = recipient_seats_in p.sender } };

    ghost invariant = { λ p. HasTaken (record { seen = p.history_reader; connection = p.connection; is_closed = p.is_closed; is_shut_out = p.is_shut_out; took = p.took; count = count_in p.sender; recipient_seats = recipient_seats_in p.sender }) × SendsFor p.connection p.sender × AreTheirs M.outbox_of p.history_reader (recipient_seats_in p.sender) };
}

impl<B: BusBrand, M: Mailbox> Pass<B, M> {
    /// A pass that did nothing.
    pub(crate) fn new(history_reader: HistoryReader<B, M>) -> Pass<B, M>
        ensures { result ≡ new_pass history_reader }
    {
        Pass {
            history_reader,
            connection: 0,
            is_closed: false,
            is_shut_out: false,
            took: 0,
            sender: None,
        }
    }

    /// Reads the published state by this reader from now on, in place of the one that it had.
    pub fn lend(&mut self, reader: StateReader<B, M>)
        ensures { self.new ≡ self.old }
    {
        self.history_reader.lend(reader);
    }

    /// Gives up the reader. Until another is lent, whatever reads the published state is Closed.
    pub fn reclaim(&mut self) -> Option<StateReader<B, M>>
        ensures { self.new ≡ self.old }
    {
        self.history_reader.reclaim()
    }

    /// Whether it has a reader.
    pub fn has_reader(&self) -> bool {
        self.history_reader.has_reader()
    }

    /// The history that was seen.
    pub fn history(&self) -> &HistoryPrefix<B, M>
        ensures { result.now ≡ self.now.seen }
    {
        self.history_reader.history()
    }

    /// The number of the connection that the pass's `connect` made, 0 before that.
    pub fn connection(&self) -> u64
        ensures { result ≡ self.now.connection }
    {
        self.connection
    }

    /// Whether the pass's `close` was accepted.
    pub fn is_closed(&self) -> bool
        ensures { result ≡ self.now.is_closed }
    {
        self.is_closed
    }

    /// How many of the pass's calls were accepted.
    pub fn took(&self) -> u64
        ensures took { result ≡ self.now.took }
        ensures own { HasTaken self.now }
    {
        self.took
    }

    /// Takes over a told history: the longer of the two is then seen. One of them begins the other.
    pub fn learn(&mut self, told_history: &HistoryPrefix<B, M>)
        ensures one { (self.new.seen ≡ self.old.seen) ⊎ (self.new.seen ≡ told_history.now) }
        ensures this { IsPrefix self.old.seen self.new.seen }
        ensures that { IsPrefix told_history.now self.new.seen }
        ensures same { self.new ≡ record self.old { seen = self.new.seen } }
    {
        self.history_reader.learn(told_history);
    }

    /// Takes over a history, which begins with what was seen; it is then seen.
    pub(crate) fn take_over(&mut self, told_history: HistoryPrefix<B, M>)
        requires { IsPrefix self.old.seen told_history }
        ensures { self.new ≡ record self.old { seen = told_history } }
    {
        self.history_reader.take_over(told_history);
    }

    /// Takes over a history in which one more command of the connection was accepted; it is then seen.
    pub(crate) fn count_in(&mut self, told_history: HistoryPrefix<B, M>, connection: u64)
        requires begins { IsPrefix self.old.seen told_history }
        requires room { self.old.took + 1 < 2 ^ 64 }
        requires number { connection ≢ 0 }
        requires same { (self.old.connection ≡ 0) ⊎ (connection ≡ self.old.connection) }
        requires own { self.old.took + 1 ≤ length (own_commands connection told_history) }
        ensures { self.new ≡ record self.old { seen = told_history; connection = connection; took = self.old.took + 1 } }
    {
        self.history_reader.take_over(told_history);
        self.connection = connection;
        self.took += 1;
    }

    /// Notes that its connection was closed.
    pub(crate) fn close(&mut self)
        ensures { self.new ≡ record self.old { is_closed = true } }
    {
        self.is_closed = true;
    }

    /// Notes that a call was Closed, or has ended the bus.
    pub(crate) fn shut_out(&mut self)
        ensures { self.new ≡ shut_out self.old }
    {
        self.is_shut_out = true;
    }

    /// Notes what the state refused, and gives the error of that.
    pub(crate) fn refuse(&mut self, error: BusError) -> BusError
        ensures pass { self.new ≡ after_error result self.old }
        ensures error { result ≡ error }
    {
        self.is_shut_out = error.shuts_out() || self.is_shut_out;
        error
    }

    /// Takes out what its messages are sent by, made anew where there was none. Until it is put back, the pass counts
    /// as one that sent nothing.
    pub(crate) fn take_sender(&mut self, alloc: Global) -> Sender<M>
        requires { self.old.connection ≢ 0 }
        ensures sender { result ≡ sending self.old }
        ensures theirs { AreTheirs M.outbox_of self.old.seen result.recipient_seats }
        ensures same { self.new ≡ record self.old { count = 0; recipient_seats = [] } }
    {
        match self.sender.take() {
            Some(sender) => sender,
            None => Sender::new(alloc, self.connection),
        }
    }

    /// Puts back what its messages are sent by.
    pub(crate) fn put_back(&mut self, sender: Sender<M>)
        requires number { self.old.connection ≢ 0 }
        requires origin { sender.origin ≡ self.old.connection }
        requires theirs { AreTheirs M.outbox_of self.old.seen sender.recipient_seats }
        ensures { self.new ≡ record self.old { count = sender.count; recipient_seats = sender.recipient_seats } }
    {
        self.sender = Some(sender);
    }

    /// Gives up the pass, and keeps the reader with what it has seen.
    pub(crate) fn into_history_reader(self) -> HistoryReader<B, M>
        ensures { result ≡ self.seen }
    {
        let Self {
            history_reader,
            connection: _,
            is_closed: _,
            is_shut_out: _,
            took: _,
            sender: _,
        } = self;
        history_reader
    }

    /// Whether it may put a message of this source.
    ///
    /// # Errors
    ///
    /// `Closed` if the pass was never connected, or was closed and the message isn't the bus's.
    pub(crate) fn check_open(&self, source: Source) -> Result<(), BusError>
        ensures open { OnOk result (IsOpenTo source self.now) }
        ensures error { IfErr result (λ error. error ≡ BusError.Closed) }
    {
        if self.connection == 0 || (source == Source::Own && self.is_closed) {
            return Err(BusError::Closed);
        }
        Ok(())
    }

    /// Enters the published state for a message of this source, or for a question of the pass's own: the history that the
    /// state comes of begins with what was seen.
    ///
    /// # Errors
    ///
    /// `Closed` where the pass was never connected, or was closed and the message isn't the bus's, where it has no reader,
    /// or the bus is gone.
    pub(crate) fn enter(&mut self, source: Source) -> Result<ReadGuard<B, M>, BusError>
        ensures guard { MatchResult result (λ guard. IsPrefix self.old.seen guard × (self.new.connection ≢ 0)) (λ error. error ≡ BusError.Closed) }
        ensures open { IfOk result (λ _. IsOpenTo source self.old) }
        ensures same { self.new ≡ self.old }
    {
        self.check_open(source)?;
        self.history_reader.enter().ok_or(BusError::Closed)
    }

    /// Leaves the published state, whose history is then seen.
    pub(crate) fn leave(&mut self, guard: ReadGuard<B, M>)
        requires { IsPrefix self.old.seen guard }
        ensures { self.new ≡ record self.old { seen = guard } }
    {
        self.history_reader.leave(guard);
    }
}
