// What reads the published state, with the history that it has seen.

ghost use Rattle.std.specs.Prelude.{◌≡◌, ◌⊎◌, false, IfSome};
ghost use mathlib.Core.List.{IsPrefix};
ghost use Rattle.left_right.specs.Sides.{view};
ghost use Rattle.program_table.specs.History.{after, IsHistory};

use crate::history::{BusBrand, HistoryPrefix};
use crate::shown::{Published, Sees, Shown};
use crossbeam_utils::rule::Protocol;
use left_right::reader::{Reader, Reading};
use program_table::{BusState, Command, Handle};
use std::alloc::Global;
use std::collections::LinkedList;
use std::marker::Model;

type ShownReader<B, M> = Reader<Shown<B, M>, LinkedList<Command<M>>, Published, Global>;

type ShownReading<B, M> = Reading<Shown<B, M>, LinkedList<Command<M>>, Published, Global>;

/// A reader of the published state that is lent to whoever enters next, as one thread lends its own to all that it serves.
#[derive(Drop)]
pub struct StateReader<B: BusBrand, M: Handle>
where
    Published: Protocol<Shown<B, M>, LinkedList<Command<M>>>,
{
    pub(crate) reader: ShownReader<B, M>,
}

/// What was seen of the published state, with the reader that enters it. Contracts see it as the history that was seen.
#[derive(Drop)]
pub struct HistoryReader<B: BusBrand, M: Handle>
where
    Published: Protocol<Shown<B, M>, LinkedList<Command<M>>>,
{
    // None while a guard has it, and where none is lent.
    reader: Option<ShownReader<B, M>>,
    front: HistoryPrefix<B, M>,
    // The reader may have entered another history than the one that was seen.
    may_differ: bool,
}

impl<B: BusBrand, M: Handle> Model for HistoryReader<B, M>
where
    Published: Protocol<Shown<B, M>, LinkedList<Command<M>>>,
{
    ghost use Rattle.std.specs.Prelude.{◌≡◌, false, IfSome, List};
    ghost use Rattle.left_right.specs.Sides.{view as entered};
    ghost use Rattle.program_table.specs.declared.command.Command.{Command};

    ghost Value = { List (Command M) };

    ghost view = { λ s. s.front };

    ghost invariant = { λ s. s.may_differ ≡ false → IfSome s.reader (λ r. entered r.place ≡ s.front) };
}

impl<B: BusBrand, M: Handle> HistoryReader<B, M> {
    /// A reader that was told this history.
    pub(crate) fn new(reader: StateReader<B, M>, front: HistoryPrefix<B, M>) -> HistoryReader<B, M>
        requires { view reader.reader.place ≡ front }
        ensures { result ≡ front }
    {
        HistoryReader {
            reader: Some(reader.reader),
            front,
            may_differ: false,
        }
    }

    /// What was told this history, without a reader.
    pub(crate) fn without_reader(front: HistoryPrefix<B, M>) -> HistoryReader<B, M>
        ensures { result ≡ front }
    {
        HistoryReader {
            reader: None,
            front,
            may_differ: true,
        }
    }

    /// Enters by this reader from now on, in place of the one that it had.
    pub fn lend(&mut self, reader: StateReader<B, M>)
        ensures { self.new ≡ self.old }
    {
        self.reader = Some(reader.reader);
        self.may_differ = true;
    }

    /// Gives up the reader, so that nothing is entered until another is lent. None where there is none, or a guard has it.
    pub fn reclaim(&mut self) -> Option<StateReader<B, M>>
        ensures { self.new ≡ self.old }
    {
        let reader = self.reader.take()?;
        Some(StateReader { reader })
    }

    /// Whether it has a reader.
    pub fn has_reader(&self) -> bool {
        self.reader.is_some()
    }

    /// What was seen.
    pub fn history(&self) -> &HistoryPrefix<B, M>
        ensures { result.now ≡ self.now }
    {
        &self.front
    }

    /// Takes over a history, which begins with what was seen; it is then seen.
    pub fn take_over(&mut self, told_history: HistoryPrefix<B, M>)
        requires { IsPrefix self.old told_history }
        ensures { self.new ≡ told_history }
    {
        self.front = told_history;
        self.may_differ = true;
    }

    /// Takes over a told history: the longer of the two is then seen. One of them begins the other.
    pub fn learn(&mut self, told_history: &HistoryPrefix<B, M>)
        ensures one { (self.new ≡ self.old) ⊎ (self.new ≡ told_history.now) }
        ensures this { IsPrefix self.old self.new }
        ensures that { IsPrefix told_history.now self.new }
    {
        if self.front.len() < told_history.len() {
            self.front.begins(told_history);
            self.front = told_history.again();
            self.may_differ = true;
        } else {
            told_history.begins(&self.front);
        }
    }

    /// Enters the published state: the history that it comes of begins with what was seen. None where the bus is gone,
    /// where a guard hasn't left yet, or where there is no reader.
    pub fn enter(&mut self) -> Option<ReadGuard<B, M>>
        ensures guard { IfSome result (λ guard. IsPrefix self.old guard) }
        ensures same { self.new ≡ self.old }
    {
        match self.reader.take()?.enter_as::<Sees>() {
            Ok(reading) => {
                let front = reading.get().front();
                if self.may_differ {
                    // No history that was told is longer than the published one.
                    if self.front.len() > front.len() {
                        self.reader = Some(reading.leave());
                        return None;
                    }
                    self.front.begins(&front);
                }
                Some(ReadGuard { reading, front })
            }
            Err(reader) => {
                self.reader = Some(reader);
                None
            }
        }
    }

    /// Leaves the state, whose history is then seen.
    pub fn leave(&mut self, guard: ReadGuard<B, M>)
        requires { IsPrefix self.old guard }
        ensures { self.new ≡ guard }
    {
        let ReadGuard { reading, front } = guard;
        self.reader = Some(reading.leave());
        self.front = front;
        self.may_differ = false;
    }
}

/// A reader in the published state. Contracts see it as the history that the state comes of. The writer waits until it
/// has left.
pub struct ReadGuard<B: BusBrand, M: Handle>
where
    Published: Protocol<Shown<B, M>, LinkedList<Command<M>>>,
{
    reading: ShownReading<B, M>,
    front: HistoryPrefix<B, M>,
}

impl<B: BusBrand, M: Handle> Model for ReadGuard<B, M>
where
    Published: Protocol<Shown<B, M>, LinkedList<Command<M>>>,
{
    ghost use Rattle.std.specs.Prelude.{◌≡◌, List};
    ghost use Rattle.left_right.specs.Sides.{view as entered};
    ghost use Rattle.program_table.specs.declared.command.Command.{Command};

    ghost Value = { List (Command M) };

    ghost view = { λ v. v.front };

    ghost invariant = { λ v. (v.reading.part.value ≡ v.front) × (entered v.reading.place ≡ v.front) };
}

impl<B: BusBrand, M: Handle> ReadGuard<B, M> {
    /// The state.
    pub fn state(&self) -> &BusState<M>
        ensures state { result.now ≡ after self.now }
        ensures history { IsHistory self.now }
    {
        self.reading.get().state()
    }
}
