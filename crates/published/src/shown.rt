// What is published, and the rule over it and over what each reader has seen.

ghost use Rattle.std.specs.Prelude.{◌≡◌, ◌++◌, ◌∷◌, [], true, IfOk, IfSome};
ghost use Rattle.program_table.specs.Does.{is_accepted};
ghost use Rattle.program_table.specs.History.{after, IsHistory};

use crate::history::{Book, BusBrand, HistoryPrefix};
use atomic_table::{Join, Split};
use crossbeam_utils::rule::{Outcome, Protocol};
use entry_table::IndexKey;
use left_right::Absorb;
use program_table::{BusState, Command, Handle};
use std::alloc::{AllocError, Global};
use std::collections::LinkedList;
use std::marker::Model;

/// The state with the history that it comes of. Contracts see it as the history.
#[derive(Drop)]
pub struct Shown<B: BusBrand, M: Handle> {
    state: BusState<M>,
    front: HistoryPrefix<B, M>,
}

impl<B: BusBrand, M: Handle> Model for Shown<B, M> {
    ghost use Rattle.std.specs.Prelude.{◌≡◌, List};
    ghost use Rattle.program_table.specs.declared.command.Command.{Command};
    ghost use Rattle.program_table.specs.History.{after};

    ghost Value = { List (Command M) };

    ghost view = { λ s. s.front };

    ghost invariant = { λ s. s.state ≡ after s.front };
}

impl<B: BusBrand, M: Handle> Shown<B, M> {
    /// The opening state. The key is that of its index of entries.
    pub fn new(
        alloc: Global,
        key: IndexKey,
        front: HistoryPrefix<B, M>,
    ) -> Result<Shown<B, M>, AllocError>
        requires { front ≡ [] }
        ensures { IfOk result (λ shown. shown ≡ []) }
    {
        Ok(Shown {
            state: BusState::new(alloc, key)?,
            front,
        })
    }

    /// The history.
    pub fn front(&self) -> HistoryPrefix<B, M>
        ensures copy { result ≡ self.now }
        ensures history { IsHistory result }
    {
        self.front.again()
    }

    // Shows that a history as long as this one is this one. Nothing is done at run time.
    fn hold(&self, front: &HistoryPrefix<B, M>) -> Result<(), AllocError>
        ensures { IfOk result (λ _. front.now ≡ self.now) }
    {
        if self.front.len() != front.len() {
            return Err(AllocError);
        }
        self.front.begins(front);
        Ok(())
    }

    /// The state after the history.
    pub fn state(&self) -> &BusState<M>
        ensures state { result.now ≡ after self.now }
        ensures history { IsHistory self.now }
    {
        let _ = self.front.len();
        &self.state
    }
}

/// A history that is to be published, with its last command. One without a command changes nothing: it makes room for
/// others in the writer's log. Contracts see it as the history.
#[derive(Drop)]
pub struct Entry<B: BusBrand, M: Handle> {
    command: Option<Command<M>>,
    front: HistoryPrefix<B, M>,
}

impl<B: BusBrand, M: Handle> Model for Entry<B, M> {
    ghost use Rattle.std.specs.Prelude.{List};
    ghost use Rattle.program_table.specs.declared.command.Command.{Command};
    ghost use Rattle.published.specs.Steps.{EndsWith};

    ghost Value = { List (Command M) };

    ghost view = { λ e. e.front };

    ghost invariant = { λ e. EndsWith e.front e.command };
}

impl<B: BusBrand, M: Handle> Entry<B, M> {
    /// An entry without a command.
    pub fn blank(front: HistoryPrefix<B, M>) -> Entry<B, M>
        ensures { result ≡ front }
    {
        Entry {
            command: None,
            front,
        }
    }

    /// An entry with a command, which becomes part of the history here. `None` where the history is longer than
    /// `front`.
    pub fn new(
        mut front: HistoryPrefix<B, M>,
        book: &Book<B, M>,
        command: Command<M>,
    ) -> Option<Entry<B, M>>
        requires { is_accepted (after front) command ≡ true }
        ensures { IfSome result (λ entry. entry ≡ front ++ command ∷ []) }
    {
        if !front.add(book, &command) {
            return None;
        }
        Some(Entry {
            command: Some(command),
            front,
        })
    }
}

impl<B: BusBrand, M: Handle> Absorb<Entry<B, M>> for Shown<B, M> {
    type State = LinkedList<Command<M>>;

    ghost state = { λ shown. shown };

    ghost applied = { λ history entry. entry };

    // Refuses an entry that isn't the next one. None such is published.
    fn absorb_first(
        &mut self,
        entry: &Entry<B, M>,
        _other: &Shown<B, M>,
    ) -> Result<(), AllocError> {
        let Some(command) = &entry.command else {
            return self.hold(&entry.front);
        };
        if self.front.len() == u64::MAX || self.front.len() + 1 != entry.front.len() {
            return Err(AllocError);
        }
        self.front.begins(&entry.front);
        self.state.perform(command)?;
        self.front = entry.front.again();
        Ok(())
    }
}

/// The rule: each view begins the published history.
pub struct Published;

impl<B: BusBrand, M: Handle> Protocol<Shown<B, M>, LinkedList<Command<M>>> for Published {
    ghost use Rattle.published.specs.Publishing.{Keeps};
    ghost use Rattle.std.specs.Prelude.{[]};

    ghost holds = { Keeps };

    ghost first = { [] };
}

/// A step after which the published history is seen.
pub struct Sees;

impl<B: BusBrand, M: Handle> Outcome<Shown<B, M>, LinkedList<Command<M>>> for Sees {
    ghost use Rattle.published.specs.Steps.{Shows};

    ghost then = { Shows };
}

/// How the writer tells all that it has published, and a reader takes it over.
pub struct Notes;

impl<M: Handle> Split<LinkedList<Command<M>>> for Notes {
    ghost left = { λ history. history };

    ghost right = { λ history. history };
}

impl<M: Handle> Join<LinkedList<Command<M>>> for Notes {
    ghost use Rattle.std.specs.Prelude.{[]};

    ghost both = { λ seen told_history. told_history };

    ghost spent = { [] };
}
