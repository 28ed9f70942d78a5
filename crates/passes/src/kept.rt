// The readers of passes that are over, for passes to come.

ghost use Rattle.std.specs.Prelude.{◌≡◌, [], ◌∷◌, ◌++◌, List, length, nat_lt, if◌then◌else◌, IfOk, MatchOption};
ghost use Rattle.program_table.specs.declared.command.Command.{Command};
ghost use Rattle.passes.specs.Passes.{max_kept, new_pass};

use crate::pass::Pass;
use crossbeam_utils::rule::Protocol;
use program_table::Command;
use published::{BusBrand, HistoryReader, Published, Shown, StateReader};
use routing::Mailbox;
use std::alloc::{AllocError, Global};
use std::collections::LinkedList;
use std::marker::Model;

/// How many readers are kept at most.
const KEPT: usize = 256;

/// What a pass that is over has seen, and the reader that it gave up.
#[derive(Drop)]
struct KeptPass<B: BusBrand, M: Mailbox>
where
    Published: Protocol<Shown<B, M>, LinkedList<Command<M>>>,
{
    history_reader: HistoryReader<B, M>,
    reader: StateReader<B, M>,
}

impl<B: BusBrand, M: Mailbox> Model for KeptPass<B, M>
where
    Published: Protocol<Shown<B, M>, LinkedList<Command<M>>>,
{
    ghost use Rattle.std.specs.Prelude.{List};
    ghost use Rattle.program_table.specs.declared.command.Command.{Command};

    ghost Value = { List (Command M) };

    ghost view = { λ k. k.history_reader };
}

/// The readers of passes that are over, in room that is reserved. Contracts see what each pass had seen.
#[derive(Drop)]
pub struct KeptPasses<B: BusBrand, M: Mailbox>
where
    Published: Protocol<Shown<B, M>, LinkedList<Command<M>>>,
{
    passes: Vec<KeptPass<B, M>>,
}

impl<B: BusBrand, M: Mailbox> Model for KeptPasses<B, M>
where
    Published: Protocol<Shown<B, M>, LinkedList<Command<M>>>,
{
    ghost use Rattle.std.specs.Prelude.{◌≤◌, List};
    ghost use Rattle.std.specs.Vec.{vec_capacity};
    ghost use Rattle.program_table.specs.declared.command.Command.{Command};
    ghost use Rattle.passes.specs.Passes.{max_kept};

    ghost Value = { List (List (Command M)) };

    ghost view = { λ k. k.passes.items };

    ghost invariant = { λ k. max_kept ≤ vec_capacity k.passes };
}

impl<B: BusBrand, M: Mailbox> KeptPasses<B, M> {
    /// No reader is kept.
    pub fn new(alloc: Global) -> Result<KeptPasses<B, M>, AllocError>
        ensures { IfOk result (λ kept. kept ≡ []) }
    {
        Ok(KeptPasses {
            passes: Vec::with_capacity(alloc, KEPT)?,
        })
    }

    /// Keeps the reader that a pass gave up which is over, where there is room, and drops it else.
    pub fn put(&mut self, pass: Pass<B, M>, reader: StateReader<B, M>)
        ensures { self.new ≡ (if nat_lt (length self.old) max_kept then self.old ++ pass.seen ∷ [] else self.old) }
    {
        if self.passes.len() < KEPT {
            self.passes.push_reserved(KeptPass {
                history_reader: pass.into_history_reader(),
                reader,
            });
        }
    }

    /// A new pass with the reader that was kept last, which has seen what that one had.
    pub fn take(&mut self) -> Option<Pass<B, M>>
        ensures { MatchOption result ((self.old ≡ []) × (self.new ≡ [])) (λ pass. (self.old ≡ self.new ++ pass.seen ∷ []) × (pass ≡ new_pass pass.seen)) }
    {
        let KeptPass {
            mut history_reader,
            reader,
        } = self.passes.pop()?;
        history_reader.lend(reader);
        Some(Pass::new(history_reader))
    }

    /// The reader that was kept last.
    pub fn take_reader(&mut self) -> Option<StateReader<B, M>>
        ensures { MatchOption result ((self.old ≡ []) × (self.new ≡ [])) (λ _. (seen : List (Command M)) × (self.old ≡ self.new ++ seen ∷ [])) }
    {
        let KeptPass {
            history_reader: _,
            reader,
        } = self.passes.pop()?;
        Some(reader)
    }
}
