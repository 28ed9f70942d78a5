// The history of a bus. It exists in the proofs alone: at run time there are only its lengths.

ghost use Rattle.std.specs.Prelude.{◌≡◌, ◌+◌, ◌≤◌, ◌++◌, ◌∷◌, ◌↔◌, [], true, length, IsTrue, MatchBool};
ghost use mathlib.Core.List.{IsPrefix};
ghost use Rattle.program_table.specs.Does.{is_accepted};
ghost use Rattle.program_table.specs.History.{after, IsHistory};
ghost use Rattle.published.specs.Steps.{IsLonger};

use logbook::{Gain, Offer, Plain, Play, Rule, Seen, Start, Word};
use program_table::{Command, Handle};
use std::marker::{Brand, Model, PhantomData};

/// The rule of the history: its commands were accepted, and its length is in the shared word.
pub struct Law;

impl<M: Handle> Rule<Command<M>, u64> for Law {
    ghost use Rattle.std.specs.Prelude.{[]};
    ghost use base.Fml.{ftrue};
    ghost use Rattle.published.specs.HistoryRule.{IsKept};

    ghost holds = { λ cells log. IsKept cells log };

    ghost first = { [] };

    ghost hinted = { λ n log. Unit {0} };

    ghost shows = { λ log. [] };

    ghost keeps = { λ names log. ftrue };

    ghost moves = { λ ask before after answer. Unit {0} };
}

/// What callers trade: nothing.
pub struct Nothing;

impl<M: Handle> Gain<Command<M>, u64> for Nothing {
    ghost use base.Fml.{ftrue};

    ghost after = { λ names about answer. ftrue };
}

/// A step that adds a command.
pub struct Add;

impl<M: Handle> Play<Command<M>, u64> for Add {
    ghost use Rattle.published.specs.Steps.{Adds};

    ghost then = { Adds };
}

/// What a step asks for: the command.
impl<M: Handle> Plain<Command<M>, Command<M>, u64> for Add {
    ghost use Rattle.std.specs.Prelude.{None};

    ghost ask = { λ command. command };

    ghost state = { λ command. None };
}

/// Which history it is, told by a type. Each call of a program picks one.
pub trait BusBrand {
    ghost use Rattle.logbook.specs.Pages.{Book};

    ghost book: { Book };
}

impl BusBrand for Brand {
    ghost book = { record { number = 0; log_name = 0; cells_name = 0 } };
}

/// An empty history that has no name yet. Contracts see it as the history that it is.
#[derive(Drop)]
pub struct Opened<M: Handle>
where
    Law: Rule<Command<M>, u64>,
{
    head: Word<Command<M>, u64, Law>,
    seen: Seen<Command<M>, u64, Law>,
}

impl<M: Handle> Model for Opened<M>
where
    Law: Rule<Command<M>, u64>,
{
    ghost use Rattle.std.specs.Prelude.{◌≡◌, []};
    ghost use Rattle.logbook.specs.Pages.{Book};
    ghost use Rattle.published.specs.Steps.{head_of};

    ghost Value = { Book };

    ghost view = { λ o. o.seen.book };

    ghost invariant = { λ o. (o.seen.log ≡ []) × (o.head ≡ head_of o.seen.book) };
}

impl<M: Handle> Opened<M> {
    /// A new history. It takes no memory.
    pub fn new() -> Opened<M> {
        let (seen, mut first, _second) = Seen::open(Start::alone(), 0, 0);
        Opened {
            head: Word::tracked(0, &mut first),
            seen,
        }
    }

    /// The history's word under a name, and the beginning that has no command.
    pub(crate) fn open_named<B: BusBrand>(self) -> (Book<B, M>, HistoryPrefix<B, M>)
        requires { self ≡ B.book }
        ensures { result.1 ≡ [] }
    {
        let Opened { head, seen } = self;
        (
            Book {
                head,
                of: PhantomData,
            },
            HistoryPrefix {
                count: 0,
                seen,
                of: PhantomData,
            },
        )
    }
}

/// The word that holds the length of the history.
#[derive(Drop)]
pub struct Book<B: BusBrand, M: Handle>
where
    Law: Rule<Command<M>, u64>,
{
    head: Word<Command<M>, u64, Law>,
    of: PhantomData<B>,
}

impl<B: BusBrand, M: Handle> Model for Book<B, M>
where
    Law: Rule<Command<M>, u64>,
{
    ghost use Rattle.std.specs.Prelude.{◌≡◌};
    ghost use Rattle.logbook.specs.Pages.{Named};
    ghost use Rattle.published.specs.Steps.{head_of};

    ghost Value = { Named };

    ghost view = { λ b. b.head };

    ghost invariant = { λ b. b.head ≡ head_of B.book };
}

/// A beginning of the history, which was seen. Contracts see it as its commands.
#[derive(Drop)]
pub struct HistoryPrefix<B: BusBrand, M: Handle>
where
    Law: Rule<Command<M>, u64>,
{
    count: u64,
    seen: Seen<Command<M>, u64, Law>,
    of: PhantomData<B>,
}

impl<B: BusBrand, M: Handle> Model for HistoryPrefix<B, M>
where
    Law: Rule<Command<M>, u64>,
{
    ghost use Rattle.std.specs.Prelude.{◌≡◌, List, length};
    ghost use Rattle.program_table.specs.declared.command.Command.{Command};
    ghost use Rattle.program_table.specs.History.{IsHistory};

    ghost Value = { List (Command M) };

    ghost view = { λ f. f.seen.log };

    ghost invariant = { λ f. (f.count ≡ length f.seen.log) × (f.seen.book ≡ B.book) × IsHistory f.seen.log };
}

impl<B: BusBrand, M: Handle> HistoryPrefix<B, M> {
    /// How many commands it has.
    pub fn len(&self) -> u64
        ensures length { result ≡ length self.now }
        ensures history { IsHistory self.now }
    {
        self.count
    }

    /// Whether it has no command.
    pub fn is_empty(&self) -> bool
        ensures { IsTrue result ↔ (self.now ≡ []) }
    {
        self.count == 0
    }

    /// A copy. It takes no memory.
    pub fn again(&self) -> HistoryPrefix<B, M>
        ensures copy { result ≡ self.now }
        ensures history { IsHistory result }
    {
        HistoryPrefix {
            count: self.count,
            seen: self.seen.again(),
            of: PhantomData,
        }
    }

    /// Shows that the other, which is no shorter, begins with this one. Nothing is done at run time.
    pub fn begins(&self, other: &HistoryPrefix<B, M>)
        requires { length self.now ≤ length other.now }
        ensures { IsPrefix self.now other.now }
    {
        let mut both = self.seen.again();
        both.learn(&other.seen);
    }

    /// Adds an accepted command, and says whether it did. It did not where the history is longer.
    pub(crate) fn add(&mut self, book: &Book<B, M>, command: &Command<M>) -> bool
        requires { is_accepted (after self.old) command.now ≡ true }
        ensures { MatchBool result (self.new ≡ self.old ++ command.now ∷ []) (IsLonger self.old self.new) }
    {
        let mut offer: Offer<Command<M>, u64, Law, Nothing> = self
            .seen
            .plain::<Nothing, Command<M>, Add>(command);
        let mut pen = self.seen.no_pen();
        let count = self.count;
        let found = book
            .head
            .compare_exchange::<Add, Nothing>(
                count,
                count + 1,
                &mut self.seen,
                &mut offer,
                &mut pen,
            );
        self.count = if found == count { count + 1 } else { found };
        found == count
    }
}
