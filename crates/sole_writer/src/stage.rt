// Where a call of a sole writer stands.

ghost use Rattle.std.specs.Prelude.{◌≡◌, None};

use std::sync::MutexGuard;

/// What a call does next. Each of them reads or writes one thing that other threads see.
#[derive(Clone, Copy, Debug, PartialEq, Eq, Hash)]
pub enum Place {
    /// There is room again.
    Unblock,
    /// The line is to end.
    End,
    /// Ask whoever writes to look again.
    Ask,
    /// Become the one that writes, or return if another one is.
    Enter,
    /// What was asked for until now is going to be done.
    TakeUp,
    /// Drop the line if it is to end.
    LookForEnd,
    /// Give the line up if it is shut.
    LookForShut,
    /// Pass over the writing if there is no room.
    LookForRoom,
    Write,
    /// There is no room, or there is more to write.
    Block,
    /// Have the poll tell of room, or no longer.
    Poll { is_wanted: bool },
    /// Be no longer the one that writes.
    Leave,
    /// Return if nobody has asked meanwhile.
    LookAgain,
    Done,
}

impl Place {
    ghost use Rattle.std.specs.Prelude.{◌≡◌};
    ghost use Rattle.sole_writer.specs.Steps.{is_inside};

    /// Whether a call that stands there is the one that writes.
    pub fn is_inside(self) -> bool
        ensures { result ≡ is_inside self }
    {
        match self {
            Place::TakeUp
            | Place::LookForEnd
            | Place::LookForShut
            | Place::LookForRoom
            | Place::Write
            | Place::Block
            | Place::Poll { is_wanted: _ }
            | Place::Leave => true,
            Place::Unblock
            | Place::End
            | Place::Ask
            | Place::Enter
            | Place::LookAgain
            | Place::Done => false,
        }
    }
}

/// A call under way: what it does next, and the line while it is the one that writes.
#[derive(Drop)]
pub struct Stage<'a, L: Drop> {
    pub place: Place,
    pub line: Option<MutexGuard<'a, Option<L>>>,
}

impl<'a, L: Drop> Stage<'a, L> {
    /// A call outside.
    pub fn outside(place: Place) -> Stage<'a, L>
        ensures { (result.place ≡ place) × (result.line ≡ None) }
    {
        Stage { place, line: None }
    }
}
