// What the calls on names answer.

ghost use Rattle.std.specs.Prelude.{◌≡◌};
ghost use Rattle.owners.specs.Numbers.{name_reply_number};

use crate::well_known::WellKnown;

/// What RequestName or ReleaseName is answered (D-Bus Specification, "Message Bus Messages").
#[derive(Clone, Copy, Debug, PartialEq, Eq)]
pub enum NameReply {
    /// The caller is the primary owner now.
    PrimaryOwner,
    /// The caller waits in the queue.
    InQueue,
    /// Another connection owns the name, and the caller doesn't wait.
    Exists,
    /// The caller was the primary owner already.
    AlreadyOwner,
    /// The caller's claim is gone.
    Released,
    /// Nobody has a claim on the name.
    NonExistent,
    /// The caller has no claim on the name.
    NotOwner,
}

impl NameReply {
    /// The number of the reply on the wire.
    pub fn number(self) -> u32
        ensures { result ≡ name_reply_number self }
    {
        match self {
            NameReply::PrimaryOwner => 1,
            NameReply::InQueue => 2,
            NameReply::Exists => 3,
            NameReply::AlreadyOwner => 4,
            NameReply::Released => 1,
            NameReply::NonExistent => 2,
            NameReply::NotOwner => 3,
        }
    }
}

/// A name whose primary owner is another one than before; None is nobody.
#[derive(Debug, PartialEq, Eq, Drop)]
pub struct Change {
    pub name: WellKnown,
    pub old: Option<u64>,
    pub new: Option<u64>,
}

/// The answer to a request or a release, with the change of the name's owner, if any.
#[derive(Debug, PartialEq, Eq, Drop)]
pub struct Named {
    pub answer: NameReply,
    pub change: Option<Change>,
}

/// What a connection's giving up of one claim did.
#[derive(Debug, PartialEq, Eq, Drop)]
pub enum Dropped {
    /// The connection had none.
    Nothing,
    /// The claim was a waiting one, and no owner changed.
    Waiting,
    /// The connection owned the name.
    Changed(Change),
}
