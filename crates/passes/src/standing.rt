// Where in the history of the bus messages stand.

ghost use Rattle.std.specs.Prelude.{◌≡◌, IfErr, IfOk};
ghost use Rattle.passes.specs.Standings.{place_at};

use crate::error::BusError;

/// Where in the history of the bus a message stands, as seen from what is published when it is put. What tells of names bears a
/// place there, and no outbox gives it out after what bears a later one.
#[derive(Clone, Copy, Debug, PartialEq, Eq)]
pub enum Standing {
    /// It tells nothing of names, and bears no place.
    Apart,
    /// It announces what the next command will change.
    Next,
    /// It announces what the last command has changed.
    Last,
    /// It answers what the state is.
    State,
}

// After so many commands no message about names is put any more.
const MAX_PLACED: u64 = 1 << 62;

impl Standing {
    /// The place of a message that is put where this many commands were published.
    ///
    /// # Errors
    ///
    /// `Closed` if they are more than 2^62.
    pub(crate) fn place(self, commands: u64) -> Result<Option<u64>, BusError>
        ensures place { IfOk result (λ place. place ≡ place_at self commands) }
        ensures error { IfErr result (λ error. error ≡ BusError.Closed) }
    {
        if commands > MAX_PLACED {
            return Err(BusError::Closed);
        }
        let place = match self {
            Standing::Apart => None,
            Standing::Next => Some(commands + commands + 2),
            Standing::Last => Some(commands + commands),
            Standing::State => Some(commands + commands + 1),
        };
        Ok(place)
    }
}
