// Laws about sessions.

ghost use Rattle.std.specs.Prelude.{◌++◌, List};
ghost use Rattle.frames.specs.Stream.{IsCut};
ghost use Rattle.peers.specs.declared.shares.Shares.{Shares};
ghost use Rattle.sessions.specs.Runs.{Event, Runs, bytes_fed, messages_handled};
ghost use Rattle.sessions.specs.SessionState.{SessionState};

use peers::Mailbox;

/// The messages that a session has handled are those that its client's stream begins with, each once and in order, and
/// what waits to be handled comes after them, however the stream was cut and between whichever messages it was fed.
pub fn handled_in_order<M: Mailbox>()
    ensures { (shares : Shares) (events : List Event) (v w : SessionState M) → Runs M.outbox_of shares events v w → IsCut (v.unread ++ bytes_fed events) (messages_handled events) w.unread }
{}
