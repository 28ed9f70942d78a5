// Recipients that several workers find in the published state.

ghost use Rattle.std.specs.Prelude.{◌≡◌};
ghost use Rattle.passes.specs.Passes.{sender_of};
ghost use Rattle.passes.specs.Asking.{TellsByWorkers};

use crate::error::BusError;
use crate::pass::Pass;
use crate::reading::Source;
use arrayvec::ArrayVec;
use fan_out::{FanError, Gate, MAX_RECIPIENTS, MAX_WORKERS, select_many};
use message_view::View;
use published::BusBrand;
use routing::Mailbox;
use std::sync::Wait;
use std::thread::Threads;

impl<B: BusBrand, M: Mailbox + Sync> Pass<B, M> {
    /// The recipients of a broadcast as `recipients` gives them, found by workers. The gate, which is called round each
    /// worker's piece, may make no call under the lock: a publish may wait for this pass.
    ///
    /// # Errors
    ///
    /// `Fan(Workers)` for no worker and for more than 16, before all else. `Closed` as `recipients`, and
    /// `Fan(NotStarted)` where a worker's start was refused.
    pub fn recipients_many<G: Gate, R: Threads + Wait>(
        &mut self,
        rt: &R,
        source: Source,
        view: &View<'_>,
        workers: u32,
        gate: &G,
    ) -> Result<ArrayVec<u64, MAX_RECIPIENTS>, BusError>
        ensures found { TellsByWorkers self.old.seen (sender_of source self.old.connection) view.now workers result self.new.seen }
        ensures same { self.new ≡ record self.old { seen = self.new.seen } }
    {
        if workers == 0 || workers > MAX_WORKERS {
            return Err(BusError::Fan(FanError::Workers));
        }
        let guard = self.enter(source)?;
        let sender = source.sender(self.connection());
        let found = select_many(rt, guard.state(), sender, view, workers, gate);
        self.leave(guard);
        match found {
            Ok(found) => Ok(found),
            Err(error) => Err(BusError::Fan(error)),
        }
    }
}
