// What the workers share.

ghost use Rattle.std.specs.Prelude.{◌≡◌, ◌<◌, ◌^◌};

use crate::clients::Clients;
use crate::limits::Limits;
use crate::newcomers::Newcomers;
use crate::note::{Cause, Note};
use crate::notes::Notes;
use crate::serving::Start;
use crate::unfinished::Unfinished;
use members::SocketMailbox;
use sessions::{AllInstructions, Bus, BusBrand, Identity, Opened, Rest};
use std::alloc::Global;
use std::io;
use std::io::ErrorKind;
use std::sync::{Arc, Mutex, Wait};

/// How many sessions' ends may wait for memory.
const RESTS: usize = 256;

/// How many readers of the bus's state there are at most: one that each worker lends to its connections, and one for the end of a
/// session that it goes on with; and as many for a thread that accepts and serves nobody. Each command on the bus looks at all
/// of them.
fn readers_for(workers: usize) -> usize
    ensures some { 0 < result }
    ensures few { result < 2 ^ 32 }
{
    2 * (workers.clamp(1, 16) + 1)
}

/// The bus, and what the workers share beside it.
#[derive(Drop)]
pub(crate) struct Server<B: BusBrand, R: Wait + Drop> {
    pub(crate) bus: Bus<B, SocketMailbox, R>,
    pub(crate) identity: Identity,
    pub(crate) limits: Limits,
    pub(crate) newcomers: Newcomers,
    pub(crate) clients: Clients,
    pub(crate) unfinished: Unfinished,
    pub(crate) instructions: Arc<AllInstructions>,
    pub(crate) notes: Notes,
    // The ends of sessions for which there was no memory.
    rests: Mutex<Vec<Rest<B, SocketMailbox>>>,
}

impl<B: BusBrand, R: Wait + Drop> Server<B, R> {
    /// A bus to which nobody is connected, and what stands beside it.
    ///
    /// All that may fail comes before the bus, so that none has to be dropped.
    pub(crate) fn new(
        rt: R,
        alloc: Global,
        opened: Opened<SocketMailbox>,
        start: &Start,
    ) -> io::Result<Server<B, R>>
        requires { opened ≡ B.book }
    {
        let limits = start.limits;
        let instructions = Arc::new(alloc, AllInstructions::new(limits.all_instructions))?;
        let rests = Vec::with_capacity(alloc, RESTS)?;
        let readers = readers_for(limits.workers);
        let Ok(bus) = Bus::with_capacity(rt, alloc, start.key, opened, readers, limits.capacity)
        else {
            return Err(ErrorKind::OutOfMemory.into());
        };
        Ok(Server {
            bus,
            identity: start.identity,
            limits,
            newcomers: Newcomers::new(alloc, limits.newcomers),
            clients: Clients::new(alloc),
            unfinished: Unfinished::new(limits.unfinished),
            instructions,
            notes: Notes::new(alloc, start.verbosity),
            rests: Mutex::new(rests),
        })
    }

    /// Gives back the place of a connection that is closed before a worker serves it.
    pub(crate) fn turn_away<W: Wait>(&self, rt: &W, cause: Cause) {
        self.newcomers.give_back(rt);
        self.notes.leave(rt, Note::Ended(None, cause));
    }

    /// Keeps the end of a session, for which there was no memory, for the next call of `retry_rests`. What was lent to it isn't
    /// kept with it.
    pub(crate) fn keep_rest<W: Wait>(&self, rt: &W, mut rest: Rest<B, SocketMailbox>) {
        let _ = rest.reclaim();
        let _ = self.rests.lock(rt).push(rest);
    }

    /// Goes on with the ends of sessions for which there was no memory.
    pub(crate) fn retry_rests<W: Wait>(&self, rt: &W, alloc: Global) {
        for _ in 0..RESTS {
            let Some(mut rest) = self.rests.lock(rt).pop() else {
                return;
            };
            if let Ok(reader) = self.bus.reader(rt) {
                rest.lend(reader);
            }
            let (_, rest) = rest.retry(rt, alloc, &self.bus);
            if let Some(rest) = rest {
                self.keep_rest(rt, rest);
                return;
            }
        }
    }
}
