// The table of who sends what, on a terminal, as it changes.

use crate::error::Fault;
use crate::form::Seen;
use crate::screen::Screen;
use crate::senders::Senders;
use command_line::{Output, Writer};
use std::alloc::Global;

/// Nanoseconds of a second.
const SECOND: u64 = 1_000_000_000;

/// What is counted of messages, and where it is drawn.
#[derive(Drop)]
pub(crate) struct Top {
    senders: Senders,
    screen: Screen,
    /// In which second since 1970 it was drawn last.
    second: u64,
}

impl Top {
    /// Nothing was counted or drawn.
    pub(crate) fn new(senders: Senders, screen: Screen) -> Top {
        Top {
            senders,
            screen,
            second: 0,
        }
    }

    /// Takes a time at which messages were waited for, and draws the table once in each second.
    pub(crate) fn reach<O: Writer>(
        &mut self,
        alloc: Global,
        out: &mut Output<O>,
        now: u64,
    ) -> Result<(), Fault> {
        self.senders.reach(now);
        let second = now / SECOND;
        if second == self.second {
            return Ok(());
        }
        self.second = second;
        self.draw(alloc, out)
    }

    /// Counts a message.
    pub(crate) fn take(&mut self, alloc: Global, seen: &Seen<'_, '_, '_>) -> Result<(), Fault> {
        self.senders.take(alloc, seen)
    }

    /// Draws the table, the senders of most messages first.
    pub(crate) fn draw<O: Writer>(
        &mut self,
        alloc: Global,
        out: &mut Output<O>,
    ) -> Result<(), Fault> {
        let table = self.senders.busiest(alloc, self.screen.room())?;
        let frame = self.screen.frame(alloc, table.as_str())?;
        out.put(&frame);
        if out.has_failed {
            return Err(Fault::Tool(command_line::Fault::File));
        }
        Ok(())
    }
}
