// Who sends what, and how much.

use crate::call_text::put_member;
use crate::error::Fault;
use crate::form::Seen;
use command_line::{Output, Writer};
use message_view::{Kind, View};
use std::alloc::{AllocError, Global};
use traffic::SenderTable;

/// What is counted of messages, and between which times they came, in nanoseconds since 1970.
#[derive(Drop)]
pub(crate) struct Senders {
    table: SenderTable,
    first: u64,
    last: u64,
}

impl Senders {
    /// No message was seen.
    pub(crate) fn new(alloc: Global) -> Senders {
        Senders {
            table: SenderTable::new(alloc),
            first: u64::MAX,
            last: 0,
        }
    }

    /// Takes a time at which messages were waited for.
    pub(crate) fn reach(&mut self, now: u64) {
        self.first = self.first.min(now);
        self.last = self.last.max(now);
    }

    /// Counts a message.
    pub(crate) fn take(&mut self, alloc: Global, seen: &Seen<'_, '_, '_>) -> Result<(), Fault> {
        let name = name_of(alloc, seen)?;
        let len = seen.view.raw().len() as u64;
        self.table.take(alloc, name.as_str(), len)?;
        Ok(())
    }

    /// The table of those who sent the most messages, at most as many as are said.
    pub(crate) fn busiest(&mut self, alloc: Global, most: usize) -> Result<String, AllocError> {
        let time = self.time();
        self.table.busiest(alloc, time, most)
    }

    /// The time between the first and the last of the times that were taken.
    fn time(&self) -> u64 {
        self.last.saturating_sub(self.first)
    }

    /// Writes the table.
    pub(crate) fn end<O: Writer>(
        &mut self,
        alloc: Global,
        out: &mut Output<O>,
    ) -> Result<(), Fault> {
        let time = self.time();
        out.put(self.table.report(alloc, time)?.as_bytes());
        if out.has_failed {
            return Err(Fault::Tool(command_line::Fault::File));
        }
        Ok(())
    }
}

/// The sender of a message, with the names that it owns, and what it sent.
fn name_of(alloc: Global, seen: &Seen<'_, '_, '_>) -> Result<String, AllocError> {
    let sender = seen.view.sender().unwrap_or("-");
    let mut name = String::from_str(alloc, sender)?;
    let names = seen.owners.names_of(alloc, sender)?;
    if names.as_str() != sender {
        name.push_str(" (")?;
        name.push_str(names.as_str())?;
        name.push_str(")")?;
    }
    name.push_str(" ")?;
    put_sent(&mut name, seen.view)?;
    Ok(name)
}

/// Adds a message's interface and member, an error's name, or that it is an answer.
fn put_sent(name: &mut String, view: &View<'_>) -> Result<(), AllocError> {
    match (view.kind(), view.error_name()) {
        (Kind::MethodReturn, _) => name.push_str("method_return"),
        (_, Some(error)) => {
            name.push_str("error ")?;
            name.push_str(error)
        }
        _ => put_member(name, view),
    }
}
