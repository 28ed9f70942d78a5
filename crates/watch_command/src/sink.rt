// Where the messages go that are shown.

use crate::calls::Calls;
use crate::counts::Counts;
use crate::error::Fault;
use crate::form::{Form, Seen};
use crate::senders::Senders;
use crate::top::Top;
use captures::{MAX_TIME, TimeUnit, pcap_header, record_header};
use command_line::{Output, Writer};
use message_view::{Kind, View};
use std::alloc::Global;

/// What takes the messages that are shown.
pub(crate) enum Sink<'o, O, F> {
    /// A line for each message.
    Lines(&'o mut Output<O>, Form),
    /// A pcap file, on standard output.
    Pcap(&'o mut Output<O>),
    /// A pcap file.
    PcapFile(Output<F>),
    /// How many messages each of some rules takes.
    Counts(&'o mut Output<O>, Counts),
    /// A line for each call, with its answer.
    Calls(&'o mut Output<O>, Calls),
    /// Who sends what, and how much.
    Senders(&'o mut Output<O>, Senders),
    /// The same on a terminal, as it changes.
    Top(&'o mut Output<O>, Top),
}

impl<'o, O, F: Drop> Drop for Sink<'o, O, F> {
    fn drop(self) {
        match self {
            Sink::Lines(_, _) => {}
            Sink::Pcap(_) => {}
            Sink::PcapFile(_) => {}
            Sink::Counts(_, _) => {}
            Sink::Calls(_, _) => {}
            Sink::Senders(_, _) => {}
            Sink::Top(_, _) => {}
        }
    }
}

impl<'o, O: Writer, F: Writer> Sink<'o, O, F> {
    /// Says what stands before all messages.
    pub(crate) fn begin(&mut self) -> Result<(), Fault> {
        match self {
            Sink::Pcap(out) => put(out, &pcap_header(TimeUnit::Micro)),
            Sink::PcapFile(out) => put(out, &pcap_header(TimeUnit::Micro)),
            _ => Ok(()),
        }
    }

    /// Whether a message is taken whatever the filter says of it: an answer, which a filter of its call doesn't take.
    pub(crate) fn takes_any(&self, view: &View<'_>) -> bool {
        matches!(self, Sink::Calls(_, _)) && matches!(view.kind(), Kind::MethodReturn | Kind::Error)
    }

    /// Whether it has something to say when time goes by and no message comes.
    pub(crate) fn is_waiting(&self) -> bool {
        matches!(self, Sink::Calls(_, _) | Sink::Top(_, _))
    }

    /// Says what is to be said at a time, in nanoseconds since 1970, and answers how many lines were shown.
    pub(crate) fn tell_late(&mut self, alloc: Global, now: u64) -> Result<u64, Fault> {
        match self {
            Sink::Calls(out, calls) => calls.tell_late(alloc, out, now),
            Sink::Senders(_, senders) => {
                senders.reach(now);
                Ok(0)
            }
            Sink::Top(out, top) => {
                top.reach(alloc, out, now)?;
                Ok(0)
            }
            _ => Ok(0),
        }
    }

    /// Takes a message, and answers how many were shown.
    pub(crate) fn take(&mut self, alloc: Global, seen: &Seen<'_, '_, '_>) -> Result<u64, Fault> {
        match self {
            Sink::Lines(out, form) => {
                let line = form.line(alloc, seen)?;
                put(out, &line)?;
            }
            Sink::Pcap(out) => put(out, &record_of(alloc, seen)?)?,
            Sink::PcapFile(out) => put(out, &record_of(alloc, seen)?)?,
            Sink::Counts(_, counts) => counts.take(seen.view, seen.owners),
            Sink::Calls(out, calls) => return calls.take(alloc, out, seen),
            Sink::Senders(_, senders) => senders.take(alloc, seen)?,
            Sink::Top(_, top) => top.take(alloc, seen)?,
        }
        Ok(1)
    }

    /// Says why a rule doesn't hold of the message before, in lines that each have a line feed before them.
    pub(crate) fn put_reasons(&mut self, alloc: Global, reasons: &str) -> Result<(), Fault> {
        let Sink::Lines(out, _) = self else {
            return Ok(());
        };
        let Some(lines) = reasons.strip_prefix("\n") else {
            return Ok(());
        };
        let text = format!(in alloc; "{lines}\n")?;
        put(out, text.as_bytes())
    }

    /// Says what stands after all messages, tables of calls by `err`.
    pub(crate) fn end<E: Writer>(
        &mut self,
        alloc: Global,
        err: &mut Output<E>,
    ) -> Result<(), Fault> {
        match self {
            Sink::Lines(_, _) | Sink::Pcap(_) | Sink::PcapFile(_) => Ok(()),
            Sink::Counts(out, counts) => {
                let report = counts.report(alloc)?;
                put(out, report.as_bytes())
            }
            Sink::Calls(out, calls) => calls.end(alloc, out, err),
            Sink::Senders(out, senders) => senders.end(alloc, out),
            Sink::Top(out, top) => top.draw(alloc, out),
        }
    }
}

/// A message as a record of a pcap file.
fn record_of(alloc: Global, seen: &Seen<'_, '_, '_>) -> Result<Vec<u8>, Fault> {
    let bytes = seen.view.raw();
    let len = u32::try_from(bytes.len()).unwrap_or(u32::MAX);
    let header = record_header(TimeUnit::Micro, seen.time.min(MAX_TIME), len);
    let mut record = Vec::from_slice(alloc, &header)?;
    record.extend_from_slice(bytes)?;
    Ok(record)
}

/// Writes a text as a whole, and flushes it.
fn put<O: Writer>(out: &mut Output<O>, text: &[u8]) -> Result<(), Fault> {
    out.put(text);
    if out.has_failed {
        return Err(Fault::Tool(command_line::Fault::File));
    }
    Ok(())
}
