// The messages that are shown.

use crate::criteria::Criteria;
use crate::error::Fault;
use crate::form::Seen;
use crate::owners::{Change, Owners};
use crate::sink::Sink;
use captures::Packet;
use command_line::{Output, Writer};
use message_value::MsgError;
use message_view::View;
use std::alloc::Global;

/// Which messages are shown, and what was found so far.
pub(crate) struct Selection<'o, 'e, 'f, O, F, E> {
    sink: Sink<'o, O, F>,
    err: &'e mut Output<E>,
    criteria: &'f Criteria,
    owners: Owners,
    /// Whether it is said why the rule or the filter expression doesn't hold of a message.
    tells_why: bool,
    /// How many messages may still be shown.
    left: u64,
    /// The number of the packet before.
    number: u64,
    /// How many packets of other link types were passed over.
    passed_over: u64,
}

impl<'o, 'e, 'f, O, F: Drop, E> Drop for Selection<'o, 'e, 'f, O, F, E> {
    fn drop(self) {
        let Selection {
            sink: _,
            err: _,
            criteria: _,
            owners: _,
            tells_why: _,
            left: _,
            number: _,
            passed_over: _,
        } = self;
    }
}

impl<'o, 'e, 'f, O: Writer, F: Writer, E: Writer> Selection<'o, 'e, 'f, O, F, E> {
    /// Nothing was shown yet, and as many messages may be as are counted, or all.
    pub(crate) fn new(
        sink: Sink<'o, O, F>,
        err: &'e mut Output<E>,
        criteria: &'f Criteria,
        owners: Owners,
        count: Option<u64>,
        tells_why: bool,
    ) -> Selection<'o, 'e, 'f, O, F, E> {
        Selection {
            sink,
            err,
            criteria,
            owners,
            tells_why,
            left: count.unwrap_or(u64::MAX),
            number: 0,
            passed_over: 0,
        }
    }

    /// Says what stands before all messages.
    pub(crate) fn begin(&mut self) -> Result<(), Fault> {
        self.sink.begin()
    }

    /// Says what stands after all messages, and how many packets of other link types were passed over.
    pub(crate) fn end(&mut self, alloc: Global) -> Result<(), Fault> {
        self.note_passed_over(alloc)?;
        self.sink.end(alloc, self.err)
    }

    /// Whether as many messages were shown as are wanted.
    pub(crate) fn is_done(&self) -> bool {
        self.left == 0
    }

    /// Shows the message of a packet if the criteria take it. A packet that was cut, or whose bytes are no message, is
    /// said and passed over.
    pub(crate) fn take_packet(
        &mut self,
        alloc: Global,
        packet: &Packet,
        message: &[u8],
    ) -> Result<(), Fault> {
        self.number = self.number.saturating_add(1);
        if packet.is_cut {
            return self.note_cut(alloc);
        }
        match View::read(message) {
            Ok(view) => self.show(alloc, packet.time.unwrap_or(0), &view),
            Err(fault) => self.note_fault(alloc, fault),
        }
    }

    /// Shows a message of a bus if the criteria take it. A change of owners is known from the message on that tells of it.
    pub(crate) fn take_message(
        &mut self,
        alloc: Global,
        time: u64,
        view: &View<'_>,
    ) -> Result<(), Fault> {
        if let Some(change) = Change::of(view) {
            self.owners.put(alloc, change.name, change.owner)?;
        }
        self.show(alloc, time, view)
    }

    /// Whether something is to be said when time goes by and no message comes.
    pub(crate) fn is_waiting(&self) -> bool {
        self.sink.is_waiting()
    }

    /// Says what is to be said at a time, in nanoseconds since 1970.
    pub(crate) fn tell_late(&mut self, alloc: Global, now: u64) -> Result<(), Fault> {
        let shown = self.sink.tell_late(alloc, now)?;
        self.left = self.left.saturating_sub(shown);
        Ok(())
    }

    fn show(&mut self, alloc: Global, time: u64, view: &View<'_>) -> Result<(), Fault> {
        self.tell_late(alloc, time)?;
        let owners = &self.owners;
        if !self.sink.takes_any(view) && !self.criteria.takes(alloc, view, owners)? {
            return Ok(());
        }
        let shown = self.sink.take(alloc, &Seen { view, time, owners })?;
        if self.tells_why {
            let reasons = self.criteria.reasons(alloc, view, owners)?;
            self.sink.put_reasons(alloc, reasons.as_str())?;
        }
        self.left = self.left.saturating_sub(shown);
        Ok(())
    }

    fn note_cut(&mut self, alloc: Global) -> Result<(), Fault> {
        let number = self.number;
        let line = format!(in alloc; "dbusfan: packet Cut at {number}\n")?;
        self.err.put(line.as_bytes());
        Ok(())
    }

    fn note_fault(&mut self, alloc: Global, fault: MsgError) -> Result<(), Fault> {
        let number = self.number;
        let line = format!(in alloc; "dbusfan: message {fault} at {number}\n")?;
        self.err.put(line.as_bytes());
        Ok(())
    }

    /// Counts a packet of another link type.
    pub(crate) fn pass_over(&mut self) {
        self.passed_over = self.passed_over.saturating_add(1);
    }

    /// Says how many packets of other link types were passed over, if there are any.
    fn note_passed_over(&mut self, alloc: Global) -> Result<(), Fault> {
        let count = self.passed_over;
        if count > 0 {
            let line = format!(in alloc; "dbusfan: packets of other link types: {count}\n")?;
            self.err.put(line.as_bytes());
        }
        Ok(())
    }
}
