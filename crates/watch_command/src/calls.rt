// Calls with their answers.

use crate::call_text::{end_line, put_all};
use crate::error::Fault;
use crate::form::{Seen, TextForm};
use command_line::{Output, Writer};
use message_view::Kind;
use std::alloc::{AllocError, Global};
use traffic::{CallId, CallLog, Exchange, MAX_OPEN_CALLS, MethodTable, OpenCall, Outcome, Role};

/// How long a call may wait for its answer until that is said, in seconds, if nothing else is asked for.
const PATIENCE: u64 = 25;

/// Nanoseconds of a second, and of a millisecond.
const SECOND: u64 = 1_000_000_000;

const MILLISECOND: u64 = 1_000_000;

/// The calls that wait for their answers, what is counted of all, and how they are said.
#[derive(Drop)]
pub(crate) struct Calls {
    open: CallLog,
    methods: MethodTable,
    form: TextForm,
    /// How long a call may wait until that is said, in nanoseconds.
    patience: u64,
    /// How long a call has to take to be said, in nanoseconds, if that is limited.
    slow: Option<u64>,
    /// When the last message came.
    last: u64,
    /// How many calls were given up, since too many waited.
    given_up: u64,
}

impl Calls {
    /// No call was seen. Patience is in seconds, and `slow` in milliseconds.
    pub(crate) fn new(
        alloc: Global,
        form: TextForm,
        patience: Option<u64>,
        slow: Option<u64>,
    ) -> Result<Calls, AllocError> {
        Ok(Calls {
            open: CallLog::new(alloc)?,
            methods: MethodTable::new(alloc),
            form,
            patience: patience.unwrap_or(PATIENCE).saturating_mul(SECOND),
            slow: slow.map(|time| time.saturating_mul(MILLISECOND)),
            last: 0,
            given_up: 0,
        })
    }

    /// Takes a message, and answers how many lines it wrote.
    pub(crate) fn take<O: Writer>(
        &mut self,
        alloc: Global,
        out: &mut Output<O>,
        seen: &Seen<'_, '_, '_>,
    ) -> Result<u64, Fault> {
        match Role::of(seen.view) {
            Role::Call(call) => self.add(alloc, out, seen, &call),
            Role::OneWay(_) => self.say_one_way(alloc, out, seen),
            Role::Return(answer) | Role::Error(answer) => {
                self.take_answer(alloc, out, seen, &answer)
            }
            Role::Other => Ok(0),
        }
    }

    /// Says which calls have waited longer than patience goes, and answers how many.
    pub(crate) fn tell_late<O: Writer>(
        &mut self,
        alloc: Global,
        out: &mut Output<O>,
        now: u64,
    ) -> Result<u64, Fault> {
        self.last = self.last.max(now);
        match now.checked_sub(self.patience) {
            Some(time) => self.tell_older(alloc, out, time),
            None => Ok(0),
        }
    }

    /// Says at the end which calls have no answer, and writes the table of all.
    pub(crate) fn end<O: Writer, E: Writer>(
        &mut self,
        alloc: Global,
        out: &mut Output<O>,
        err: &mut Output<E>,
    ) -> Result<(), Fault> {
        self.tell_older(alloc, out, u64::MAX)?;
        if self.given_up > 0 {
            let count = self.given_up;
            let line = format!(in alloc;
                "dbusfan: more than {MAX_OPEN_CALLS} calls waited, and {count} of them were given up\n"
            )?;
            err.put(line.as_bytes());
        }
        err.put(self.methods.report(alloc)?.as_bytes());
        Ok(())
    }

    /// Says which calls that were made by a time have no answer, and answers how many.
    fn tell_older<O: Writer>(
        &mut self,
        alloc: Global,
        out: &mut Output<O>,
        time: u64,
    ) -> Result<u64, Fault> {
        let mut count = 0u64;
        for _ in 0..u64::MAX {
            let Some((_, call)) = self.open.take_older(time) else {
                return Ok(count);
            };
            let said = self.say_unanswered(alloc, out, call, "no answer")?;
            count = count.saturating_add(said);
        }
        Ok(count)
    }

    /// Keeps a call until its answer comes. It says one that is no longer kept.
    fn add<O: Writer>(
        &mut self,
        alloc: Global,
        out: &mut Output<O>,
        seen: &Seen<'_, '_, '_>,
        exchange: &Exchange<'_>,
    ) -> Result<u64, Fault> {
        let text = self.form.call(alloc, seen)?;
        let id = CallId {
            caller: String::from_str(alloc, exchange.caller)?,
            serial: exchange.serial,
        };
        let call = OpenCall {
            time: seen.time,
            callee: String::from_str(alloc, exchange.callee)?,
            method: text.method,
            line: text.line,
        };
        let Some((id, old)) = self.open.add(id, call)? else {
            return Ok(0);
        };
        if is_call(&id, exchange) {
            return self.say_unanswered(alloc, out, old, "no answer, its serial is used again");
        }
        self.given_up = self.given_up.saturating_add(1);
        self.say_unanswered(alloc, out, old, "no answer, given up")
    }

    /// Says a call that wants no answer.
    fn say_one_way<O: Writer>(
        &mut self,
        alloc: Global,
        out: &mut Output<O>,
        seen: &Seen<'_, '_, '_>,
    ) -> Result<u64, Fault> {
        let mut text = self.form.call(alloc, seen)?;
        self.methods
            .take(alloc, text.method.as_str(), Outcome::OneWay)?;
        if self.slow.is_some() {
            return Ok(0);
        }
        put_all(&mut text.line, &["no answer wanted\n"])?;
        put(out, &text.line)
    }

    /// Says the call that an answer is to, if it waits.
    fn take_answer<O: Writer>(
        &mut self,
        alloc: Global,
        out: &mut Output<O>,
        seen: &Seen<'_, '_, '_>,
        answer: &Exchange<'_>,
    ) -> Result<u64, Fault> {
        let Some(call) = self.open.take_answered(alloc, answer)? else {
            return Ok(0);
        };
        let taken = seen.time.saturating_sub(call.time);
        self.methods.take(
            alloc,
            call.method.as_str(),
            outcome_of(seen.view.kind(), taken),
        )?;
        if !self.is_slow(taken) {
            return Ok(0);
        }
        let mut line = call.line;
        self.form.put_answer(alloc, &mut line, seen.view)?;
        end_line(alloc, &mut line, taken)?;
        put(out, &line)
    }

    /// Says a call that has no answer.
    fn say_unanswered<O: Writer>(
        &mut self,
        alloc: Global,
        out: &mut Output<O>,
        call: OpenCall,
        what: &str,
    ) -> Result<u64, Fault> {
        self.methods
            .take(alloc, call.method.as_str(), Outcome::Unanswered)?;
        let waited = self.last.saturating_sub(call.time);
        if !self.is_slow(waited) {
            return Ok(0);
        }
        let mut line = call.line;
        put_all(&mut line, &[what])?;
        end_line(alloc, &mut line, waited)?;
        put(out, &line)
    }

    /// Whether a call that took so long is said.
    fn is_slow(&self, taken: u64) -> bool {
        match self.slow {
            Some(slow) => taken > slow,
            None => true,
        }
    }
}

/// Whether a call has this caller and serial.
fn is_call(id: &CallId, exchange: &Exchange<'_>) -> bool {
    id.serial == exchange.serial && id.caller.as_str() == exchange.caller
}

/// What an answer of a kind is, after a time in nanoseconds.
fn outcome_of(kind: Kind, taken: u64) -> Outcome {
    match kind {
        Kind::Error => Outcome::Failed(taken),
        _ => Outcome::Returned(taken),
    }
}

/// Writes a line, which is one.
fn put<O: Writer>(out: &mut Output<O>, line: &[u8]) -> Result<u64, Fault> {
    out.put(line);
    if out.has_failed {
        return Err(Fault::Tool(command_line::Fault::File));
    }
    Ok(1)
}
