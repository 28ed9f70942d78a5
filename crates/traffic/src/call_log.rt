// The calls that wait for their answers.

ghost use Rattle.std.specs.Prelude.{◌≡◌};
ghost use Rattle.traffic.specs.OpenCalls.{may_answer};

use crate::role::Exchange;
use lru::LruCache;
use std::alloc::{AllocError, AllocFailed, Global};
use std::marker::Model;
use std::num::NonZeroUsize;

/// The name of a bus itself.
const BUS_NAME: &str = "org.freedesktop.DBus";

/// How many calls may wait for their answers.
pub const MAX_OPEN_CALLS: usize = 16_384;

/// By whom a call was made, and its serial.
#[derive(Drop, PartialEq, Eq, Hash)]
pub struct CallId {
    pub caller: String,
    pub serial: u32,
}

/// A call that waits for its answer, and when it was made, in nanoseconds.
#[derive(Drop)]
pub struct OpenCall {
    pub time: u64,
    pub callee: String,
    /// The callee and the method, by which calls are counted.
    pub method: String,
    /// How the call is said, without its answer.
    pub line: Vec<u8>,
}

/// The calls that wait for their answers, a limited number. Contracts see them, the newest first, and how many there may be.
#[derive(Drop)]
pub struct CallLog {
    calls: LruCache<CallId, OpenCall>,
}

impl Model for CallLog {
    ghost use Rattle.lru.specs.LruCache.{LruCache};
    ghost use Rattle.traffic.specs.declared.call_log.CallId.{CallId};
    ghost use Rattle.traffic.specs.declared.call_log.OpenCall.{OpenCall};

    ghost Value = { LruCache CallId OpenCall };

    ghost view = { λ l. l.calls };
}

impl CallLog {
    ghost use Rattle.std.specs.Prelude.{◌≡◌, ◌-◌, [], length, take, is_some, if◌then◌else◌, IfOk, OnOk};
    ghost use Rattle.lru.specs.LruCache.{lru_cache, put_entries, displaced, last_entry};
    ghost use Rattle.traffic.specs.OpenCalls.{same_id, call_of_answer, without_answered, if_older};
    ghost use Rattle.traffic.specs.Roles.{shown_call};

    /// No call waits, and `MAX_OPEN_CALLS` may.
    ///
    /// # Errors
    ///
    /// Memory was refused.
    pub fn new(alloc: Global) -> Result<CallLog, AllocError>
        ensures { IfOk result (λ log. log ≡ lru_cache [] MAX_OPEN_CALLS) }
    {
        let most = NonZeroUsize::new(MAX_OPEN_CALLS).unwrap();
        Ok(CallLog {
            calls: LruCache::sparse(alloc, most)?,
        })
    }

    /// How many calls wait.
    pub fn len(&self) -> usize
        ensures { result ≡ length self.now.entries }
    {
        self.calls.len()
    }

    /// Adds a call, and answers the one that is no longer kept for it: an older one of the same caller and serial, or else the
    /// oldest where as many wait as may.
    ///
    /// # Errors
    ///
    /// Memory was refused.
    pub fn add(
        &mut self,
        id: CallId,
        call: OpenCall,
    ) -> Result<Option<(CallId, OpenCall)>, AllocFailed<(CallId, OpenCall)>>
        ensures given_up { IfOk result (λ old. old ≡ displaced same_id self.old id call) }
        ensures calls { OnOk result (self.new ≡ lru_cache (put_entries same_id self.old id call) self.old.cap) }
    {
        self.calls.push(id, call)
    }

    /// Takes the call that an answer is to, if it waits and the sender of the answer may answer it.
    ///
    /// # Errors
    ///
    /// Memory was refused.
    pub fn take_answered(
        &mut self,
        alloc: Global,
        answer: &Exchange<'_>,
    ) -> Result<Option<OpenCall>, AllocError>
        ensures call { IfOk result (λ found. found ≡ call_of_answer (shown_call answer.now) self.old.entries) }
        ensures others { OnOk result (self.new ≡ lru_cache (without_answered (shown_call answer.now) self.old.entries) self.old.cap) }
    {
        let id = CallId {
            caller: String::from_str(alloc, answer.caller)?,
            serial: answer.serial,
        };
        match self.calls.peek(&id) {
            Some(call) if may_answer(call.callee.as_str(), answer.callee) => {
                Ok(self.calls.pop(&id))
            }
            _ => Ok(None),
        }
    }

    /// Takes the oldest call, if it was made at a time, in nanoseconds, or before.
    pub fn take_older(&mut self, time: u64) -> Option<(CallId, OpenCall)>
        ensures call { result ≡ if_older time (last_entry self.old.entries) }
        ensures others { self.new ≡ lru_cache (if is_some result then take (length self.old.entries - 1) self.old.entries else self.old.entries) self.old.cap }
    {
        match self.calls.peek_lru() {
            Some((_, call)) if call.time <= time => self.calls.pop_lru(),
            _ => None,
        }
    }
}

/// Whether the answer of a sender may be one to a call of a callee: the callee's own, or the bus's for it. Who owns a
/// well-known name isn't looked at, nor who is called by a call to nobody.
fn may_answer(callee: &str, sender: &str) -> bool
    ensures { result ≡ may_answer callee.now sender.now }
{
    if callee.starts_with(":") || callee == BUS_NAME {
        sender == callee || sender == BUS_NAME
    } else {
        true
    }
}
