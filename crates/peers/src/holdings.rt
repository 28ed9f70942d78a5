// What a client has taken of the bus.

ghost use Rattle.std.specs.Prelude.{◌≡◌, ◌+◌, ◌<◌, ◌≤◌, ◌^◌, ◌==◌, None, true, not, filter, nat_le, nat_lt, OnOk, vec_len, vec_capacity};
ghost use Rattle.std.specs.Str.{bytes_eq};
ghost use Rattle.peers.specs.Holdings.{nothing_held, entries_of, instructions_of, is_held, with_name, without_name, after_add, after_remove, after_attach, after_detach, after_reply, after_request, after_release};
ghost use Rattle.peers.specs.HeldLists.{holdings_of};
ghost use Rattle.peers.specs.Shares.{IsAdmitted, IsWithin, rule_limit, program_limit, name_limit};

use crate::all_instructions::{AllInstructions, Taken};
use crate::refused::Refused;
use crate::shares::Shares;
use bus_messages::{ErrorName, Exceeded};
use owners::{NameReply, WellKnown};
use router::{BusError, Reply};
use std::alloc::Global;
use std::sync::Arc;

/// An attached program.
#[derive(Clone, Copy, Debug)]
pub(crate) struct HeldProgram {
    /// Its entry's id.
    pub(crate) id: u32,
    /// How many instructions it has.
    pub(crate) len: usize,
}

/// What a client has taken of the bus: match rules, programs, and the names that it asked for and hasn't released.
#[derive(Drop)]
pub(crate) struct Holdings {
    rules: u32,
    programs: Vec<HeldProgram>,
    names: Vec<WellKnown>,
    // Its instructions among those of all clients, which contracts don't see.
    taken: Taken,
}

impl Holdings {
    /// Nothing, which takes no memory.
    pub(crate) fn new(alloc: Global) -> Holdings
        ensures { holdings_of result ≡ nothing_held }
    {
        Holdings {
            rules: 0,
            programs: Vec::new(alloc),
            names: Vec::new(alloc),
            taken: Taken::not_counted(),
        }
    }

    /// Counts the instructions of its programs among those of all clients, but for those that it has.
    pub(crate) fn share_instructions(&mut self, all: Arc<AllInstructions>)
        ensures { holdings_of self.new ≡ holdings_of self.old }
    {
        self.taken = Taken::of(all);
    }

    /// Whether there is room for one match rule or program more.
    fn has_room_for_entry(&self, shares: Shares) -> bool
        ensures room { result ≡ nat_lt (entries_of (holdings_of self.now)) shares.entries }
        ensures few { result ≡ true → self.now.rules + 1 < 2 ^ 32 }
    {
        self.rules as usize + self.programs.len() < shares.entries as usize
    }

    /// The limit that one match rule more would go beyond.
    pub(crate) fn rule_limit(&self, shares: Shares) -> Option<Exceeded>
        ensures limit { result ≡ rule_limit shares (holdings_of self.now) }
        ensures few { result ≡ None → self.now.rules + 1 < 2 ^ 32 }
    {
        if self.has_room_for_entry(shares) {
            None
        } else {
            Some(Exceeded::Rules)
        }
    }

    /// The first limit that one program more would go beyond, of this many instructions.
    fn program_limit(&self, shares: Shares, len: usize) -> Option<Exceeded>
        ensures { result ≡ program_limit shares len (holdings_of self.now) }
    {
        if !self.has_room_for_entry(shares) {
            Some(Exceeded::Rules)
        } else if has_room_for(&self.programs, shares.instructions, len) {
            None
        } else {
            Some(Exceeded::Instructions)
        }
    }

    /// The limit that a name would go beyond.
    fn name_limit(&self, shares: Shares, name: &WellKnown) -> Option<Exceeded>
        ensures { result ≡ name_limit shares name.now (holdings_of self.now) }
    {
        if is_held(name, &self.names) || self.names.len() < shares.names as usize {
            None
        } else {
            Some(Exceeded::Names)
        }
    }

    /// Takes memory to note one program more, if the shares have room for it, and room for its instructions among those of
    /// all clients.
    ///
    /// # Errors
    ///
    /// LimitsExceeded with the limit if they have none, and NoMemory.
    pub(crate) fn admit_program(&mut self, shares: Shares, len: usize) -> Result<(), Refused>
        ensures within { IsAdmitted (program_limit shares len (holdings_of self.old)) result }
        ensures same { holdings_of self.new ≡ holdings_of self.old }
        ensures spare { OnOk result (vec_len self.new.programs < vec_capacity self.new.programs) }
    {
        if let Some(limit) = self.program_limit(shares, len) {
            return Err(Refused::beyond(limit));
        }
        if self.programs.reserve(1).is_err() {
            return Err(Refused::Error(ErrorName::NoMemory));
        }
        if self.taken.take(len) {
            Ok(())
        } else {
            Err(Refused::beyond(Exceeded::AllInstructions))
        }
    }

    /// Takes memory to note one name more, if the shares have room for it.
    ///
    /// # Errors
    ///
    /// LimitsExceeded with the limit if they have none, and NoMemory.
    pub(crate) fn admit_name(&mut self, shares: Shares, name: &WellKnown) -> Result<(), Refused>
        ensures within { IsWithin (name_limit shares name.now (holdings_of self.old)) result }
        ensures same { holdings_of self.new ≡ holdings_of self.old }
        ensures spare { OnOk result (vec_len self.new.names < vec_capacity self.new.names) }
    {
        if let Some(limit) = self.name_limit(shares, name) {
            return Err(Refused::beyond(limit));
        }
        match self.names.reserve(1) {
            Ok(()) => Ok(()),
            Err(_) => Err(Refused::Error(ErrorName::NoMemory)),
        }
    }

    /// Notes what AddMatch came to.
    pub(crate) fn note_add(&mut self, added: &Result<Reply, BusError>)
        requires { self.old.rules + 1 < 2 ^ 32 }
        ensures { holdings_of self.new ≡ after_add added.now (holdings_of self.old) }
    {
        if added.is_ok() {
            self.rules += 1;
        }
    }

    /// Notes what RemoveMatch came to.
    pub(crate) fn note_remove(&mut self, removed: &Result<Reply, BusError>)
        ensures { holdings_of self.new ≡ after_remove removed.now (holdings_of self.old) }
    {
        if removed.is_ok() {
            self.rules = self.rules.saturating_sub(1);
        }
    }

    /// Notes what an Attach of a program of this many instructions came to.
    pub(crate) fn note_attach(&mut self, len: usize, attached: &Result<Reply, BusError>)
        requires { vec_len self.old.programs < vec_capacity self.old.programs }
        ensures { holdings_of self.new ≡ after_attach len attached.now (holdings_of self.old) }
    {
        if let Ok(Reply::Entry(id)) = attached {
            self.programs.push_reserved(HeldProgram { id: *id, len });
        }
        self.taken.keep(total_len(&self.programs));
    }

    /// Notes what Detach came to.
    pub(crate) fn note_detach(&mut self, id: u32, detached: &Result<Reply, BusError>)
        ensures { holdings_of self.new ≡ after_detach id detached.now (holdings_of self.old) }
    {
        if detached.is_ok() {
            remove_program(&mut self.programs, id);
        }
        self.taken.keep(total_len(&self.programs));
    }

    /// Notes what RequestName came to.
    pub(crate) fn note_request(&mut self, name: &WellKnown, asked: &Result<Reply, BusError>)
        requires { vec_len self.old.names < vec_capacity self.old.names }
        ensures { holdings_of self.new ≡ after_request name.now asked.now (holdings_of self.old) }
    {
        if let Ok(Reply::Name(named)) = asked {
            self.note_reply(name, named.answer);
        }
    }

    fn note_reply(&mut self, name: &WellKnown, answer: NameReply)
        requires { vec_len self.old.names < vec_capacity self.old.names }
        ensures { holdings_of self.new ≡ after_reply name.now answer (holdings_of self.old) }
    {
        match answer {
            NameReply::Exists => self.drop_name(name),
            _ => self.add_name(name),
        }
    }

    fn add_name(&mut self, name: &WellKnown)
        requires { vec_len self.old.names < vec_capacity self.old.names }
        ensures { holdings_of self.new ≡ with_name name.now (holdings_of self.old) }
    {
        self.drop_name(name);
        self.names.push_reserved(name.copy());
    }

    fn drop_name(&mut self, name: &WellKnown)
        ensures names { holdings_of self.new ≡ without_name name.now (holdings_of self.old) }
        ensures len { vec_len self.new.names ≤ vec_len self.old.names }
        ensures capacity { vec_capacity self.new.names ≡ vec_capacity self.old.names }
    {
        remove_name(&mut self.names, name);
    }

    /// Notes what ReleaseName came to.
    pub(crate) fn note_release(&mut self, name: &WellKnown, released: &Result<Reply, BusError>)
        ensures { holdings_of self.new ≡ after_release name.now released.now (holdings_of self.old) }
    {
        if released.is_ok() {
            self.drop_name(name);
        }
    }
}

/// Whether a share of instructions has room for these programs and one more of this many.
fn has_room_for(programs: &[HeldProgram], share: u32, len: usize) -> bool
    ensures { result ≡ nat_le (instructions_of programs.now + len) share }
{
    let mut left = share as usize;
    for program in programs {
        if program.len > left {
            return false;
        }
        left -= program.len;
    }
    len <= left
}

/// How many instructions these programs have.
fn total_len(programs: &[HeldProgram]) -> u64 {
    let mut total = 0u64;
    for program in programs {
        total = total.saturating_add(program.len as u64);
    }
    total
}

fn remove_program(programs: &mut Vec<HeldProgram>, id: u32)
    ensures { programs.new.items ≡ filter (λ program. not (program.id == id)) programs.old.items }
{
    programs.retain(|program| program.id != id);
}

fn remove_name(names: &mut Vec<WellKnown>, name: &WellKnown)
    ensures items { names.new.items ≡ filter (λ other. not (bytes_eq other name.now)) names.old.items }
    ensures len { vec_len names.new ≤ vec_len names.old }
    ensures capacity { vec_capacity names.new ≡ vec_capacity names.old }
{
    names.retain(|other| other.as_str() != name.as_str());
}

fn is_held(name: &WellKnown, names: &[WellKnown]) -> bool
    ensures { result ≡ is_held name.now names.now }
{
    names.iter().any(|other| other.as_str() == name.as_str())
}
