// The call that attaches the program of a filter.

ghost use Rattle.std.specs.Prelude.{◌≡◌, IfErr, IfOk, MatchResult, option_map};
ghost use Rattle.filter.specs.Filters.{tree_of};
ghost use Rattle.filter_compile.specs.Names.{names_of};
ghost use Rattle.bus_messages.specs.FilterFaults.{filter_fault_text};
ghost use Rattle.peers.specs.Answers.{IsEither, UnlessShut, after_serial, fault_asked};
ghost use Rattle.peers.specs.Attachments.{AttachesFilter, AttachesTree, IsBadFilter, IsFirst, IsProgramOf, IsRefusedFor, bad_filter_with};
ghost use Rattle.peers.specs.PeerState.{name_of};
ghost use Rattle.peers.specs.Shares.{WithinMemory};

use crate::answers::error_bytes;
use crate::asked_texts::asked_by;
use crate::context::Context;
use crate::error::AnswerError;
use crate::peer::Peer;
use crate::refused::Refused;
use crate::request::Request;
use bpf_code::Ins;
use bus_messages::{Bytes, ErrorName, Exceeded, FilterFault, bad_filter};
use filter::{Filter, FilterError};
use filter_compile::{CompileError, Names, compile};
use router::{BusBrand, Mailbox};
use std::alloc::{AllocError, Global};
use std::sync::Wait;
use summary::Edition;

impl<B: BusBrand, M: Mailbox> Peer<B, M> {
    /// Attaches the program of a filter.
    ///
    /// # Errors
    ///
    /// As those of `answer`.
    pub(crate) fn attach_filter<W: Wait, R: Wait + Drop>(
        &mut self,
        context: &Context<'_, B, M, W, R>,
        request: Request,
        text: &str,
    ) -> Result<(), AnswerError>
        ensures row { AttachesFilter context.now.shares request text.now self.old result self.new }
        ensures error { UnlessShut request.wants_answer result self.new }
    {
        match Filter::read(context.alloc, text) {
            Ok(filter) => self.attach_tree(context, request, &filter),
            Err(FilterError::Fault(at)) => {
                self.refuse_filter(context, request, FilterFault::Token(at))
            }
            Err(FilterError::NoMemory) => {
                self.refuse(context, request, Refused::Error(ErrorName::NoMemory))
            }
        }
    }

    fn attach_tree<W: Wait, R: Wait + Drop>(
        &mut self,
        context: &Context<'_, B, M, W, R>,
        request: Request,
        filter: &Filter,
    ) -> Result<(), AnswerError>
        ensures row { WithinMemory request (AttachesTree context.now.shares request (tree_of filter.now) self.old result self.new) self.old result self.new }
        ensures error { UnlessShut request.wants_answer result self.new }
    {
        let program = match program_of(context.alloc, filter) {
            Ok(program) => program,
            Err(why) => return self.refuse(context, request, why),
        };
        let Ok(asked) = asked_by(context.alloc, filter) else {
            return self.refuse(context, request, Refused::Error(ErrorName::NoMemory));
        };
        match first_name(context.alloc, filter) {
            Ok(None) => self.attach(context, request, Edition::Two, program, asked),
            Ok(Some(name)) => self.refuse_filter(context, request, FilterFault::SenderName(name)),
            Err(_) => self.refuse(context, request, Refused::Error(ErrorName::NoMemory)),
        }
    }

    // Answers a call with what is wrong with its filter, if its caller waits for an answer.
    fn refuse_filter<W: Wait, R: Wait + Drop>(
        &mut self,
        context: &Context<'_, B, M, W, R>,
        request: Request,
        fault: FilterFault<'_>,
    ) -> Result<(), AnswerError>
        ensures answer { IsBadFilter request (filter_fault_text fault.entry) self.old result self.new }
        ensures error { UnlessShut request.wants_answer result self.new }
    {
        if !request.wants_answer {
            return Ok(());
        }
        let bytes = self.bad_filter_bytes(context.alloc, request, fault)?;
        self.put(context, bytes)
    }

    // The bytes of that answer, or of the error NoMemory in its place, with the next serial.
    fn bad_filter_bytes(
        &mut self,
        alloc: Global,
        request: Request,
        fault: FilterFault<'_>,
    ) -> Result<Bytes, AnswerError>
        ensures built { IfOk result (IsEither (bad_filter_with self.old.serial (name_of self.old) request (filter_fault_text fault.entry)) (fault_asked self.old request ErrorName.NoMemory)) }
        ensures error { IfErr result (λ error. error ≡ AnswerError.NoMemory) }
        ensures same { self.new ≡ after_serial self.old }
    {
        let serial = self.serials.take();
        let to = Some(self.name.as_str());
        if let Ok(bytes) = bad_filter(alloc, serial, to, request.serial, fault) {
            return Ok(bytes);
        }
        error_bytes(alloc, serial, to, request, ErrorName::NoMemory)
    }
}

/// The program that a filter is compiled to.
fn program_of(alloc: Global, filter: &Filter) -> Result<Vec<Ins>, Refused>
    ensures { MatchResult result (λ program. IsProgramOf (tree_of filter.now) program.items) (IsRefusedFor (tree_of filter.now)) }
{
    match compile(alloc, filter) {
        Ok(verified) => {
            let mut program = Vec::new(alloc);
            program.extend_from_slice(verified.code())?;
            Ok(program)
        }
        Err(CompileError::TooHeavy) => Err(Refused::beyond(Exceeded::FilterWeight)),
        Err(CompileError::NoMemory) => Err(Refused::Error(ErrorName::NoMemory)),
    }
}

/// The first name in a filter's text of which it asks whether the sender owns it.
fn first_name<'a>(alloc: Global, filter: &'a Filter) -> Result<Option<&'a str>, AllocError>
    ensures { IfOk result (λ name. IsFirst (names_of (tree_of filter.entry.now)) (option_map (λ text. text.now) name)) }
{
    let names = Names::of(alloc, filter)?;
    Ok(names.as_slice().first().copied())
}
