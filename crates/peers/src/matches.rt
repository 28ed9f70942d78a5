// The calls that change a client's rules and programs.

ghost use Rattle.std.specs.Prelude.{◌≡◌, false, vec_len};
ghost use Rattle.router.specs.Calls.{Once, Answers};
ghost use Rattle.router.specs.Readings.{AddsMatch, RemovesMatch, Attaches};
ghost use Rattle.router.specs.Command.TheVariants.{Detach};
ghost use Rattle.peers.specs.Answers.{UnlessShut};
ghost use Rattle.peers.specs.Holdings.{after_add, after_remove, after_attach, after_detach};
ghost use Rattle.peers.specs.Rows.{Confirms, IsConfirmed, Numbers, NumbersEntry};
ghost use Rattle.peers.specs.Shares.{WithinShare, WithinMemory, WithinAll, rule_limit, program_limit};

use crate::context::Context;
use crate::error::AnswerError;
use crate::peer::Peer;
use crate::refused::Refused;
use crate::request::Request;
use bpf_code::Ins;
use bus_messages::Body;
use router::{AskedTexts, BusBrand, BusError, Mailbox, Reply};
use std::sync::Wait;
use summary::Edition;

impl<B: BusBrand, M: Mailbox> Peer<B, M> {
    pub(crate) fn add_match<W: Wait, R: Wait + Drop>(
        &mut self,
        context: &Context<'_, B, M, W, R>,
        request: Request,
        text: &str,
    ) -> Result<(), AnswerError>
        ensures row { WithinShare (rule_limit context.now.shares self.old.holdings) request (IsConfirmed request (λ asked pass. Once (λ before next. AddsMatch text.now self.old.pass before asked pass next)) after_add self.old result self.new) self.old result self.new }
        ensures error { UnlessShut request.wants_answer result self.new }
    {
        if let Some(limit) = self.holdings.rule_limit(context.shares) {
            return self.refuse(context, request, Refused::beyond(limit));
        }
        let bus = context.bus;
        let added = bus.add_match(context.rt, context.alloc, &mut self.pass, text);
        self.holdings.note_add(&added);
        self.confirm(context, request, added)
    }

    pub(crate) fn remove_match<W: Wait, R: Wait + Drop>(
        &mut self,
        context: &Context<'_, B, M, W, R>,
        request: Request,
        text: &str,
    ) -> Result<(), AnswerError>
        ensures row { IsConfirmed request (λ asked pass. Once (λ before next. RemovesMatch text.now self.old.pass before asked pass next)) after_remove self.old result self.new }
        ensures error { UnlessShut request.wants_answer result self.new }
    {
        let bus = context.bus;
        let removed = bus.remove_match(context.rt, context.alloc, &mut self.pass, text);
        self.holdings.note_remove(&removed);
        self.confirm(context, request, removed)
    }

    pub(crate) fn detach<W: Wait, R: Wait + Drop>(
        &mut self,
        context: &Context<'_, B, M, W, R>,
        request: Request,
        id: u32,
    ) -> Result<(), AnswerError>
        ensures row { IsConfirmed request (λ asked pass. Once (λ before next. Answers false self.old.pass before (Detach self.old.pass.connection id) asked pass next)) (after_detach id) self.old result self.new }
        ensures error { UnlessShut request.wants_answer result self.new }
    {
        let detached = context.bus.detach(context.rt, &mut self.pass, id);
        self.holdings.note_detach(id, &detached);
        self.confirm(context, request, detached)
    }

    // An empty answer if the bus did what was asked.
    fn confirm<W: Wait, R: Wait + Drop>(
        &mut self,
        context: &Context<'_, B, M, W, R>,
        request: Request,
        reply: Result<Reply, BusError>,
    ) -> Result<(), AnswerError>
        ensures row { Confirms request reply self.old result self.new }
        ensures error { UnlessShut request.wants_answer result self.new }
    {
        match reply {
            Ok(_) => self.answer(context, request, Body::Nothing),
            Err(error) => self.refuse(context, request, Refused::from(error)),
        }
    }

    pub(crate) fn attach<W: Wait, R: Wait + Drop>(
        &mut self,
        context: &Context<'_, B, M, W, R>,
        request: Request,
        edition: Edition,
        program: Vec<Ins>,
        asked: AskedTexts,
    ) -> Result<(), AnswerError>
        ensures row { WithinShare (program_limit context.now.shares (vec_len program) self.old.holdings) request (WithinMemory request (WithinAll request (NumbersEntry request (λ reply pass. Once (λ before next. Attaches edition program.items asked self.old.pass before reply pass next)) (after_attach (vec_len program)) self.old result self.new) self.old result self.new) self.old result self.new) self.old result self.new }
        ensures error { UnlessShut request.wants_answer result self.new }
    {
        let len = program.len();
        if let Err(why) = self.holdings.admit_program(context.shares, len) {
            return self.refuse(context, request, why);
        }
        let bus = context.bus;
        let attached = bus.attach(
            context.rt,
            context.alloc,
            &mut self.pass,
            edition,
            program,
            asked,
        );
        self.holdings.note_attach(len, &attached);
        self.answer_entry(context, request, attached)
    }

    // The id of the new entry.
    fn answer_entry<W: Wait, R: Wait + Drop>(
        &mut self,
        context: &Context<'_, B, M, W, R>,
        request: Request,
        reply: Result<Reply, BusError>,
    ) -> Result<(), AnswerError>
        ensures row { Numbers request reply self.old result self.new }
        ensures error { UnlessShut request.wants_answer result self.new }
    {
        match reply {
            Ok(Reply::Entry(id)) => self.answer(context, request, Body::Number(id)),
            Ok(_) => Ok(()),
            Err(error) => self.refuse(context, request, Refused::from(error)),
        }
    }
}
