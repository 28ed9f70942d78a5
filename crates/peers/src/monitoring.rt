// Clients that watch all that goes through the bus.

ghost use Rattle.std.specs.Prelude.{◌≡◌, IfErr};
ghost use Rattle.peers.specs.Answers.{UnlessShut};
ghost use Rattle.peers.specs.Monitoring.{BecomesMonitor, Watches, GoesUnder, outcome_of};

use crate::context::Context;
use crate::error::AnswerError;
use crate::leaving::{Farewell, Leaving};
use crate::peer::Peer;
use crate::refused::Refused;
use crate::request::Request;
use crate::sending::stamp_message;
use bus_messages::{Body, Bytes, ErrorName};
use match_rule::Rule;
use message_view::View;
use router::{BusBrand, BusError, Control, Mailbox, RouteLists};
use std::alloc::Global;
use std::sync::Wait;

impl<B: BusBrand, M: Mailbox> Peer<B, M> {
    /// Shows a message of the client to those who watch, stamped with the client's name, before it is handled. One that can't
    /// be stamped isn't shown.
    pub fn show<W: Wait, R: Wait + Drop>(
        &self,
        context: &Context<'_, B, M, W, R>,
        view: &View<'_>,
    ) {
        if let Some(bytes) = self.stamped_if_watched(context, view) {
            context.show(Some(self.pass.connection()), &bytes);
        }
    }

    /// Shows the client's first message, as `show` does, by who holds the lock of the bus.
    pub fn show_first<W: Wait, R: Wait + Drop>(
        &self,
        context: &Context<'_, B, M, W, R>,
        control: &Control<B, M, R>,
        view: &View<'_>,
    ) {
        if let Some(bytes) = self.stamped_if_watched(context, view) {
            let number = Some(self.pass.connection());
            context
                .bus
                .show_under(context.rt, context.alloc, control, number, &bytes);
        }
    }

    // The message as it is passed on, if anybody watches.
    fn stamped_if_watched<W: Wait, R: Wait + Drop>(
        &self,
        context: &Context<'_, B, M, W, R>,
        view: &View<'_>,
    ) -> Option<Bytes> {
        if context.bus.monitors().is_empty() {
            return None;
        }
        stamp_message(context.alloc, view, &self.name).ok()
    }

    /// Has the client watch all that goes through the bus, as far as one of these rules holds of it, or everything if there are
    /// none (D-Bus Specification, "Message Bus Messages": BecomeMonitor). Its call is answered; then it leaves the bus with all
    /// its names. It is told of each that it is lost, of its unique one last, before that is announced. What it sends later ends its
    /// session.
    ///
    /// # Errors
    ///
    /// As those of `answer`, and `NoMemory` if it couldn't leave the bus, or watch it, or if memory was refused to a message that
    /// tells of its leaving.
    pub(crate) fn become_monitor<W: Wait, R: Wait + Drop>(
        &mut self,
        context: &Context<'_, B, M, W, R>,
        lists: &mut RouteLists,
        request: Request,
        texts: &[&str],
        flags: u32,
    ) -> Result<(), AnswerError>
        ensures row { BecomesMonitor M.outbox_of request self.old result self.new }
        ensures error { UnlessShut request.wants_answer result self.new }
    {
        match self.admit_monitor(context.alloc, texts, flags) {
            Ok((mailbox, rules)) => self.watch(context, lists, request, mailbox, rules),
            Err(why) => self.refuse(context, request, why),
        }
    }

    // What it will watch by, where it may: every client of the bus is known to be the user who runs it.
    fn admit_monitor(
        &self,
        alloc: Global,
        texts: &[&str],
        flags: u32,
    ) -> Result<(M, Vec<Rule>), Refused> {
        self.check_insight()?;
        if flags != 0 {
            return Err(Refused::Error(ErrorName::InvalidArgs));
        }
        let rules = read_rules(alloc, texts)?;
        Ok((self.own.share()?, rules))
    }

    /// Refuses who isn't known to be the user who runs the bus.
    pub(crate) fn check_insight(&self) -> Result<(), Refused> {
        match self.identity.user {
            Some(_) => Ok(()),
            None => Err(Refused::Error(ErrorName::AccessDenied)),
        }
    }

    fn watch<W: Wait, R: Wait + Drop>(
        &mut self,
        context: &Context<'_, B, M, W, R>,
        lists: &mut RouteLists,
        request: Request,
        mailbox: M,
        rules: Vec<Rule>,
    ) -> Result<(), AnswerError>
        ensures row { Watches M.outbox_of request self.old result self.new }
        ensures error { UnlessShut request.wants_answer result self.new }
    {
        self.answer(context, request, Body::Nothing)?;
        self.go_under(context, lists)?;
        let number = self.pass.connection();
        match context
            .bus
            .monitors()
            .add(context.rt, number, mailbox, rules)
        {
            Ok(()) => Ok(()),
            Err(_) => Err(AnswerError::NoMemory),
        }
    }

    // Leaves the bus. Its client stays, and is told so. That is written out once it watches, so that whoever has read the answer is
    // shown all that comes then.
    fn go_under<W: Wait, R: Wait + Drop>(
        &mut self,
        context: &Context<'_, B, M, W, R>,
        lists: &mut RouteLists,
    ) -> Result<(), AnswerError>
        ensures gone { GoesUnder M.outbox_of self.old result self.new }
        ensures error { IfErr result (λ error. error ≡ AnswerError.NoMemory) }
    {
        let (leaving, told) = self.depart(context, lists, Farewell::Told);
        outcome_of(leaving, told)
    }
}

// What becomes of a call to leave the bus, by what became of the messages that tell of it.
fn outcome_of(leaving: Leaving, told: Result<(), AnswerError>) -> Result<(), AnswerError>
    ensures { result ≡ outcome_of leaving told }
{
    match leaving {
        Leaving::Done => match told {
            Ok(_) => Ok(()),
            Err(_) => Err(AnswerError::NoMemory),
        },
        Leaving::Ended | Leaving::Refused => Err(AnswerError::NoMemory),
    }
}

fn read_rules(alloc: Global, texts: &[&str]) -> Result<Vec<Rule>, Refused> {
    let mut rules = Vec::with_capacity(alloc, texts.len())?;
    for text in texts {
        rules.push(read_rule(alloc, text)?)?;
    }
    Ok(rules)
}

/// A rule of a monitor, which is of messages to others too, whatever it says of that itself.
fn read_rule(alloc: Global, text: &str) -> Result<Rule, Refused> {
    match Rule::read(alloc, text) {
        Ok(rule) => Ok(rule.eavesdropping()),
        Err(fault) => Err(Refused::from(BusError::of_text(fault))),
    }
}
