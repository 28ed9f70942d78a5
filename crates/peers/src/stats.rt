// What the bus tells whoever looks into it (D-Bus has no standard for these calls; they are dbus-daemon's).

ghost use Rattle.std.specs.Prelude.{◌≡◌};
ghost use Rattle.peers.specs.Answers.{IsPutAt, UnlessShut};
ghost use Rattle.peers.specs.Stats.{AreFacts, AreTextLists, AnswersInsight, AnswersInsightBy, AnswersInsightLater};

use crate::context::Context;
use crate::error::AnswerError;
use crate::owner::Owner;
use crate::peer::Peer;
use crate::refused::Refused;
use crate::request::Request;
use bus_messages::{Body, ErrorName, Fact, NamedFact, TextList, UniqueName};
use outbox::{Counts, Room};
use router::{Bus, BusBrand, Control, Mailbox, Standing};
use rule_text::rule_text;
use std::alloc::{AllocError, Global};
use std::sync::Wait;

/// What is known of one client, or of all together.
#[derive(Clone, Copy)]
struct Stats {
    rules: usize,
    names: usize,
    waiting: Room,
    counts: Counts,
}

/// A number under a name, as a fact of 32 bits: one that is too great is the greatest.
fn number_fact(name: &'static str, number: u64) -> NamedFact<'static> {
    let number = u32::try_from(number).unwrap_or(u32::MAX);
    NamedFact {
        name,
        fact: Fact::Number(number),
    }
}

impl Stats {
    /// The facts of both calls, after the first one, which each has for itself.
    fn facts<'a>(&self, first: NamedFact<'a>) -> [NamedFact<'a>; 11] {
        [
            first,
            number_fact("MatchRules", self.rules as u64),
            number_fact("BusNames", self.names as u64),
            number_fact("OutgoingMessages", self.waiting.messages as u64),
            number_fact("OutgoingBytes", self.waiting.bytes as u64),
            number_fact("Broadcasts", self.counts.broadcasts),
            number_fact("Recipients", self.counts.recipients),
            number_fact("RefusedPuts", self.counts.refused),
            number_fact("ProgramsRun", self.counts.programs),
            number_fact("ProgramSteps", self.counts.steps),
            number_fact("Unicasts", self.counts.unicasts),
        ]
    }
}

/// How many connections there are, and what is known of all of them, and of those that have left.
fn stats_of_all<B: BusBrand, M: Mailbox, W: Wait, R: Wait + Drop>(
    rt: &W,
    alloc: Global,
    bus: &Bus<B, M, R>,
) -> Result<(usize, Stats), AllocError> {
    let mut counts = bus.tally_of_gone().counts();
    let mut waiting = Room {
        messages: 0,
        bytes: 0,
    };
    let control = bus.control(rt);
    let connections = control.connections();
    for connection in connections {
        let outbox = connection.mailbox.outbox();
        let here = outbox.waiting();
        counts = counts.with(outbox.tally().counts());
        waiting = Room {
            messages: waiting.messages.saturating_add(here.messages),
            bytes: waiting.bytes.saturating_add(here.bytes),
        };
    }
    let clients = connections.len();
    let names = control.names(alloc)?.len();
    let stats = Stats {
        rules: control.entry_count(),
        names: names.saturating_add(clients),
        waiting,
        counts,
    };
    Ok((clients, stats))
}

/// What is known of one connection, unless it has gone.
fn stats_of<B: BusBrand, M: Mailbox, R: Wait + Drop>(
    alloc: Global,
    control: &Control<B, M, R>,
    number: u64,
) -> Result<Option<Stats>, AllocError> {
    let Some(connection) = control
        .connections()
        .iter()
        .find(|connection| connection.number == number)
    else {
        return Ok(None);
    };
    let outbox = connection.mailbox.outbox();
    let mut names = 1usize;
    for name in &control.names(alloc)? {
        if control.owner_of(name.as_str()) == Some(number) {
            names = names.saturating_add(1);
        }
    }
    Ok(Some(Stats {
        rules: control.rules_of(alloc, number)?.len(),
        names,
        waiting: outbox.waiting(),
        counts: outbox.tally().counts(),
    }))
}

/// The numbers of all connections, rising.
fn numbers<B: BusBrand, M: Mailbox, R: Wait + Drop>(
    alloc: Global,
    control: &Control<B, M, R>,
) -> Result<Vec<u64>, AllocError> {
    let connections = control.connections();
    let mut numbers = Vec::with_capacity(alloc, connections.len())?;
    for connection in connections {
        numbers.push(connection.number)?;
    }
    Ok(numbers)
}

/// The rules of a connection as texts, the oldest first.
fn rules_of<B: BusBrand, M: Mailbox, W: Wait, R: Wait + Drop>(
    rt: &W,
    alloc: Global,
    bus: &Bus<B, M, R>,
    number: u64,
) -> Result<TextList, AllocError> {
    let rules = bus.control(rt).rules_of(alloc, number)?;
    let mut texts = Vec::with_capacity(alloc, rules.len())?;
    for rule in &rules {
        texts.push(rule_text(alloc, rule.rule())?)?;
    }
    let mut key = String::new(alloc);
    key.push_str(UniqueName::new(number).as_str())?;
    Ok(TextList { key, texts })
}

/// The rules of all connections. The lock of the bus is taken for each of them anew.
fn rules_of_all<B: BusBrand, M: Mailbox, W: Wait, R: Wait + Drop>(
    rt: &W,
    alloc: Global,
    bus: &Bus<B, M, R>,
) -> Result<Vec<TextList>, AllocError> {
    let numbers = numbers(alloc, &bus.control(rt))?;
    let mut lists = Vec::with_capacity(alloc, numbers.len())?;
    for number in &numbers {
        lists.push(rules_of(rt, alloc, bus, *number)?)?;
    }
    Ok(lists)
}

impl<B: BusBrand, M: Mailbox> Peer<B, M> {
    pub(crate) fn get_stats<W: Wait, R: Wait + Drop>(
        &mut self,
        context: &Context<'_, B, M, W, R>,
        request: Request,
    ) -> Result<(), AnswerError>
        ensures row { AnswersInsight AreFacts request self.old result self.new }
        ensures error { UnlessShut request.wants_answer result self.new }
    {
        match self.look_at_all(context) {
            Ok((clients, stats)) => {
                let facts = stats.facts(number_fact("ActiveConnections", clients as u64));
                self.answer(context, request, Body::Facts(&facts))
            }
            Err(why) => self.refuse(context, request, why),
        }
    }

    fn look_at_all<W: Wait, R: Wait + Drop>(
        &self,
        context: &Context<'_, B, M, W, R>,
    ) -> Result<(usize, Stats), Refused> {
        self.check_insight()?;
        Ok(stats_of_all(context.rt, context.alloc, context.bus)?)
    }

    pub(crate) fn get_connection_stats<W: Wait, R: Wait + Drop>(
        &mut self,
        context: &Context<'_, B, M, W, R>,
        request: Request,
        name: &str,
    ) -> Result<(), AnswerError>
        ensures row { AnswersInsightLater M.outbox_of AreFacts request self.old result self.new }
        ensures error { UnlessShut request.wants_answer result self.new }
    {
        let mut guard = context.bus.control(context.rt);
        let control = &mut *guard;
        let owner = self.owner_named(control, name);
        self.answer_connection_stats(context, control, request, owner)
    }

    fn answer_connection_stats<W: Wait, R: Wait + Drop>(
        &mut self,
        context: &Context<'_, B, M, W, R>,
        control: &mut Control<B, M, R>,
        request: Request,
        owner: Result<Option<Owner>, Refused>,
    ) -> Result<(), AnswerError>
        ensures row { AnswersInsightBy (IsPutAt Standing.State M.outbox_of control.old.history) AreFacts request self.old result self.new }
        ensures error { UnlessShut request.wants_answer result self.new }
    {
        match self.look_at(context.alloc, control, owner) {
            Ok((number, stats)) => {
                let name = UniqueName::new(number);
                let facts = stats.facts(NamedFact {
                    name: "UniqueName",
                    fact: Fact::Text(name.as_str()),
                });
                self.answer_placed(context, control, request, Body::Facts(&facts))
            }
            Err(why) => self.refuse_placed(context, control, request, why),
        }
    }

    fn look_at<R: Wait + Drop>(
        &self,
        alloc: Global,
        control: &Control<B, M, R>,
        owner: Result<Option<Owner>, Refused>,
    ) -> Result<(u64, Stats), Refused> {
        self.check_insight()?;
        let number = match owner {
            Ok(Some(Owner::Connection(number))) => number,
            Ok(Some(Owner::Bus)) => return Err(Refused::Error(ErrorName::InvalidArgs)),
            // Nobody owns what is no name.
            Ok(None) | Err(Refused::Error(ErrorName::InvalidArgs)) => {
                return Err(Refused::Error(ErrorName::NameHasNoOwner));
            }
            Err(why) => return Err(why),
        };
        match stats_of(alloc, control, number)? {
            Some(stats) => Ok((number, stats)),
            None => Err(Refused::Error(ErrorName::NameHasNoOwner)),
        }
    }

    pub(crate) fn get_all_match_rules<W: Wait, R: Wait + Drop>(
        &mut self,
        context: &Context<'_, B, M, W, R>,
        request: Request,
    ) -> Result<(), AnswerError>
        ensures row { AnswersInsight AreTextLists request self.old result self.new }
        ensures error { UnlessShut request.wants_answer result self.new }
    {
        match self.look_at_rules(context) {
            Ok(lists) => self.answer(context, request, Body::TextLists(lists.as_slice())),
            Err(why) => self.refuse(context, request, why),
        }
    }

    fn look_at_rules<W: Wait, R: Wait + Drop>(
        &self,
        context: &Context<'_, B, M, W, R>,
    ) -> Result<Vec<TextList>, Refused> {
        self.check_insight()?;
        Ok(rules_of_all(context.rt, context.alloc, context.bus)?)
    }
}
