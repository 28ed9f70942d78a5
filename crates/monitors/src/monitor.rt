// A client that watches.

ghost use Rattle.std.specs.Prelude.{◌≡◌, None, IfOk};
ghost use Rattle.monitors.specs.Showing.{message_of};

use crate::asking::{Owners, any_holds_of, destination_asked};
use crate::shown::Shown;
use bytes::Bytes;
use match_rule::Rule;
use message_view::View;
use outbox::{Item, Seat};
use routing::Mailbox;
use std::alloc::{AllocError, Global};
use std::marker::Model;
use std::sync::Wait;

/// A connection that watches, its rules, and a seat at its outbox. Contracts see what was put by this seat, in order.
#[derive(Drop)]
pub(crate) struct Monitor<M: Mailbox> {
    number: u64,
    rules: Vec<Rule>,
    mailbox: M,
    seat: Seat,
}

impl<M: Mailbox> Model for Monitor<M> {
    ghost use Rattle.std.specs.Prelude.{◌≡◌};
    ghost use Rattle.monitors.specs.Watching.{Watching};

    ghost Value = { Watching };

    ghost view = { λ m. record { number = m.number; rules = m.rules.items; put = m.seat.view.put; knows_shut = m.seat.knows_shut } };

    ghost invariant = { λ m. m.seat.outbox ≡ M.outbox_of m.mailbox };
}

/// A share of a message that isn't routed.
fn item_of(alloc: Global, bytes: &Bytes) -> Result<Item, AllocError>
    ensures { IfOk result (λ item. item ≡ message_of bytes.now) }
{
    let bytes = bytes.clone()?;
    Item::new(alloc, bytes, None)
}

impl<M: Mailbox> Monitor<M> {
    ghost use Rattle.std.specs.Prelude.{◌≡◌, [], None, MatchBool};
    ghost use Rattle.message_view.specs.Message.{Message};
    ghost use Rattle.message_view.specs.Valid.{Valid};
    ghost use Rattle.monitors.specs.Wanting.{Wants, WantsNot};
    ghost use Rattle.monitors.specs.Showing.{message_of, PutThere, ShownThere};

    /// A monitor of the connection of this number. Nothing is put yet.
    pub(crate) fn new(number: u64, mailbox: M, rules: Vec<Rule>) -> Monitor<M>
        ensures { (result.number ≡ number) × (result.rules ≡ rules.items) × (result.put ≡ []) }
    {
        let seat = mailbox.outbox().seat();
        Monitor {
            number,
            rules,
            mailbox,
            seat,
        }
    }

    pub(crate) fn number(&self) -> u64
        ensures { result ≡ self.now.number }
    {
        self.number
    }

    /// Whether one of its rules asks for a sender by a name that it owns, or for a destination.
    pub(crate) fn asks_for_owners(&self) -> bool {
        self.rules.iter().any(|rule| rule.sender_name().is_some()
            || destination_asked(rule).is_some())
    }

    /// Whether it wants a message: it has no rules, or one of them holds.
    pub(crate) fn wants<O: Owners>(&self, view: &View<'_>, owners: &O) -> bool
        ensures { (m : Message) → Valid view.now m → MatchBool result (Wants (O.answers owners.now) (O.unites owners.now) m self.now.rules) (WantsNot (O.answers owners.now) (O.unites owners.now) m self.now.rules) }
    {
        let rules = self.rules.as_slice();
        if rules.is_empty() {
            return true;
        }
        any_holds_of(rules, view, owners)
    }

    /// Puts a message, and has it written out.
    fn put<W: Wait>(&mut self, rt: &W, message: Item) -> Shown
        requires { (message.mark ≡ None) × (message.place ≡ None) }
        ensures { PutThere message result self.old self.new }
    {
        let put = self.mailbox.outbox().put(rt, &mut self.seat, message);
        self.mailbox.push_out(rt);
        match put {
            Ok(()) => Shown::Put,
            Err(_) => Shown::Refused,
        }
    }

    /// Puts a message, if the monitor wants it, and has it written out.
    pub(crate) fn show<W: Wait, O: Owners>(
        &mut self,
        rt: &W,
        alloc: Global,
        view: &View<'_>,
        bytes: &Bytes,
        owners: &O,
    ) -> Shown
        ensures { (m : Message) → Valid view.now m → ShownThere (O.answers owners.now) (O.unites owners.now) m bytes.now result self.old self.new }
    {
        if !self.wants(view, owners) {
            return Shown::Unwanted;
        }
        match item_of(alloc, bytes) {
            Ok(message) => self.put(rt, message),
            Err(_) => Shown::LeftOut,
        }
    }
}
