// The state of the bus.

use crate::capacity::Capacity;
use crate::command::{Command, Reply};
use crate::connection::Connection;
use crate::connections::Connections;
use crate::handle::Handle;
use crate::refusal::Refusal;
use crate::registration_table::RegistrationTable;
use entry_table::{Entry, IndexKey, Offers};
use match_rule::Rule;
use message_view::View;
use owners::{Queue, WellKnown};
use std::alloc::{AllocError, Global};
use std::marker::Model;
use summary::Slots;

/// The state of the bus, to which commands are applied one after the other. All its room is taken by `new`.
#[derive(Drop)]
pub struct BusState<M: Handle> {
    commands: u64,
    capacity: Capacity,
    connections: Connections<M>,
    registrations: RegistrationTable,
}

impl<M: Handle> Model for BusState<M> {
    ghost use Rattle.program_table.specs.State.{State};
    ghost use Rattle.program_table.specs.Counts.{AreCounts};
    ghost use Rattle.program_table.specs.OfConnections.{AreOfConnections};

    ghost Value = { State M };

    ghost view = { λ s. record { commands = s.commands; capacity = s.capacity; connections = s.connections.connections; last_connection = s.connections.last; registrations = s.registrations } };

    ghost invariant = { λ s. AreCounts s.commands s.connections × AreOfConnections s.connections.connections s.registrations };
}

impl<M: Handle> BusState<M> {
    ghost use Rattle.std.specs.Prelude.{◌≡◌, ◌<◌, ◌≤◌, ℕ, length, find, true, false, None, IfOk, IfErr, IfSome, MatchResult, MatchOption, option_map, option_copied, slice_get};
    ghost use Rattle.message_view.specs.Message.{Message};
    ghost use Rattle.message_view.specs.Valid.{Valid};
    ghost use Rattle.summary.specs.Sets.{has_slot, IsSet};
    ghost use Rattle.owners.specs.Queues.{owner_of, queue_of};
    ghost use Rattle.owners.specs.Registry.{max_names, next_name};
    ghost use Rattle.match_rule.specs.FixedTexts.{texts_from};
    ghost use Rattle.entry_table.specs.Entries.{is_rule_after};
    ghost use Rattle.entry_table.specs.OfferedEntries.{AreOffered};
    ghost use Rattle.program_table.specs.Connections.{max_connections, numbers_of, mailbox_of, commands_of, is_connected};
    ghost use Rattle.program_table.specs.SlotNames.{slot_next};
    ghost use Rattle.program_table.specs.State.{State, opening};
    ghost use Rattle.program_table.specs.Does.{Does, reply_to, max_commands, answer_of, is_accepted, is_sharing, row, connect_row, refuse_unconnected, with_registrations, effect};
    ghost use Rattle.program_table.specs.Recipients.{AreOwnedSlots};
    ghost use Rattle.program_table.specs.RuleSlots.{IsRuleSlot};
    ghost use Rattle.program_table.specs.SlotSearch.{rule_slot_of};
    ghost use Rattle.program_table.specs.IsState.{IsState};
    ghost use Rattle.rule_compile.specs.Compiled.{IsSlotOf};

    /// A state in which nobody is connected, of the standard capacity. The index of entries hashes texts with this key.
    pub fn new(alloc: Global, key: IndexKey) -> Result<BusState<M>, AllocError>
        ensures { IfOk result (λ state. state ≡ opening) }
    {
        Ok(BusState {
            commands: 0,
            capacity: Capacity::standard(),
            connections: Connections::new(alloc)?,
            registrations: RegistrationTable::new(alloc, key)?,
        })
    }

    /// What the command would be answered.
    pub fn answer(&self, command: &Command<M>) -> Reply
        ensures { result ≡ reply_to self.now command.now }
    {
        match self.decide(command) {
            Ok(reply) => reply,
            Err(refusal) => Reply::Refused(refusal),
        }
    }

    /// Does the command. Where a share of its mailbox, rule or program is refused for memory, the state is as it was.
    pub fn apply(&mut self, command: &Command<M>) -> Result<Reply, AllocError>
        ensures done { MatchResult result (λ reply. Does self.old command.now reply self.new) (λ _. self.new ≡ self.old) }
        // Only a command that shares something takes memory, and only where it is accepted.
        ensures memory { IfErr result (λ _. (is_accepted self.old command.now ≡ true) × (is_sharing command.now ≡ true)) }
    {
        match self.decide(command) {
            Ok(reply) => {
                self.perform(command)?;
                Ok(reply)
            }
            Err(refusal) => Ok(Reply::Refused(refusal)),
        }
    }

    /// The reply to a command that is accepted, or the first refusal. Once as many commands were accepted as can be
    /// counted, each one is refused.
    fn decide(&self, command: &Command<M>) -> Result<Reply, Refusal>
        ensures { result ≡ answer_of self.now command.now }
    {
        if self.commands == u64::MAX {
            return Err(Refusal::Closed);
        }
        self.row(command)
    }

    /// The row of a command, where one more can be counted.
    fn row(&self, command: &Command<M>) -> Result<Reply, Refusal>
        requires { self.now.commands < max_commands }
        ensures { result ≡ row self.now command.now }
    {
        match command {
            Command::Limit(_) => Ok(Reply::Done),
            Command::Connect(_) => self.connect_row(),
            Command::AddRule(connection, program) => {
                self.refuse_unconnected(*connection)?;
                self.registrations
                    .rule_within(&self.capacity, program.rule())?;
                self.registrations.add_rule_answer(program)
            }
            Command::RemoveRule(connection, rule) => {
                self.refuse_unconnected(*connection)?;
                self.registrations.remove_rule_answer(*connection, rule)
            }
            Command::Attach(connection, _) => {
                self.refuse_unconnected(*connection)?;
                self.registrations.entry_within(&self.capacity)?;
                self.registrations.attach_answer()
            }
            Command::Detach(connection, id) => {
                self.refuse_unconnected(*connection)?;
                self.registrations.detach_answer(*connection, *id)
            }
            Command::Request(connection, name, flags) => {
                self.refuse_unconnected(*connection)?;
                self.registrations
                    .claim_within(&self.capacity, name, *connection, *flags)?;
                self.registrations.request_answer(name, *connection, *flags)
            }
            Command::Release(connection, name) => {
                self.refuse_unconnected(*connection)?;
                Ok(self.registrations.release_answer(name, *connection))
            }
            Command::DropOne(connection) => {
                self.refuse_unconnected(*connection)?;
                Ok(self.registrations.drop_answer(*connection))
            }
            Command::Close(connection) => {
                self.refuse_unconnected(*connection)?;
                Ok(Reply::Done)
            }
        }
    }

    fn connect_row(&self) -> Result<Reply, Refusal>
        requires { self.now.commands < max_commands }
        ensures { result ≡ connect_row self.now }
    {
        if self.connections.is_full(self.capacity.connections) {
            Err(Refusal::ConnectionsFull)
        } else {
            Ok(Reply::Connected(self.connections.last() + 1))
        }
    }

    /// Whether the connection is there.
    fn refuse_unconnected(&self, connection: u64) -> Result<(), Refusal>
        ensures { result ≡ refuse_unconnected connection self.now }
    {
        if self.connections.contains(connection) {
            Ok(())
        } else {
            Err(Refusal::Closed)
        }
    }

    /// Does a command that is accepted. Where a share of its mailbox, rule or program is refused for memory, the state is as it was.
    pub fn perform(&mut self, command: &Command<M>) -> Result<(), AllocError>
        requires { is_accepted self.old command.now ≡ true }
        ensures done { MatchResult result (λ _. self.new ≡ effect self.old command.now) (λ _. self.new ≡ self.old) }
        ensures memory { IfErr result (λ _. is_sharing command.now ≡ true) }
    {
        match command {
            Command::Limit(most) => {
                self.capacity = *most;
                self.commands += 1;
                Ok(())
            }
            Command::Connect(mailbox) => {
                let mailbox = mailbox.share()?;
                self.connections.push(mailbox);
                self.commands += 1;
                Ok(())
            }
            Command::AddRule(connection, program) => {
                let program = program.share()?;
                self.registrations.add_rule(*connection, program);
                self.count(*connection);
                Ok(())
            }
            Command::RemoveRule(connection, rule) => {
                self.registrations.remove_rule(*connection, rule);
                self.count(*connection);
                Ok(())
            }
            Command::Attach(connection, attachment) => {
                let attachment = attachment.share()?;
                self.registrations.attach(*connection, attachment);
                self.count(*connection);
                Ok(())
            }
            Command::Detach(connection, id) => {
                self.registrations.remove_entry(*connection, *id);
                self.count(*connection);
                Ok(())
            }
            Command::Request(connection, name, flags) => {
                self.registrations.request(name, *connection, *flags);
                self.count(*connection);
                Ok(())
            }
            Command::Release(connection, name) => {
                self.registrations.release(name, *connection);
                self.count(*connection);
                Ok(())
            }
            Command::DropOne(connection) => {
                self.registrations.drop_one(*connection);
                self.count(*connection);
                Ok(())
            }
            Command::Close(connection) => {
                self.registrations.close(*connection);
                self.connections.remove(*connection);
                self.commands += 1;
                Ok(())
            }
        }
    }

    /// Counts one more command of a connection.
    fn count(&mut self, connection: u64)
        requires there { is_connected connection self.old.connections ≡ true }
        requires fits { self.old.commands < max_commands }
        ensures { self.new ≡ with_registrations connection self.old self.old.registrations }
    {
        self.connections.count_command(connection);
        self.commands += 1;
    }

    /// How many commands were accepted.
    pub fn commands(&self) -> u64
        ensures { result ≡ self.now.commands }
    {
        self.commands
    }

    /// How many commands of a connection were accepted, its Connect included; 0 where it isn't connected.
    pub fn commands_of(&self, connection: u64) -> u64
        ensures { result ≡ commands_of connection self.now.connections }
    {
        self.connections.commands_of(connection)
    }

    /// The connections by rising number.
    pub fn connections(&self) -> &[Connection<M>]
        ensures { result.now ≡ self.now.connections }
    {
        self.connections.as_slice()
    }

    /// How many connections there are, at most 4,096.
    pub fn connection_count(&self) -> usize
        ensures count { result ≡ length self.now.connections }
        ensures few { result ≤ max_connections }
    {
        let _ = self.connections.last();
        self.connections().len()
    }

    /// Where a connection stands in that list.
    pub fn place_of(&self, connection: u64) -> Option<usize>
        ensures { MatchOption result (is_connected connection self.now.connections ≡ false) (λ place. slice_get (numbers_of self.now.connections) place ≡ Some connection) }
    {
        self.connections.place_of(connection)
    }

    /// Where the messages for a connection go.
    pub fn mailbox_of(&self, connection: u64) -> Option<&M>
        ensures { option_copied result ≡ mailbox_of connection self.now.connections }
    {
        self.connections.mailbox_of(connection)
    }

    /// The primary owner of a name.
    pub fn owner_of(&self, name: &str) -> Option<u64>
        ensures { result ≡ owner_of name.now self.now.registrations.claims }
    {
        self.registrations.owner_of(name)
    }

    /// The least owned name after another in the order of bytes, or the least of all.
    pub fn next_name(&self, after: Option<&WellKnown>) -> Option<WellKnown>
        ensures { result ≡ next_name (option_map (λ name. name.now) after.entry) self.now.registrations.claims }
    {
        self.registrations.next_name(after)
    }

    /// The slot that a name has, or gets when it needs one; None where all are used.
    pub fn slot_next(&self, name: &str) -> Option<u16>
        ensures slot { result ≡ slot_next name.now self.now.registrations.slots }
        ensures small { IfSome result (λ slot. slot < max_names) }
    {
        self.registrations.slot_next(name)
    }

    /// The slot for which a rule of a connection is compiled, or what refuses the rule whatever its program is.
    pub fn rule_slot(&self, connection: u64, rule: &Rule) -> Result<Option<u16>, Refusal>
        ensures { IsRuleSlot self.now connection rule.now result }
    {
        self.find_rule_slot(connection, rule)
    }

    fn find_rule_slot(&self, connection: u64, rule: &Rule) -> Result<Option<u16>, Refusal>
        ensures answer { result ≡ rule_slot_of self.now connection rule.now }
        ensures fit { IfOk result (λ slot. IsSlotOf slot rule.now) }
    {
        if self.commands() == u64::MAX {
            return Err(Refusal::Closed);
        }
        self.refuse_unconnected(connection)?;
        self.registrations.rule_within(&self.capacity, rule)?;
        self.registrations.rule_slot(rule)
    }

    /// How many entries there are, of all connections.
    pub fn entry_count(&self) -> usize
        ensures { result ≡ length self.now.registrations.entries }
    {
        self.registrations.entry_count()
    }

    /// A connection's oldest entry with a rule whose id is above this one.
    pub fn next_rule(&self, connection: u64, after: u32) -> Option<&Entry>
        ensures { option_map (λ e. e.now) result ≡ find (is_rule_after connection after) self.now.registrations.entries }
    {
        self.registrations.next_rule(connection, after)
    }

    /// The connections that own a name or wait for it, in order, the primary owner first.
    pub fn queue_of(&self, name: &str) -> Queue<'_>
        ensures { result ≡ queue_of name.now self.now.registrations.claims }
    {
        self.registrations.queue_of(name)
    }

    /// The slots of the names whose primary owner is the sender. None is the bus.
    pub fn slots_of(&self, sender: Option<u64>) -> Slots
        ensures { AreOwnedSlots self.now.registrations sender result }
    {
        self.registrations.slots_of(sender)
    }

    /// The entries that a message is offered to, were this its sender: attached programs, and the rules whose conditions on
    /// the member, the interface, the path, the argument 0 and their namespaces, and on a sender by its own name, where there
    /// are such, hold of it.
    #[inline(always)]
    pub fn entries_for<'a>(&'a self, view: &View<'a>, sender: Option<&'a str>) -> Offers<'a>
        ensures offers { (m : Message) → Valid view.now m → AreOffered self.now.registrations.entries (texts_from (option_map (λ name. name.now) sender.entry) m) result }
        // Rules have the slots of their senders, no name has two slots, and entries are of connections.
        ensures state { IsState self.now }
    {
        let _ = self.connections.last();
        self.registrations.entries_for(view, sender)
    }
}
