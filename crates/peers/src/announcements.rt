// What the bus announces of names.

ghost use Rattle.std.specs.Prelude.{◌≡◌, ◌∷◌, [], codes, None, Some, IfErr, IfOk, option_map};
ghost use Rattle.bus_messages.specs.Sent.{Builds};
ghost use Rattle.message_build.specs.Asked.{Asked};
ghost use Rattle.message_view.specs.Message.{Message};
ghost use Rattle.message_view.specs.Valid.{Valid};
ghost use Rattle.unique_name.specs.UniqueNames.{unique_name};
ghost use Rattle.peers.specs.Announcements.{Announces, AnnouncesArrival, TellsOwner, HasSignalled, HasTold, IsTold, change_asked, told_asked, owner_text};
ghost use Rattle.peers.specs.Broadcasts.{Broadcasts};
ghost use Rattle.peers.specs.Passing.{with_pass};
ghost use Rattle.peers.specs.PeerState.{name_of};

use crate::context::Context;
use crate::error::AnswerError;
use crate::peer::Peer;
use bus_messages::{BuildError, Bytes, UniqueName, name_acquired, name_lost, name_owner_changed};
use message_view::View;
use outbox::Counts;
use owners::Change;
use router::{BusBrand, Control, Mailbox, OpenGate, RouteLists, Source, Standing};
use std::sync::Wait;

impl<B: BusBrand, M: Mailbox> Peer<B, M> {
    /// Announces that a well-known name has another owner: NameLost to the old one, NameOwnerChanged to all whose rules
    /// hold of it, NameAcquired to the new one (D-Bus Specification, "Message Bus Messages"). A caller that holds what the
    /// pass puts has them given out as one.
    ///
    /// # Errors
    ///
    /// `NoMemory` if memory refused one of them, or the bus has ended. The others are sent all the same.
    pub(crate) fn announce<W: Wait, R: Wait + Drop>(
        &mut self,
        context: &Context<'_, B, M, W, R>,
        lists: &mut RouteLists,
        control: &mut Control<B, M, R>,
        change: &Change,
    ) -> Result<(), AnswerError>
        ensures announced { Announces M.outbox_of control.old.history change.now self.old result self.new }
        ensures error { IfErr result (λ error. error ≡ AnswerError.NoMemory) }
        ensures control { control.new ≡ control.old }
    {
        let at = Standing::Next;
        let name = change.name.as_str();
        let lost = self.tell_old_owner(context, control, at, change.old, name);
        let changed = self.tell_changed(context, lists, control, at, name, change.old, change.new);
        let acquired = self.tell_new_owner(context, control, at, change.new, name);
        lost.and(changed).and(acquired)
    }

    /// Announces the client's own unique name, after Hello.
    ///
    /// # Errors
    ///
    /// As those of `announce`.
    pub(crate) fn announce_arrival<W: Wait, R: Wait + Drop>(
        &mut self,
        context: &Context<'_, B, M, W, R>,
        lists: &mut RouteLists,
        control: &mut Control<B, M, R>,
    ) -> Result<(), AnswerError>
        ensures announced { AnnouncesArrival M.outbox_of control.old.history self.old result self.new }
        ensures error { IfErr result (λ error. error ≡ AnswerError.NoMemory) }
        ensures control { control.new ≡ control.old }
    {
        let at = Standing::Last;
        let number = self.pass.connection();
        let name = UniqueName::new(number);
        let changed = self.tell_changed(
            context,
            lists,
            control,
            at,
            name.as_str(),
            None,
            Some(number),
        );
        let acquired = self.tell_new_owner(context, control, at, Some(number), name.as_str());
        changed.and(acquired)
    }

    /// Announces that the client's own unique name is gone, after its pass was closed.
    ///
    /// # Errors
    ///
    /// As those of `announce`.
    pub(crate) fn announce_departure<W: Wait, R: Wait + Drop>(
        &mut self,
        context: &Context<'_, B, M, W, R>,
        lists: &mut RouteLists,
        control: &mut Control<B, M, R>,
    ) -> Result<(), AnswerError>
        ensures announced { HasSignalled Standing.Last M.outbox_of control.old.history (change_asked self.old.serial (name_of self.old) (Some self.old.pass.connection) None) self.old result self.new }
        ensures control { control.new ≡ control.old }
    {
        let at = Standing::Last;
        let number = self.pass.connection();
        let name = UniqueName::new(number);
        self.tell_changed(
            context,
            lists,
            control,
            at,
            name.as_str(),
            Some(number),
            None,
        )
    }

    fn tell_old_owner<W: Wait, R: Wait + Drop>(
        &mut self,
        context: &Context<'_, B, M, W, R>,
        control: &mut Control<B, M, R>,
        at: Standing,
        owner: Option<u64>,
        name: &str,
    ) -> Result<(), AnswerError>
        ensures told { TellsOwner at M.outbox_of control.old.history (codes "NameLost") name.now owner self.old result self.new }
        ensures control { control.new ≡ control.old }
    {
        match owner {
            Some(old) => self.tell_lost(context, control, at, old, name),
            None => Ok(()),
        }
    }

    fn tell_new_owner<W: Wait, R: Wait + Drop>(
        &mut self,
        context: &Context<'_, B, M, W, R>,
        control: &mut Control<B, M, R>,
        at: Standing,
        owner: Option<u64>,
        name: &str,
    ) -> Result<(), AnswerError>
        ensures told { TellsOwner at M.outbox_of control.old.history (codes "NameAcquired") name.now owner self.old result self.new }
        ensures control { control.new ≡ control.old }
    {
        match owner {
            Some(new) => self.tell_acquired(context, control, at, new, name),
            None => Ok(()),
        }
    }

    /// Tells one connection that it has lost a name.
    ///
    /// # Errors
    ///
    /// As those of `announce`.
    pub(crate) fn tell_lost<W: Wait, R: Wait + Drop>(
        &mut self,
        context: &Context<'_, B, M, W, R>,
        control: &mut Control<B, M, R>,
        at: Standing,
        old: u64,
        name: &str,
    ) -> Result<(), AnswerError>
        ensures control { control.new ≡ control.old }
        ensures told { HasTold at M.outbox_of control.old.history (told_asked self.old.serial (codes "NameLost") name.now old) (unique_name old) self.old result self.new }
    {
        let to = UniqueName::new(old);
        let serial = self.serials.take();
        let built_message = name_lost(context.alloc, serial, to.as_str(), name);
        self.tell_named(context, control, at, &to, built_message)
    }

    fn tell_acquired<W: Wait, R: Wait + Drop>(
        &mut self,
        context: &Context<'_, B, M, W, R>,
        control: &mut Control<B, M, R>,
        at: Standing,
        new: u64,
        name: &str,
    ) -> Result<(), AnswerError>
        ensures control { control.new ≡ control.old }
        ensures told { HasTold at M.outbox_of control.old.history (told_asked self.old.serial (codes "NameAcquired") name.now new) (unique_name new) self.old result self.new }
    {
        let to = UniqueName::new(new);
        let serial = self.serials.take();
        let built_message = name_acquired(context.alloc, serial, to.as_str(), name);
        self.tell_named(context, control, at, &to, built_message)
    }

    /// Sends a message of the bus to one connection, which may be gone by now.
    ///
    /// # Errors
    ///
    /// As those of `announce`.
    pub(crate) fn tell<W: Wait, R: Wait + Drop>(
        &mut self,
        context: &Context<'_, B, M, W, R>,
        to: &UniqueName,
        built_message: Result<Bytes, BuildError>,
    ) -> Result<(), AnswerError>
        ensures pass { (asked : Asked) → Builds asked built_message → IsTold Standing.Apart M.outbox_of asked (unique_name to.now) self.old.pass result self.new.pass }
        ensures same { self.new ≡ with_pass self.old self.new.pass }
    {
        let Ok(bytes) = built_message else {
            return Err(AnswerError::NoMemory);
        };
        context.show(None, &bytes);
        match self.pass.send_to(context.rt, context.alloc, Source::Bus, to.as_str(), &bytes) {
            Ok(_) => Ok(()),
            Err(_) => Err(AnswerError::NoMemory),
        }
    }

    // Sends a message of the bus about names to one connection, at its place in the history.
    fn tell_named<W: Wait, R: Wait + Drop>(
        &mut self,
        context: &Context<'_, B, M, W, R>,
        control: &mut Control<B, M, R>,
        at: Standing,
        to: &UniqueName,
        built_message: Result<Bytes, BuildError>,
    ) -> Result<(), AnswerError>
        ensures pass { (asked : Asked) → Builds asked built_message → IsTold at M.outbox_of asked (unique_name to.now) self.old.pass result self.new.pass }
        ensures seen { IfOk result (λ _. self.new.pass.seen ≡ control.old.history) }
        ensures same { self.new ≡ with_pass self.old self.new.pass }
        ensures control { control.new ≡ control.old }
    {
        let Ok(bytes) = built_message else {
            return Err(AnswerError::NoMemory);
        };
        context
            .bus
            .show_under(context.rt, context.alloc, control, None, &bytes);
        let sent = control.send_to(
            context.rt,
            context.alloc,
            &mut self.pass,
            at,
            Source::Bus,
            to.as_str(),
            &bytes,
        );
        match sent {
            Ok(_) => Ok(()),
            Err(_) => Err(AnswerError::NoMemory),
        }
    }

    fn tell_changed<W: Wait, R: Wait + Drop>(
        &mut self,
        context: &Context<'_, B, M, W, R>,
        lists: &mut RouteLists,
        control: &mut Control<B, M, R>,
        at: Standing,
        name: &str,
        old: Option<u64>,
        new: Option<u64>,
    ) -> Result<(), AnswerError>
        ensures control { control.new ≡ control.old }
        ensures signalled { HasSignalled at M.outbox_of control.old.history (change_asked self.old.serial name.now old new) self.old result self.new }
    {
        let serial = self.serials.take();
        let old = unique_name_of(old);
        let new = unique_name_of(new);
        let built_message = name_owner_changed(
            context.alloc,
            serial,
            name,
            text_of(&old),
            text_of(&new),
        );
        let Ok(bytes) = built_message else {
            return Err(AnswerError::NoMemory);
        };
        self.signal(context, lists, control, at, &bytes)
    }

    // Puts a broadcast of the bus about names to its recipients, at its place in the history.
    fn signal<W: Wait, R: Wait + Drop>(
        &mut self,
        context: &Context<'_, B, M, W, R>,
        lists: &mut RouteLists,
        control: &mut Control<B, M, R>,
        at: Standing,
        bytes: &Bytes,
    ) -> Result<(), AnswerError>
        requires { (m : Message) × Valid bytes.now m }
        ensures error { IfErr result (λ error. error ≡ AnswerError.NoMemory) }
        ensures routed { Broadcasts at M.outbox_of Source.Bus bytes.now self.old.pass result lists.new.recipients.items lists.new.refused.items self.new.pass }
        ensures seen { IfOk result (λ _. self.new.pass.seen ≡ control.old.history) }
        ensures same { self.new ≡ with_pass self.old self.new.pass }
        ensures control { control.new ≡ control.old }
    {
        let view = View::of_message(bytes.as_slice());
        context
            .bus
            .show_under(context.rt, context.alloc, control, None, bytes);
        let routed = control.broadcast(
            context.rt,
            context.alloc,
            &mut self.pass,
            at,
            Source::Bus,
            &view,
            bytes,
            lists,
        );
        match routed {
            Ok(()) => Ok(()),
            Err(_) => Err(AnswerError::NoMemory),
        }
    }

    /// Routes a broadcast of the client. The lists are then of this broadcast: its recipients, and those whose outbox refused it.
    ///
    /// # Errors
    ///
    /// `NoMemory` if memory was refused or the bus has ended.
    pub(crate) fn broadcast<W: Wait, R: Wait + Drop>(
        &mut self,
        context: &Context<'_, B, M, W, R>,
        view: &View<'_>,
        bytes: &Bytes,
        lists: &mut RouteLists,
    ) -> Result<(), AnswerError>
        // The view is that of the bytes.
        requires { view.now ≡ bytes.now }
        ensures error { IfErr result (λ error. error ≡ AnswerError.NoMemory) }
        ensures routed { Broadcasts Standing.Apart M.outbox_of Source.Own bytes.now self.old.pass result lists.new.recipients.items lists.new.refused.items self.new.pass }
        ensures same { self.new ≡ with_pass self.old self.new.pass }
    {
        let number = Some(self.pass.connection());
        context.show(number, bytes);
        let routed = self.pass.broadcast(
            context.rt,
            context.alloc,
            Source::Own,
            view,
            bytes,
            &OpenGate,
            lists,
        );
        match routed {
            Ok(()) => {
                self.note_broadcast(lists);
                Ok(())
            }
            Err(_) => Err(AnswerError::NoMemory),
        }
    }

    // Counts a broadcast, and notes whether it was for anybody.
    fn note_broadcast(&mut self, lists: &RouteLists)
        ensures { self.new ≡ self.old }
    {
        self.was_heard = !lists.recipients.is_empty();
        let cost = lists.cost();
        self.own.tally().add(Counts {
            broadcasts: 1,
            recipients: lists.recipients.len() as u64,
            refused: lists.refused.len() as u64,
            programs: u64::from(cost.runs),
            steps: cost.steps,
            unicasts: 0,
        });
    }
}

fn unique_name_of(owner: Option<u64>) -> Option<UniqueName>
    ensures { result ≡ owner }
{
    match owner {
        Some(number) => Some(UniqueName::new(number)),
        None => None,
    }
}

/// An owner's name, empty for none.
fn text_of(owner: &Option<UniqueName>) -> &str
    ensures { result.now ≡ owner_text owner.now }
{
    match owner {
        Some(name) => name.as_str(),
        None => "",
    }
}
