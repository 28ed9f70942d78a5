// What a pass reads in the published state, without the lock of the bus.

ghost use Rattle.std.specs.Prelude.{◌≡◌, ℕ, Some, [], MatchOption, MatchResult};
ghost use mathlib.Core.List.{IsPrefix};
ghost use Rattle.message_view.specs.Message.{Message};
ghost use Rattle.message_view.specs.Valid.{Valid};
ghost use Rattle.match_rule.specs.FixedTexts.{texts_from};
ghost use Rattle.program_table.specs.History.{after};
ghost use Rattle.program_table.specs.Recipients.{AreRecipients};
ghost use Rattle.fan_out.specs.Reach.{TellsReach};
ghost use Rattle.passes.specs.NameOwners.{IsOwner};
ghost use Rattle.passes.specs.Passes.{PassState, sender_of};

use crate::error::BusError;
use crate::names::owner_in;
use crate::pass::Pass;
use crate::route_lists::RouteLists;
use arrayvec::ArrayVec;
use fan_out::{MAX_RECIPIENTS, may_reach, select, select_into};
use message_view::View;
use published::BusBrand;
use routing::Mailbox;

/// Whose message a pass asks for.
#[derive(Clone, Copy, Debug, PartialEq, Eq)]
pub enum Source {
    /// The pass's connection.
    Own,
    /// The bus.
    Bus,
}

impl Source {
    // The sender's number. None is the bus.
    pub(crate) fn sender(self, connection: u64) -> Option<u64>
        ensures { result ≡ sender_of self connection }
    {
        match self {
            Source::Own => Some(connection),
            Source::Bus => None,
        }
    }
}

impl<B: BusBrand, M: Mailbox> Pass<B, M> {
    /// The recipients of a broadcast, by rising number, after a history that begins with what was seen, and is seen
    /// then.
    ///
    /// # Errors
    ///
    /// `Closed` where the pass was never connected, or was closed and the message isn't the bus's, or the bus is gone.
    pub fn recipients(
        &mut self,
        source: Source,
        view: &View<'_>,
    ) -> Result<ArrayVec<u64, MAX_RECIPIENTS>, BusError>
        ensures found { MatchResult result
            (λ found. IsPrefix self.old.seen self.new.seen × ((m : Message) → Valid view.now m → AreRecipients (after self.new.seen) (sender_of source self.old.connection) m found.items))
            (λ error. (error ≡ BusError.Closed) × (self.new.seen ≡ self.old.seen)) }
        ensures same { self.new ≡ record self.old { seen = self.new.seen } }
    {
        let guard = self.enter(source)?;
        let sender = source.sender(self.connection());
        let recipients = select(guard.state(), sender, view);
        self.leave(guard);
        Ok(recipients)
    }

    /// Lists the recipients of a broadcast as `recipients` gives them, in lists of the caller's, so that none has to be made or
    /// moved. No outbox is asked, so that none has refused it.
    ///
    /// # Errors
    ///
    /// As those of `recipients`.
    pub fn recipients_into(
        &mut self,
        source: Source,
        view: &View<'_>,
        lists: &mut RouteLists,
    ) -> Result<(), BusError>
        ensures found { MatchResult result
            (λ _. IsPrefix self.old.seen self.new.seen × ((m : Message) → Valid view.now m → AreRecipients (after self.new.seen) (sender_of source self.old.connection) m lists.new.recipients.items))
            (λ error. (error ≡ BusError.Closed) × (self.new.seen ≡ self.old.seen)) }
        ensures refused { lists.new.refused.items ≡ [] }
        ensures same { self.new ≡ record self.old { seen = self.new.seen } }
    {
        lists.clear();
        let guard = self.enter(source)?;
        let from = source.sender(self.connection());
        select_into(
            guard.state(),
            from,
            view,
            &mut lists.marks,
            &mut lists.recipients,
        );
        self.leave(guard);
        Ok(())
    }

    /// Whether a broadcast with the member, the interface, the path and the argument 0 of this message, and with this SENDER,
    /// may reach anybody, after a history that begins with what was seen, and is seen then. If not, nobody gets one. It costs
    /// less than to stamp a message with its sender.
    ///
    /// # Errors
    ///
    /// `Closed` where the pass was never connected, or was closed, or the bus is gone.
    pub fn may_reach(&mut self, view: &View<'_>, sender: &str) -> Result<bool, BusError>
        ensures found { MatchResult result
            (λ found. IsPrefix self.old.seen self.new.seen × ((m : Message) → Valid view.now m → TellsReach (after self.new.seen) (texts_from (Some sender.now) m) found))
            (λ error. (error ≡ BusError.Closed) × (self.new.seen ≡ self.old.seen)) }
        ensures same { self.new ≡ record self.old { seen = self.new.seen } }
    {
        let guard = self.enter(Source::Own)?;
        let found = may_reach(guard.state(), view, sender);
        self.leave(guard);
        Ok(found)
    }

    /// The connection that owns a name, which is unique or well-known, after a history that begins with what was seen, and is seen
    /// then.
    ///
    /// # Errors
    ///
    /// `Closed` where the pass was never connected, or was closed, or the bus is gone.
    pub fn owner_of(&mut self, name: &str) -> Result<Option<u64>, BusError>
        ensures found { MatchResult result
            (λ found. IsPrefix self.old.seen self.new.seen × MatchOption found ((n : ℕ) → IsOwner (after self.new.seen) name.now n → ⊥) (λ n. IsOwner (after self.new.seen) name.now n))
            (λ error. (error ≡ BusError.Closed) × (self.new.seen ≡ self.old.seen)) }
        ensures same { self.new ≡ record self.old { seen = self.new.seen } }
    {
        let guard = self.enter(Source::Own)?;
        let found = owner_in(guard.state(), name);
        self.leave(guard);
        Ok(found)
    }
}
