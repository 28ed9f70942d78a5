// The calls of a pass that may change who owns a name.

ghost use Rattle.std.specs.Prelude.{◌≡◌, false};
ghost use Rattle.passes.specs.Calls.{Answers};
ghost use Rattle.passes.specs.NameCalls.{Foresees, change_in, command_of};

use crate::control::Control;
use crate::error::BusError;
use crate::pass::Pass;
use owners::{Change, WellKnown};
use program_table::{Command, Reply};
use published::BusBrand;
use routing::Mailbox;
use std::sync::Wait;

/// A call that may change who owns a name.
#[derive(Drop)]
pub enum NameCall {
    /// Asks for a name, with these flags (RequestName).
    Request(WellKnown, u32),
    /// Gives up a claim on a name (ReleaseName).
    Release(WellKnown),
    /// Gives up the claim on the least of the connection's names in byte order.
    DropOne,
}

impl NameCall {
    /// The command of the connection that the call publishes.
    fn command<M>(&self, connection: u64) -> Command<M>
        ensures { result ≡ command_of connection self.now }
    {
        match self {
            NameCall::Request(name, flags) => Command::Request(connection, name.copy(), *flags),
            NameCall::Release(name) => Command::Release(connection, name.copy()),
            NameCall::DropOne => Command::DropOne(connection),
        }
    }
}

/// The change of a name's owner that a reply tells of, if any.
fn change_in(reply: Reply) -> Option<Change>
    ensures { result ≡ change_in reply }
{
    match reply {
        Reply::Name(named) => named.change,
        Reply::Changed(change) => Some(change),
        _ => None,
    }
}

impl<B: BusBrand, M: Mailbox, R: Wait + Drop> Control<B, M, R> {
    /// The change of a name's owner that a call of the pass would make now, if any. The pass has then seen what is published.
    ///
    /// # Errors
    ///
    /// `Closed` if the pass may not call.
    pub fn foresee(
        &self,
        pass: &mut Pass<B, M>,
        call: &NameCall,
    ) -> Result<Option<Change>, BusError>
        ensures { Foresees pass.old self.now (command_of pass.old.connection call.now) result pass.new }
    {
        let command = call.command(pass.connection());
        self.admit(pass)?;
        Ok(change_in(self.state().answer(&command)))
    }

    /// Publishes the call's command.
    pub fn change_name(&mut self, pass: &mut Pass<B, M>, call: &NameCall) -> Result<Reply, BusError>
        ensures { Answers false pass.old self.old (command_of pass.old.connection call.now) result pass.new self.new }
    {
        match call {
            NameCall::Request(name, flags) => self.request_name(pass, name, *flags),
            NameCall::Release(name) => self.release_name(pass, name),
            NameCall::DropOne => self.drop_name(pass),
        }
    }
}
