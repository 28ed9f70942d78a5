// The calls that publish a command of a pass's connection.

ghost use Rattle.std.specs.Prelude.{◌≡◌, true, false, IfErr};
ghost use Rattle.program_table.specs.declared.command.Command.TheVariants.{Detach, Request, Release, DropOne, Close};
ghost use Rattle.passes.specs.Calls.{Answers};

use crate::control::{Control, publish};
use crate::error::BusError;
use crate::pass::Pass;
use owners::WellKnown;
use program_table::{Command, Reply};
use published::BusBrand;
use routing::Mailbox;
use std::sync::Wait;

impl<B: BusBrand, M: Mailbox, R: Wait + Drop> Control<B, M, R> {
    /// Asks for a name (RequestName).
    pub fn request_name(
        &mut self,
        pass: &mut Pass<B, M>,
        name: &WellKnown,
        flags: u32,
    ) -> Result<Reply, BusError>
        ensures { Answers false pass.old self.old (Request pass.old.connection name.now flags) result pass.new self.new }
    {
        let connection = pass.connection();
        self.command(pass, Command::Request(connection, name.copy(), flags))
    }

    /// Gives up a claim on a name (ReleaseName).
    pub fn release_name(
        &mut self,
        pass: &mut Pass<B, M>,
        name: &WellKnown,
    ) -> Result<Reply, BusError>
        ensures { Answers false pass.old self.old (Release pass.old.connection name.now) result pass.new self.new }
    {
        let connection = pass.connection();
        self.command(pass, Command::Release(connection, name.copy()))
    }

    /// Takes away the attached program of this id.
    pub fn detach(&mut self, pass: &mut Pass<B, M>, id: u32) -> Result<Reply, BusError>
        ensures { Answers false pass.old self.old (Detach pass.old.connection id) result pass.new self.new }
    {
        let connection = pass.connection();
        self.command(pass, Command::Detach(connection, id))
    }

    /// Gives up the claim on the least of the connection's names in byte order.
    pub fn drop_name(&mut self, pass: &mut Pass<B, M>) -> Result<Reply, BusError>
        ensures { Answers false pass.old self.old (DropOne pass.old.connection) result pass.new self.new }
    {
        let connection = pass.connection();
        self.command(pass, Command::DropOne(connection))
    }

    /// Closes the pass's connection, with its entries and claims, and gives up the turn of its outbox. A pass that couldn't close it
    /// is shut out.
    pub fn close(&mut self, pass: &mut Pass<B, M>) -> Result<Reply, BusError>
        ensures answer { Answers true pass.old self.old (Close pass.old.connection) result pass.new self.new }
        ensures shut { IfErr result (λ _. pass.new.is_shut_out ≡ true) }
    {
        self.admit(pass)?;
        let connection = pass.connection();
        let command = Command::Close(connection);
        let reply = publish(&mut self.publisher.value, pass, command)?;
        pass.close();
        self.turns.remove(connection);
        Ok(reply)
    }
}
