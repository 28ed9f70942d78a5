// A builder, and what it was told so far.

use crate::body_state::BodyState;
use crate::error::BuildError;
use crate::header::Header;
use crate::message::build_message;
use message_view::Kind;
use std::alloc::Global;
use std::marker::Model;

/// What is asked of a message, field by field and argument by argument.
#[derive(Drop)]
pub struct Builder<'a> {
    pub(crate) header: Header<'a>,
    pub(crate) signature: Vec<u8>,
    pub(crate) body: Vec<u8>,
    pub(crate) body_state: BodyState,
}

impl<'a> Model for Builder<'a> {
    ghost use Rattle.message_build.specs.Asked.{Asked};
    ghost use Rattle.message_build.specs.Headers.{request_of};

    ghost Value = { Asked };

    ghost view = { λ b. request_of b.header b.signature.items b.body.items b.body_state };
}

impl<'a> Builder<'a> {
    ghost use Rattle.std.specs.Prelude.{◌≡◌, ℕ, List, [], Some, None};
    ghost use Rattle.message_build.specs.declared.body_state.BodyState.TheVariants.{Nothing};
    ghost use Rattle.message_build.specs.Asked.{Asked, nothing_asked};
    ghost use Rattle.message_build.specs.Building.{Finishes, listed_bytes};

    /// A builder of a message with no fields and no body. It takes no memory.
    pub fn new(alloc: Global, kind: Kind, flags: u8, serial: u32) -> Self
        ensures { result ≡ nothing_asked kind flags serial }
    {
        Builder {
            header: Header::new(kind, flags, serial),
            signature: Vec::new(alloc),
            body: Vec::new(alloc),
            body_state: BodyState::Nothing,
        }
    }

    /// Sets the object's path.
    pub fn path(&mut self, path: &'a str)
        ensures { self.new ≡ record self.old { path = Some path.entry.now } }
    {
        self.header.path = Some(path);
    }

    /// Sets the interface.
    pub fn interface(&mut self, interface: &'a str)
        ensures { self.new ≡ record self.old { interface = Some interface.entry.now } }
    {
        self.header.interface = Some(interface);
    }

    /// Sets the member.
    pub fn member(&mut self, member: &'a str)
        ensures { self.new ≡ record self.old { member = Some member.entry.now } }
    {
        self.header.member = Some(member);
    }

    /// Sets the error's name.
    pub fn error_name(&mut self, error_name: &'a str)
        ensures { self.new ≡ record self.old { error_name = Some error_name.entry.now } }
    {
        self.header.error_name = Some(error_name);
    }

    /// Sets the serial of the message that this one answers.
    pub fn reply_serial(&mut self, serial: u32)
        ensures { self.new ≡ record self.old { reply_serial = Some serial } }
    {
        self.header.reply_serial = Some(serial);
    }

    /// Sets the name that the message goes to.
    pub fn destination(&mut self, destination: &'a str)
        ensures { self.new ≡ record self.old { destination = Some destination.entry.now } }
    {
        self.header.destination = Some(destination);
    }

    /// Sets the name that the message comes from.
    pub fn sender(&mut self, sender: &'a str)
        ensures { self.new ≡ record self.old { sender = Some sender.entry.now } }
    {
        self.header.sender = Some(sender);
    }

    /// The bytes of the message that was asked for, in little-endian order.
    ///
    /// # Errors
    ///
    /// `Invalid` where no valid message is what was asked for, `TooLarge` where it would be above the
    /// limits, and `NoMemory`.
    pub fn finish(&self, alloc: Global) -> Result<Vec<u8>, BuildError>
        ensures { Finishes self.now (listed_bytes result) }
    {
        build_message(
            alloc,
            &self.header,
            &self.signature,
            &self.body,
            self.body_state,
        )
    }
}
