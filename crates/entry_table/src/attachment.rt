// Attached programs.

use crate::lookup_texts::LookupTexts;
use bpf_verify::Verified;
use std::alloc::{AllocError, Global};
use std::marker::Model;
use std::sync::Arc;
use summary::Edition;

/// The messages that an attached program is for: those with these texts, and in these namespaces. It is offered no other.
#[derive(Debug, Drop)]
pub struct AskedTexts {
    pub member: Option<String>,
    pub interface: Option<String>,
    pub path: Option<String>,
    pub arg0: Option<String>,
    pub path_namespace: Option<String>,
    pub arg0_namespace: Option<String>,
}

impl Model for AskedTexts {
    ghost use Rattle.std.specs.Prelude.{None, option_map, string_bytes};
    ghost use Rattle.entry_table.specs.AttachedProgram as attached;

    ghost Value = { attached.AskedTexts };

    ghost view = { λ a. record { texts = record { member = option_map string_bytes a.member; interface = option_map string_bytes a.interface; path = option_map string_bytes a.path; sender = None; arg0 = option_map string_bytes a.arg0 }; namespaces = record { path = option_map string_bytes a.path_namespace; arg0 = option_map string_bytes a.arg0_namespace } } };
}

impl AskedTexts {
    ghost use Rattle.std.specs.Prelude.{◌≡◌};
    ghost use Rattle.entry_table.specs.AttachedProgram.{nothing_asked};

    /// Of a program that is for all messages.
    pub fn none() -> AskedTexts
        ensures { result ≡ nothing_asked }
    {
        AskedTexts {
            member: None,
            interface: None,
            path: None,
            arg0: None,
            path_namespace: None,
            arg0_namespace: None,
        }
    }
}

/// A program, and the messages that it is for.
#[derive(Drop)]
struct Parts {
    program: Verified,
    asked: AskedTexts,
}

/// A program that a connection attached, the edition of the images that it reads, and the messages that it is for. Shares
/// are of one value. Which texts it is looked up by is kept as that of a rule is.
#[derive(Drop)]
pub struct Attachment {
    edition: Edition,
    parts: Arc<Parts>,
    shape: u16,
}

impl Model for Attachment {
    ghost use Rattle.std.specs.Prelude.{◌≡◌};
    ghost use Rattle.entry_table.specs.AttachedProgram.{AttachedProgram};
    ghost use Rattle.entry_table.specs.RuleHints.{asked_texts};
    ghost use Rattle.entry_table.specs.TextKeys.{shape_of};

    ghost Value = { AttachedProgram };

    ghost view = { λ a. record { edition = a.edition; program = a.parts.value.program; asked = a.parts.value.asked } };

    ghost invariant = { λ a. a.shape ≡ shape_of (asked_texts a.parts.value.asked) };
}

impl Attachment {
    ghost use Rattle.std.specs.Prelude.{◌≡◌, IfOk};
    ghost use Rattle.entry_table.specs.AttachedProgram.{AttachedProgram};
    ghost use Rattle.entry_table.specs.RuleHints.{asked_texts};
    ghost use Rattle.entry_table.specs.TextKeys.{shape_of};

    /// A program for the images of an edition, of the messages with these texts.
    pub fn new(
        alloc: Global,
        edition: Edition,
        program: Verified,
        asked: AskedTexts,
    ) -> Result<Attachment, AllocError>
        ensures { IfOk result (λ attached. attached ≡ record { edition = edition; program = program; asked = asked }) }
    {
        let shape = LookupTexts::of_asked(&asked).shape();
        Ok(Attachment {
            edition,
            parts: Arc::new(alloc, Parts { program, asked })?,
            shape,
        })
    }

    /// The same program once more, without a copy.
    pub fn share(&self) -> Result<Attachment, AllocError>
        ensures { IfOk result (λ attached. attached ≡ self.now) }
    {
        Ok(Attachment {
            edition: self.edition,
            parts: Arc::try_clone(&self.parts)?,
            shape: self.shape,
        })
    }

    /// The edition of the images that the program reads.
    pub fn edition(&self) -> Edition
        ensures { result ≡ self.now.edition }
    {
        self.edition
    }

    /// The program.
    pub fn program(&self) -> &Verified
        ensures { result.now ≡ self.now.program }
    {
        &self.parts.program
    }

    /// The messages that the program is for.
    pub(crate) fn asked(&self) -> &AskedTexts
        ensures { result.now ≡ self.now.asked }
    {
        &self.parts.asked
    }

    /// Which texts the program is looked up by.
    pub(crate) fn shape(&self) -> u16
        ensures { result ≡ shape_of (asked_texts self.now.asked) }
    {
        self.shape
    }
}
