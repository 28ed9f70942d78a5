// The arguments of a builder.

ghost use Rattle.std.specs.Prelude.{◌≡◌, ◌++◌, ◌∷◌, [], length, take, Ok};
ghost use Rattle.signature.specs.DataType.{basic};
ghost use Rattle.message_value.specs.Value.{text, number};
ghost use Rattle.message_build.specs.Growing.{Completes};

use crate::appending::{push_number, push_string};
use crate::body_state::BodyState;
use crate::builder::Builder;
use crate::error::BuildError;
use crate::strings::push_strings;
use message_value::Order;
use std::alloc::AllocError;

/// How many bytes of room a body begins with whose first value is a text: most have a few short ones.
const TEXT_ROOM: usize = 96;

/// Appends `more` to `list` after `grown` has grown. Where either is refused, `grown` is cut back to `len`.
pub(crate) fn complete(
    pushed: Result<(), AllocError>,
    grown: &mut Vec<u8>,
    len: usize,
    list: &mut Vec<u8>,
    more: &[u8],
) -> Result<(), AllocError>
    ensures { Completes pushed result grown.old.items grown.new.items len list.old.items list.new.items more.now }
{
    let completed = match pushed {
        Ok(()) => list.extend_from_slice(more),
        Err(refused) => Err(refused),
    };
    if completed.is_err() {
        grown.truncate(len);
    }
    completed
}

/// Makes room in a body that is to begin with a text, so that most take memory once. Without that room they grow step by step.
fn reserve_for_texts(body: &mut Vec<u8>)
    ensures { body.new.items ≡ body.old.items }
{
    if body.is_empty() {
        let _ = body.reserve(TEXT_ROOM);
    }
}

impl<'a> Builder<'a> {
    ghost use Rattle.std.specs.Prelude.{◌≡◌, if◌then◌else◌};
    ghost use Rattle.signature.specs.DataType.{basic, array};
    ghost use Rattle.message_value.specs.Value.{text, number, elements};
    ghost use Rattle.message_build.specs.Adding.{Adds, with_argument, with_raw, string_values};

    /// Adds a string.
    ///
    /// # Errors
    ///
    /// `NoMemory`, and then nothing is added.
    pub fn arg_str(&mut self, string: &str) -> Result<(), BuildError>
        ensures { Adds result self.old self.new (with_argument self.old (basic 115) (text string.now)) }
    {
        if !self.body_state.takes_arguments() {
            self.body_state = BodyState::Spoiled;
            return Ok(());
        }
        reserve_for_texts(&mut self.body);
        let len = self.body.len();
        let pushed = push_string(&mut self.body, Order::Little, string.as_bytes());
        complete(pushed, &mut self.body, len, &mut self.signature, b"s")?;
        self.body_state = BodyState::Arguments;
        Ok(())
    }

    /// Adds a number.
    ///
    /// # Errors
    ///
    /// `NoMemory`, and then nothing is added.
    pub fn arg_u32(&mut self, n: u32) -> Result<(), BuildError>
        ensures { Adds result self.old self.new (with_argument self.old (basic 117) (number n)) }
    {
        if !self.body_state.takes_arguments() {
            self.body_state = BodyState::Spoiled;
            return Ok(());
        }
        let len = self.body.len();
        let pushed = push_number(&mut self.body, n);
        complete(pushed, &mut self.body, len, &mut self.signature, b"u")?;
        self.body_state = BodyState::Arguments;
        Ok(())
    }

    /// Adds a boolean.
    ///
    /// # Errors
    ///
    /// `NoMemory`, and then nothing is added.
    pub fn arg_bool(&mut self, b: bool) -> Result<(), BuildError>
        ensures { Adds result self.old self.new (with_argument self.old (basic 98) (number (if b then 1 else 0))) }
    {
        if !self.body_state.takes_arguments() {
            self.body_state = BodyState::Spoiled;
            return Ok(());
        }
        let len = self.body.len();
        let bits = if b { 1 } else { 0 };
        let pushed = push_number(&mut self.body, bits);
        complete(pushed, &mut self.body, len, &mut self.signature, b"b")?;
        self.body_state = BodyState::Arguments;
        Ok(())
    }

    /// Adds an array of strings.
    ///
    /// # Errors
    ///
    /// `NoMemory`, and then nothing is added.
    pub fn arg_strs(&mut self, strings: &[&str]) -> Result<(), BuildError>
        ensures { Adds result self.old self.new (with_argument self.old (array (basic 115)) (elements (string_values strings.now))) }
    {
        if !self.body_state.takes_arguments() {
            self.body_state = BodyState::Spoiled;
            return Ok(());
        }
        let len = self.body.len();
        let pushed = push_strings(&mut self.body, strings);
        complete(pushed, &mut self.body, len, &mut self.signature, b"as")?;
        self.body_state = BodyState::Arguments;
        Ok(())
    }

    /// Gives the whole body: its signature and its bytes.
    ///
    /// # Errors
    ///
    /// `NoMemory`, and then nothing is given.
    pub fn raw_body(&mut self, signature: &[u8], bytes: &[u8]) -> Result<(), BuildError>
        ensures { Adds result self.old self.new (with_raw self.old signature.now bytes.now) }
    {
        if !self.body_state.is_nothing() {
            self.body_state = BodyState::Spoiled;
            return Ok(());
        }
        let len = self.body.len();
        let pushed = self.body.extend_from_slice(bytes);
        complete(pushed, &mut self.body, len, &mut self.signature, signature)?;
        self.body_state = BodyState::Raw;
        Ok(())
    }
}
