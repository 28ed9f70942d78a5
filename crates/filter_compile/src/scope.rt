// Paths and names that are compared by their elements.
ghost use Rattle.std.specs.Prelude.{◌≡◌, ◌<◌, ◌≤◌, ◌^◌, length, OnOk};
ghost use Rattle.filter.specs.Weights.{scope_weight};
ghost use Rattle.filter_compile.specs.Pieces.{end_or, bytes_before, in_namespace};
ghost use Rattle.filter_compile.specs.TestCode.{scope_words, has_scope, path_within, scope_relates, scope_code};

use crate::code::Code;
use crate::exits::Exits;
use bpf_code::{Test, Width};
use filter::{Equality, Scope};
use message_view::TextField;
use std::alloc::AllocError;
use summary::{argument_place, text_place};

/// The place of the words of the text that a scope is of.
fn scope_words(scope: Scope) -> u16
    ensures { result ≡ scope_words scope }
{
    match scope {
        Scope::PathNamespace => text_place(TextField::Path),
        Scope::ArgNamespace(n) | Scope::ArgPath(n) => argument_place(n.number()) + 4,
    }
}

impl Code {
    /// The text ends after `len` bytes, or a separator follows.
    fn end_or(&mut self, separator: u8, len: u32, at: u16, exits: Exits) -> Result<(), AllocError>
        ensures { OnOk result (self.new ≡ end_or separator len at exits self.old) }
    {
        self.indexed_test(Width::Byte, len, Test::Equal, u32::from(separator), exits)?;
        let other = self.fails_next(exits);
        self.has_len(Test::Equal, len, at, other)
    }

    /// The bytes of a value, if it has some, in front of the piece that comes first in the code.
    fn bytes_before(&mut self, value: &str, exits: Exits) -> Result<(), AllocError>
        requires { length value.now < 2 ^ 32 }
        ensures { OnOk result (self.new ≡ bytes_before value.now exits self.old) }
    {
        if value.is_empty() {
            return Ok(());
        }
        let next = self.holds_next(exits);
        self.same_bytes(0, value.as_bytes(), next)
    }

    /// The text is the value, or begins with it and a separator.
    fn in_namespace(
        &mut self,
        separator: u8,
        value: &str,
        at: u16,
        exits: Exits,
    ) -> Result<(), AllocError>
        requires { length value.now < 2 ^ 32 }
        ensures { OnOk result (self.new ≡ in_namespace separator value.now at exits self.old) }
    {
        let len = value.len() as u32;
        self.end_or(separator, len, at, exits)?;
        self.bytes_before(value, exits)?;
        self.index_start(at)?;
        let next = self.holds_next(exits);
        self.has_len(Test::AtLeast, len, at, next)
    }

    /// The path is in the namespace. In that of `/` is any path.
    fn path_within(&mut self, value: &str, at: u16, exits: Exits) -> Result<(), AllocError>
        requires { length value.now < 2 ^ 32 }
        ensures { OnOk result (self.new ≡ path_within value.now at exits self.old) }
    {
        if value == "/" {
            return self.has_len(Test::AtLeast, 0, at, exits);
        }
        self.in_namespace(b'/', value, at, exits)
    }

    /// The text is within the scope.
    fn scope_relates(
        &mut self,
        scope: Scope,
        value: &str,
        at: u16,
        exits: Exits,
    ) -> Result<(), AllocError>
        requires { length value.now < 2 ^ 32 }
        ensures { OnOk result (self.new ≡ scope_relates scope value.now at exits self.old) }
    {
        match scope {
            Scope::PathNamespace => self.path_within(value, at, exits),
            Scope::ArgNamespace(_) => self.in_namespace(b'.', value, at, exits),
            Scope::ArgPath(_) => self.is_nested(value, at, exits),
        }
    }

    /// The text of a scope is there, of a type that is compared.
    fn has_scope(&mut self, scope: Scope, exits: Exits) -> Result<(), AllocError>
        ensures { OnOk result (self.new ≡ has_scope scope exits self.old) }
    {
        match scope {
            Scope::PathNamespace => self.is_there(text_place(TextField::Path), exits),
            Scope::ArgNamespace(n) => self.has_type(n, b's', exits),
            Scope::ArgPath(n) => {
                self.has_type(n, b'o', exits)?;
                let other = self.fails_next(exits);
                self.has_type(n, b's', other)
            }
        }
    }

    /// The text of a scope is within it, or it is there and isn't.
    pub(crate) fn scope(
        &mut self,
        scope: Scope,
        equality: Equality,
        value: &str,
        exits: Exits,
    ) -> Result<(), AllocError>
        requires { scope_weight scope value.now ≤ 4096 }
        ensures { OnOk result (self.new ≡ scope_code scope equality value.now exits self.old) }
    {
        let chosen = exits.for_equality(equality);
        self.scope_relates(scope, value, scope_words(scope), chosen)?;
        let next = self.holds_next(exits);
        self.has_scope(scope, next)
    }
}
