// Those who watch all that goes through the bus.

use crate::bus::Bus;
use bytes::Bytes;
use message_view::View;
use monitors::{Monitors, Owners};
use passes::{BusBrand, Control, Mailbox};
use std::alloc::Global;
use std::sync::Wait;

/// Who owns names, while the lock of the bus is held, as a message is shown. The number is that of its sender's connection.
#[derive(Drop)]
struct Holder<'a, B: BusBrand, M: Mailbox, R: Wait + Drop> {
    control: &'a Control<B, M, R>,
    sender: Option<u64>,
}

impl<'a, B: BusBrand, M: Mailbox, R: Wait + Drop> Owners for Holder<'a, B, M, R> {
    ghost answers = { λ s name owns. Unit {0} };

    ghost unites = { λ s name other same. Unit {0} };

    fn owns(&self, name: &str) -> bool {
        match self.sender {
            Some(number) => self.control.owner_of(name) == Some(number),
            None => false,
        }
    }

    fn have_one_owner(&self, name: &str, other: &str) -> bool {
        match self.control.owner_of(name) {
            Some(owner) => self.control.owner_of(other) == Some(owner),
            None => false,
        }
    }
}

/// The owners of names that nobody asks for.
struct Unasked;

impl Owners for Unasked {
    ghost use Rattle.std.specs.Prelude.{◌≡◌, false};

    ghost answers = { λ s name owns. owns ≡ false };

    ghost unites = { λ s name other same. same ≡ false };

    fn owns(&self, _name: &str) -> bool {
        false
    }

    fn have_one_owner(&self, _name: &str, _other: &str) -> bool {
        false
    }
}

/// Whether rules may ask who owns a name of this message: its sender is a connection, or it is to somebody.
fn names_owners(view: &View<'_>, sender: Option<u64>) -> bool {
    sender.is_some() || view.destination().is_some()
}

impl<B: BusBrand, M: Mailbox, R: Wait + Drop> Bus<B, M, R> {
    /// Those who watch all that goes through the bus.
    pub fn monitors(&self) -> &Monitors<M> {
        &self.monitors
    }

    /// Shows a message to those who watch and whose rules hold of it, before it goes on. The number is that of its
    /// sender's connection; `None` is the bus. The lock of the bus is taken, before that of those who watch, only if a rule
    /// asks who owns a name, and the message is from a connection or to somebody.
    #[inline(always)]
    pub fn show(&self, rt: &impl Wait, alloc: Global, number: Option<u64>, bytes: &Bytes) {
        if !self.monitors.is_empty() {
            self.show_to_monitors(rt, alloc, number, bytes);
        }
    }

    /// Shows a message, as `show` does, by who holds the lock of the bus.
    #[inline(always)]
    pub fn show_under(
        &self,
        rt: &impl Wait,
        alloc: Global,
        control: &Control<B, M, R>,
        number: Option<u64>,
        bytes: &Bytes,
    ) {
        if !self.monitors.is_empty() {
            self.show_by_holder(rt, alloc, control, number, bytes);
        }
    }

    // It is a function of its own, since a function clears room for its values whenever it is called, and few buses are watched.
    #[inline(never)]
    fn show_to_monitors(&self, rt: &impl Wait, alloc: Global, number: Option<u64>, bytes: &Bytes) {
        let Ok(view) = View::read(bytes.as_slice()) else {
            return;
        };
        if self.monitors.ask_for_owners() && names_owners(&view, number) {
            let control = self.control(rt);
            self.show_by_holder(rt, alloc, &control, number, bytes);
        } else {
            self.monitors.show(rt, alloc, &view, bytes, &Unasked);
        }
    }

    #[inline(never)]
    fn show_by_holder(
        &self,
        rt: &impl Wait,
        alloc: Global,
        control: &Control<B, M, R>,
        sender: Option<u64>,
        bytes: &Bytes,
    ) {
        let Ok(view) = View::read(bytes.as_slice()) else {
            return;
        };
        let owners = Holder { control, sender };
        self.monitors.show(rt, alloc, &view, bytes, &owners);
    }
}
