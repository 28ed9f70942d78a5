// What the calls of sessions work with.

use sessions::{Bus, BusBrand, PlainMailbox};
use std::alloc::Global;
use std::sync::Wait;

/// The bus's GUID.
pub(crate) const GUID: [u8; 32] = *b"0123456789abcdef0123456789abcdef";

/// The bus, with the runtime and the allocator.
#[derive(Drop)]
pub(crate) struct Place<'a, 'r, B: BusBrand, R: Wait> {
    pub(crate) rt: &'r R,
    pub(crate) alloc: Global,
    pub(crate) bus: &'a Bus<B, PlainMailbox, &'r R>,
}
