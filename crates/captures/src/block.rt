// Blocks of a pcapng file.

ghost use Rattle.std.specs.Prelude.{◌≡◌, ◌+◌, ◌≤◌, IfOk, length};
ghost use Rattle.captures.specs.Blocks.{kind_of, order_of, is_block_len, block_at, framing_at, body_of};
ghost use Rattle.captures.specs.BlockLengths.{IsFramed};

use crate::error::CaptureError;
use crate::order::Order;

/// The type of a Section Header Block, the same in either byte order.
pub(crate) const SECTION: u32 = 0x0a0d_0d0a;

pub(crate) const INTERFACE: u32 = 1;

pub(crate) const OBSOLETE: u32 = 2;

pub(crate) const SIMPLE: u32 = 3;

pub(crate) const ENHANCED: u32 = 6;

/// The byte-order magic, as its highest byte first and its lowest byte first spell it.
pub(crate) const BIG_MAGIC: u32 = 0x1a2b_3c4d;

pub(crate) const LITTLE_MAGIC: u32 = 0x4d3c_2b1a;

/// The bytes of a block before its body: its type and its length.
pub(crate) const BLOCK_HEADER_LEN: usize = 8;

/// The bytes with which a section's byte order is known.
pub(crate) const MAGIC_END: usize = 12;

/// The bytes after a block's body: its length again.
pub(crate) const TRAILER_LEN: usize = 4;

pub(crate) const MIN_BLOCK_LEN: u32 = 12;

/// The longest block that is read: room for the longest message twice.
pub const MAX_BLOCK_LEN: u32 = 268_435_456;

/// What a block is, by its type.
#[derive(Clone, Copy, Debug, PartialEq, Eq)]
pub enum BlockKind {
    Section,
    Interface,
    Obsolete,
    Simple,
    Enhanced,
    Unknown,
}

/// A block: what it is, the byte order of its numbers, and how many bytes it takes.
#[derive(Clone, Copy, Debug, PartialEq, Eq)]
pub struct Block {
    pub kind: BlockKind,
    pub order: Order,
    pub len: usize,
}

/// The block that bytes begin with, or how many of them are needed first.
#[derive(Clone, Copy, Debug, PartialEq, Eq)]
pub enum Framing {
    Wants(usize),
    Whole(Block),
}

impl BlockKind {
    /// What a block of this type is.
    fn of(number: u32) -> BlockKind
        ensures { result ≡ kind_of number }
    {
        match number {
            SECTION => BlockKind::Section,
            INTERFACE => BlockKind::Interface,
            OBSOLETE => BlockKind::Obsolete,
            SIMPLE => BlockKind::Simple,
            ENHANCED => BlockKind::Enhanced,
            _ => BlockKind::Unknown,
        }
    }
}

impl Block {
    /// What stands between the block's two lengths.
    pub(crate) fn body<'a>(&self, bytes: &'a [u8]) -> &'a [u8]
        requires long_enough { MIN_BLOCK_LEN ≤ self.now.len }
        requires there { self.now.len ≤ length bytes.now }
        ensures { result.now ≡ body_of self.now bytes.now }
    {
        &bytes[BLOCK_HEADER_LEN..self.len - TRAILER_LEN]
    }
}

/// The byte order that a section's magic says.
pub(crate) fn order_of(magic: u32) -> Option<Order>
    ensures { result ≡ order_of magic }
{
    match magic {
        BIG_MAGIC => Some(Order::Big),
        LITTLE_MAGIC => Some(Order::Little),
        _ => None,
    }
}

/// Whether a block may have this length.
fn is_block_len(len: u32) -> bool
    ensures { result ≡ is_block_len len }
{
    MIN_BLOCK_LEN <= len && len <= MAX_BLOCK_LEN && len % 4 == 0
}

/// The block that bytes of a byte order begin with.
fn block_at(order: Order, bytes: &[u8]) -> Result<Framing, CaptureError>
    requires { BLOCK_HEADER_LEN ≤ length bytes.now }
    ensures block { result ≡ block_at order bytes.now }
    ensures there { IfOk result (IsFramed bytes.now) }
{
    let said = order.word(bytes, 4);
    if !is_block_len(said) {
        return Err(CaptureError::BlockLength);
    }
    let len = said as usize;
    if bytes.len() < len {
        return Ok(Framing::Wants(len));
    }
    if order.word(bytes, len - TRAILER_LEN) != said {
        return Err(CaptureError::BlockLength);
    }
    Ok(Framing::Whole(Block {
        kind: BlockKind::of(order.word(bytes, 0)),
        order,
        len,
    }))
}

/// The block that bytes of a section begin with, or the next section's header.
pub(crate) fn framing_at(order: Order, bytes: &[u8]) -> Result<Framing, CaptureError>
    ensures block { result ≡ framing_at order bytes.now }
    ensures there { IfOk result (IsFramed bytes.now) }
{
    if bytes.len() < BLOCK_HEADER_LEN {
        return Ok(Framing::Wants(BLOCK_HEADER_LEN));
    }
    if Order::Big.word(bytes, 0) != SECTION {
        return block_at(order, bytes);
    }
    if bytes.len() < MAGIC_END {
        return Ok(Framing::Wants(MAGIC_END));
    }
    match order_of(Order::Big.word(bytes, 8)) {
        Some(order) => block_at(order, bytes),
        None => Err(CaptureError::ByteOrder),
    }
}
