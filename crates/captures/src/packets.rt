// The packets of a capture.

ghost use Rattle.std.specs.Prelude.{◌≡◌, IfOk};
ghost use Rattle.captures.specs.Blocks.{framing_at};
ghost use Rattle.captures.specs.Interfaces.{interface_of};
ghost use Rattle.captures.specs.Reading.{start, step_at, first_step, header_step, block_step, body_step, section_step, interface_step, Gives, end_of};
ghost use Rattle.captures.specs.Contents.{IsWithin};

use crate::block::{Block, BlockKind, Framing, framing_at};
use crate::block_packet::{enhanced_packet, obsolete_packet, simple_packet};
use crate::error::CaptureError;
use crate::interface::Interface;
use crate::magic::{MAGIC_LEN, Magic};
use crate::order::Order;
use crate::pcap::{FILE_HEADER_LEN, TimeUnit, header_fault, record_at};
use crate::section::section_fault;
use crate::step::Step;
use arrayvec::ArrayVec;
use std::marker::Model;

/// How many interfaces of a section are kept.
pub const MAX_INTERFACES: usize = 256;

/// What was read of a file before the bytes that come next.
#[derive(Clone, Copy, Debug, PartialEq, Eq)]
pub enum Format {
    Unread,
    Pcap(Order, TimeUnit),
    Pcapng(Order),
}

/// A reader of a capture, from the file's first byte on. It takes no memory: whoever calls it keeps the bytes.
#[derive(Drop)]
pub struct Packets {
    format: Format,
    interfaces: ArrayVec<Interface, MAX_INTERFACES>,
}

impl Model for Packets {
    ghost use Rattle.captures.specs.Reading.{Reading};

    ghost Value = { Reading };

    ghost view = { λ p. record { format = p.format; interfaces = p.interfaces.items } };
}

impl Packets {
    /// A reader before the first byte of a file.
    pub fn new() -> Packets
        ensures { result ≡ start }
    {
        Packets {
            format: Format::Unread,
            interfaces: ArrayVec::new(),
        }
    }

    /// What the file goes on with, of which these are the next bytes. After a packet, a packet that is passed over or
    /// something to skip, its `len` bytes are to be left out at the next call; after `More`, as many bytes have to be
    /// there.
    ///
    /// # Errors
    ///
    /// The first fault of the file, which changes nothing. `Short` is what `end` says.
    pub fn next(&mut self, bytes: &[u8]) -> Result<Step, CaptureError>
        ensures gives { Gives result self.old self.new (step_at self.old bytes.now) }
        ensures within { IfOk result (IsWithin bytes.now) }
    {
        match self.format {
            Format::Unread => self.begin(bytes),
            Format::Pcap(order, unit) => record_at(order, unit, bytes),
            Format::Pcapng(order) => self.take_block(order, bytes),
        }
    }

    /// The file's first bytes.
    fn begin(&mut self, bytes: &[u8]) -> Result<Step, CaptureError>
        ensures { Gives result self.old self.new (first_step self.old bytes.now) }
    {
        if bytes.len() < MAGIC_LEN {
            return Ok(Step::More(MAGIC_LEN));
        }
        match Magic::of(Order::Big.word(bytes, 0)) {
            Some(Magic::Pcap(order, unit)) => self.take_header(order, unit, bytes),
            Some(Magic::Pcapng) => self.take_block(Order::Big, bytes),
            None => Err(CaptureError::Magic),
        }
    }

    /// The header of a pcap file.
    fn take_header(
        &mut self,
        order: Order,
        unit: TimeUnit,
        bytes: &[u8],
    ) -> Result<Step, CaptureError>
        ensures { Gives result self.old self.new (header_step self.old order unit bytes.now) }
    {
        if bytes.len() < FILE_HEADER_LEN {
            return Ok(Step::More(FILE_HEADER_LEN));
        }
        match header_fault(order, bytes) {
            Some(fault) => Err(fault),
            None => {
                self.format = Format::Pcap(order, unit);
                Ok(Step::Skip(FILE_HEADER_LEN))
            }
        }
    }

    /// A block of a pcapng file.
    fn take_block(&mut self, order: Order, bytes: &[u8]) -> Result<Step, CaptureError>
        ensures { Gives result self.old self.new (block_step self.old bytes.now (framing_at order bytes.now)) }
    {
        match framing_at(order, bytes) {
            Ok(Framing::Wants(len)) => Ok(Step::More(len)),
            Ok(Framing::Whole(block)) => self.take_body(block, block.body(bytes)),
            Err(fault) => Err(fault),
        }
    }

    /// The body of a block.
    fn take_body(&mut self, block: Block, body: &[u8]) -> Result<Step, CaptureError>
        ensures { Gives result self.old self.new (body_step block.kind self.old block body.now) }
    {
        match block.kind {
            BlockKind::Section => self.take_section(block, body),
            BlockKind::Interface => self.take_interface(block, body),
            BlockKind::Obsolete => obsolete_packet(self.interfaces.as_slice(), block, body),
            BlockKind::Simple => simple_packet(self.interfaces.as_slice(), block, body),
            BlockKind::Enhanced => enhanced_packet(self.interfaces.as_slice(), block, body),
            BlockKind::Unknown => Ok(Step::Skip(block.len)),
        }
    }

    /// A section's header: the interfaces of the section before are no longer meant.
    fn take_section(&mut self, block: Block, body: &[u8]) -> Result<Step, CaptureError>
        ensures { Gives result self.old self.new (section_step block body.now) }
    {
        match section_fault(block.order, body) {
            Some(fault) => Err(fault),
            None => {
                self.format = Format::Pcapng(block.order);
                self.interfaces.clear();
                Ok(Step::Skip(block.len))
            }
        }
    }

    /// The description of an interface.
    fn take_interface(&mut self, block: Block, body: &[u8]) -> Result<Step, CaptureError>
        ensures { Gives result self.old self.new (interface_step self.old block (interface_of block.order body.now)) }
    {
        match Interface::of(block.order, body) {
            Err(fault) => Err(fault),
            Ok(interface) => match self.interfaces.try_push(interface) {
                Ok(()) => Ok(Step::Skip(block.len)),
                Err(_) => Err(CaptureError::Interfaces),
            },
        }
    }

    /// Whether the file may end with these bytes, of which `next` said that more have to be there.
    ///
    /// # Errors
    ///
    /// `Short` if they are the beginning of a record or a block, or if no header was read.
    pub fn end(&self, bytes: &[u8]) -> Result<(), CaptureError>
        ensures { result ≡ end_of self.now bytes.now }
    {
        match self.format {
            Format::Unread => Err(CaptureError::Short),
            _ if bytes.is_empty() => Ok(()),
            _ => Err(CaptureError::Short),
        }
    }
}
