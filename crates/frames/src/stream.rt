// A stream that comes in cuts.

ghost use Rattle.std.specs.Prelude.{◌≡◌, ◌==◌, ◌++◌, ◌≤◌, ℕ, List, [], None, Some, Err, length, drop, IfOk, IfErr, IfSome, IfNone, IsOk, OnOk, OnErr};
ghost use Rattle.message_value.specs.declared.error.MsgError.{MsgError};
ghost use Rattle.message_view.specs.Reading.{message_at};
ghost use Rattle.frames.specs.Stream.{IsMessage, BeginsWithMessage, IsFrame, IsUnfinished, IsFault};

use crate::error::FrameError;
use crate::frame::frame_of;
use bytes::{Bytes, BytesMut};
use message_view::{MsgError, View};
use std::alloc::Global;
use std::marker::Model;

/// The bytes of a stream that no message has taken yet, and the fault that was met.
#[derive(Drop)]
pub struct Frames {
    unread: BytesMut,
    fault: Option<MsgError>,
}

impl Model for Frames {
    ghost use Rattle.frames.specs.Stream.{Cutting};

    ghost Value = { Cutting };

    ghost view = { λ f. record { unread = f.unread.items; fault = f.fault } };
}

impl Frames {
    /// A stream before its first byte. It takes no memory.
    pub fn new(alloc: Global) -> Frames
        ensures { (result.unread ≡ []) × (result.fault ≡ None) }
    {
        Frames {
            unread: BytesMut::new(alloc),
            fault: None,
        }
    }

    /// Whether no byte of a further message is there: a stream may end here.
    pub fn is_empty(&self) -> bool
        ensures { result ≡ (length self.now.unread == 0) }
    {
        self.unread.is_empty()
    }

    /// The bytes that no message has taken.
    pub fn unread(&self) -> &[u8]
        ensures { result.now ≡ self.now.unread }
    {
        self.unread.as_slice()
    }

    /// Adds the stream's next bytes.
    ///
    /// # Errors
    ///
    /// `Message` where `next` answered that fault, `NoMemory` where room for the bytes was refused; nothing is added
    /// then.
    pub fn feed(&mut self, bytes: &[u8]) -> Result<(), FrameError>
        ensures fed { OnOk result ((self.old.fault ≡ None) × (self.new ≡ record { unread = self.old.unread ++ bytes.now; fault = None })) }
        ensures err { OnErr result (self.new ≡ self.old) }
        ensures fault { (fault : MsgError) → result ≡ Err (FrameError.Message fault) → self.old.fault ≡ Some fault }
        ensures for_ever { (fault : MsgError) → self.old.fault ≡ Some fault → result ≡ Err (FrameError.Message fault) }
    {
        if let Some(fault) = self.fault {
            return Err(FrameError::Message(fault));
        }
        self.unread.extend_from_slice(bytes)?;
        Ok(())
    }

    /// The bytes of the next message, lent where they lie, by the length that its fixed part says; `None` where they aren't all
    /// there. They stay until `skip`. Whether they spell a message is for `View::read` to say.
    ///
    /// # Errors
    ///
    /// The fault of the fixed part in the message's place, or the one that `next` answered.
    pub fn frame(&self) -> Result<Option<&[u8]>, MsgError>
        ensures frame { IfOk result (λ front. IfSome front (λ frame. (self.now.fault ≡ None) × IsFrame self.now.unread frame.now)) }
        // They come first.
        ensures first { IfOk result (λ front. IfSome front (λ frame. (rest : List ℕ) × (self.now.unread ≡ frame.now ++ rest))) }
        // A fault of theirs is the stream's.
        ensures inside { IfOk result (λ front. IfSome front (λ frame. (fault : MsgError) → message_at frame.now ≡ Err fault → IsFault self.now.unread fault)) }
        ensures unfinished { IfOk result (λ front. IfNone front ((self.now.fault ≡ None) × IsUnfinished self.now.unread)) }
        ensures none { IfOk result (λ front. IfNone front (BeginsWithMessage self.now.unread → ⊥)) }
        ensures fault { IfErr result (λ fault. self.now.fault ≡ None → IsFault self.now.unread fault) }
        ensures for_ever { (fault : MsgError) → self.now.fault ≡ Some fault → result ≡ Err fault }
    {
        match self.fault {
            Some(fault) => Err(fault),
            None => frame_of(self.unread.as_slice()),
        }
    }

    /// The next message, lent where it lies; `None` where no whole message is there and more bytes are needed. It stays
    /// the next one until `skip`.
    ///
    /// # Errors
    ///
    /// The fault of the bytes in the message's place, or the one that `next` answered.
    pub fn front(&self) -> Result<Option<View<'_>>, MsgError>
        ensures message { IfOk result (λ front. IfSome front (λ view. (self.now.fault ≡ None) × IsMessage view × ((rest : List ℕ) × (self.now.unread ≡ view ++ rest)))) }
        ensures unfinished { IfOk result (λ front. IfNone front ((self.now.fault ≡ None) × IsUnfinished self.now.unread)) }
        ensures none { IfOk result (λ front. IfNone front (BeginsWithMessage self.now.unread → ⊥)) }
        ensures fault { IfErr result (λ fault. self.now.fault ≡ None → IsFault self.now.unread fault) }
        ensures for_ever { (fault : MsgError) → self.now.fault ≡ Some fault → result ≡ Err fault }
    {
        let Some(frame) = self.frame()? else {
            return Ok(None);
        };
        match View::read(frame) {
            Ok(view) => Ok(Some(view)),
            Err(fault) => Err(fault),
        }
    }

    /// The next message, which shares the stream's bytes; `None` where no whole message is there and more bytes are needed.
    ///
    /// # Errors
    ///
    /// `Message` with the fault of the bytes in the message's place, and from then on always; `NoMemory` where the
    /// bytes couldn't be shared, which changes nothing.
    pub fn next(&mut self) -> Result<Option<Bytes>, FrameError>
        ensures message { IfOk result (λ next. IfSome next (λ message. (self.old.fault ≡ None) × IsMessage message × (self.old.unread ≡ message ++ self.new.unread) × (self.new.fault ≡ None))) }
        ensures unfinished { IfOk result (λ next. IfNone next ((self.old.fault ≡ None) × IsUnfinished self.old.unread × (self.new ≡ self.old))) }
        ensures none { IfOk result (λ next. IfNone next (BeginsWithMessage self.old.unread → ⊥)) }
        ensures fault { (fault : MsgError) → result ≡ Err (FrameError.Message fault) → (self.old.fault ≡ None → IsFault self.old.unread fault) × (self.new ≡ record { unread = self.old.unread; fault = Some fault }) }
        ensures for_ever { (fault : MsgError) → self.old.fault ≡ Some fault → result ≡ Err (FrameError.Message fault) }
        ensures memory { result ≡ Err FrameError.NoMemory → (self.old.fault ≡ None) × BeginsWithMessage self.old.unread × (self.new ≡ self.old) }
    {
        let len = match self.front() {
            Ok(Some(view)) => view.raw().len(),
            Ok(None) => return Ok(None),
            Err(fault) => {
                self.fault = Some(fault);
                return Err(FrameError::Message(fault));
            }
        };
        let message = self.unread.freeze_to(len)?;
        Ok(Some(message))
    }

    /// Drops the first `len` bytes, as those of the message that `frame` or `front` lent.
    pub fn skip(&mut self, len: usize)
        requires no_fault { self.old.fault ≡ None }
        requires there { len ≤ length self.old.unread }
        ensures { self.new ≡ record { unread = drop len self.old.unread; fault = None } }
    {
        self.unread.advance(len);
    }
}
