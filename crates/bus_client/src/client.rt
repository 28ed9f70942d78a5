// A client of a bus.

use crate::calls::{BUS_NAME, Call};
use crate::descriptors::without_descriptors;
use crate::error::ClientError;
use crate::lines::{log_in, read_some};
use crate::refusal::Refusal;
use crate::strings::{first_string, match_rules_of, strings_of};
use crate::transport::Transport;
use bytes::Bytes;
use frames::{FrameError, Frames};
use message_view::{Kind, MsgError, View};
use std::alloc::Global;
use std::collections::VecDeque;
use std::io::{Read, Write};

/// How many bytes of messages are read at once.
const READ_LEN: usize = 8192;

/// The error by which a bus says that nobody owns a name.
const NO_OWNER: &str = "org.freedesktop.DBus.Error.NameHasNoOwner";

/// A connection that has said Hello.
#[derive(Drop)]
pub struct Client<S> {
    alloc: Global,
    stream: S,
    frames: Frames,
    /// The connection's name, as the bus said it at Hello.
    name: Option<String>,
    /// The serial of the last call.
    serial: u32,
    /// Broadcasts that came while an answer was waited for.
    kept: VecDeque<Bytes>,
}

/// What a message is to a client that waits for an answer.
#[derive(Drop)]
enum Reading {
    Returned,
    /// The call's answer is this error.
    Answered(Refusal),
    Broadcast,
    /// To this client alone, and no answer to the call.
    Other,
}

/// What a message is to a client that waits for the bus's answer to the call of this serial.
fn read_answer(alloc: Global, message: &[u8], serial: u32) -> Result<Reading, ClientError> {
    let view = View::read(message)?;
    let is_answer = view.reply_serial() == Some(serial) && view.sender() == Some(BUS_NAME);
    match view.kind() {
        Kind::MethodReturn if is_answer => Ok(Reading::Returned),
        Kind::Error if is_answer => Ok(Reading::Answered(Refusal::of(alloc, message)?)),
        _ if view.destination().is_none() => Ok(Reading::Broadcast),
        _ => Ok(Reading::Other),
    }
}

impl<S: Read + Write + Drop> Client<S> {
    /// Talks with a bus until messages begin, and says Hello.
    ///
    /// # Errors
    ///
    /// Each of `ClientError`.
    pub fn open(
        alloc: Global,
        mut stream: S,
        transport: Transport,
    ) -> Result<Client<S>, ClientError> {
        let unread = log_in(alloc, &mut stream, transport)?;
        let mut frames = Frames::new(alloc);
        frames.feed(unread.as_slice())?;
        let mut client = Client {
            alloc,
            stream,
            frames,
            name: None,
            serial: 0,
            kept: VecDeque::new(alloc),
        };
        let answer = client.call(Call::Hello)?;
        client.name = first_string(alloc, answer.as_slice())?;
        Ok(client)
    }

    /// The connection's own name, if the bus said it.
    pub fn name(&self) -> Option<&str> {
        self.name.as_ref().map(|name| name.as_str())
    }

    /// Adds a match rule.
    ///
    /// # Errors
    ///
    /// `Answered` where the bus refuses it, and others.
    pub fn add_match(&mut self, rule: &str) -> Result<(), ClientError> {
        self.call(Call::AddMatch(rule))?;
        Ok(())
    }

    /// Becomes a monitor, which gets what any of the rules holds of, or all messages where there is none. From now on it
    /// may call nothing.
    ///
    /// # Errors
    ///
    /// `Answered` where the bus refuses it, and others.
    pub fn become_monitor(&mut self, rules: &[&str]) -> Result<(), ClientError> {
        self.call(Call::BecomeMonitor(rules))?;
        Ok(())
    }

    /// The unique name of a name's owner, if it has one.
    ///
    /// # Errors
    ///
    /// `Answered` where the bus refuses the call for another reason, and others.
    pub fn name_owner(&mut self, name: &str) -> Result<Option<String>, ClientError> {
        match self.call(Call::GetNameOwner(name)) {
            Ok(answer) => first_string(self.alloc, answer.as_slice()),
            Err(ClientError::Answered(error)) if error.name.as_str() == NO_OWNER => Ok(None),
            Err(other) => Err(other),
        }
    }

    /// The names that are owned, unique ones too.
    ///
    /// # Errors
    ///
    /// `Answered` where the bus refuses the call, and others.
    pub fn names(&mut self) -> Result<Vec<String>, ClientError> {
        let answer = self.call(Call::ListNames)?;
        strings_of(self.alloc, answer.as_slice())
    }

    /// The match rules that the connection of a unique name has, if there is one.
    ///
    /// # Errors
    ///
    /// `Answered` where the bus doesn't tell them, or not to this client, and others.
    pub fn match_rules(&mut self, connection: &str) -> Result<Option<Vec<String>>, ClientError> {
        let answer = self.call(Call::GetAllMatchRules)?;
        match_rules_of(self.alloc, answer.as_slice(), connection)
    }

    /// Attaches a program, given by the bytes of its instructions, for images of an edition, or of the first where none
    /// is said.
    ///
    /// # Errors
    ///
    /// `Answered` where the bus refuses it or knows no programs, and others.
    pub fn attach(&mut self, edition: Option<u32>, code: &[u8]) -> Result<(), ClientError> {
        match edition {
            Some(edition) => self.call(Call::AttachEdition(edition, code))?,
            None => self.call(Call::Attach(code))?,
        };
        Ok(())
    }

    /// Attaches a filter expression, which the bus compiles.
    ///
    /// # Errors
    ///
    /// `Answered` where the bus refuses it or knows no filters, and others.
    pub fn attach_filter(&mut self, text: &str) -> Result<(), ClientError> {
        self.call(Call::AttachFilter(text))?;
        Ok(())
    }

    /// The stream that the client talks by.
    pub fn stream_mut(&mut self) -> &mut S {
        &mut self.stream
    }

    /// The next message, first those that came while an answer was waited for. None has file descriptors: their number is 0
    /// in one that was sent with some.
    ///
    /// # Errors
    ///
    /// `Socket` at the end too, `Message` where what comes is no message, and `NoMemory`.
    pub fn next(&mut self) -> Result<Bytes, ClientError> {
        match self.kept.pop_front() {
            Some(message) => Ok(message),
            None => self.next_read(),
        }
    }

    /// The next message of the bytes that were read, if it is all there.
    fn next_whole(&mut self) -> Result<Option<Bytes>, ClientError> {
        match self.frames.next() {
            // The stream is read without its descriptors, so the message has none here.
            Err(FrameError::Message(MsgError::UnixFds)) => {
                let unread = without_descriptors(self.alloc, self.frames.unread())?;
                self.frames = Frames::new(self.alloc);
                self.frames.feed(unread.as_slice())?;
                Ok(self.frames.next()?)
            }
            next => Ok(next?),
        }
    }

    /// The next message of the stream.
    fn next_read(&mut self) -> Result<Bytes, ClientError> {
        for _ in 0..u64::MAX {
            if let Some(message) = self.next_whole()? {
                return Ok(message);
            }
            let mut block = [0u8; READ_LEN];
            let len = read_some(&mut self.stream, &mut block)?;
            self.frames.feed(&block[..len])?;
        }
        Err(ClientError::Socket)
    }

    /// Calls a method of the bus and waits for its answer.
    fn call(&mut self, call: Call<'_>) -> Result<Bytes, ClientError> {
        self.serial = self.serial.checked_add(1).unwrap_or(1);
        let message = call.message(self.alloc, self.serial)?;
        self.stream.write_all(&message)?;
        for _ in 0..u64::MAX {
            let message = self.next_read()?;
            match read_answer(self.alloc, message.as_slice(), self.serial)? {
                Reading::Returned => return Ok(message),
                Reading::Answered(error) => return Err(ClientError::Answered(error)),
                Reading::Broadcast => self.kept.push_back(message)?,
                Reading::Other => {}
            }
        }
        Err(ClientError::Socket)
    }
}
