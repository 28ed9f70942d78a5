// The writer of the published state.

ghost use Rattle.std.specs.Prelude.{◌≡◌, ◌↔◌, ◌<◌, ◌^◌, ◌++◌, ◌∷◌, [], List, true, false, fold, drop, length, if◌then◌else◌, MatchResult, MatchOption, IfOk, IfErr, IfSome, Err};
ghost use mathlib.Core.List.{IsPrefix};
ghost use Rattle.left_right.specs.Sides.{view};
ghost use Rattle.program_table.specs.Connections.{is_connected};
ghost use Rattle.program_table.specs.Does.{is_accepted, reply_to};
ghost use Rattle.program_table.specs.History.{after, own_commands, IsHistory};
ghost use Rattle.published.specs.ErrorName.{publish_error_name};
ghost use Rattle.published.specs.Publication.{Publication, nothing_published, with_next};
ghost use Rattle.published.specs.Steps.{Continues};

use crate::history::{Book, BusBrand, HistoryPrefix, Law, Opened};
use crate::history_reader::{HistoryReader, StateReader};
use crate::shown::{Entry, Notes, Published, Sees, Shown};
use core::mem::replace_with;
use crossbeam_utils::rule::Protocol;
use entry_table::IndexKey;
use left_right::Absorb;
use left_right::writer::Writer;
use logbook::Rule;
use program_table::{BusState, Command, Handle, Reply};
use std::alloc::{AllocError, Global};
use std::collections::LinkedList;
use std::error::Error;
use std::fmt;
use std::marker::Model;
use std::sync::Wait;

/// Why a command wasn't published.
#[derive(Clone, Copy, Debug, PartialEq, Eq)]
pub enum PublishError {
    /// Memory was refused. The bus has ended: the command lies in the writer's log.
    NoMemory,
    /// The bus had ended.
    Ended,
}

impl PublishError {
    /// The error's name, which is also what `{}` prints.
    pub fn name(self) -> &'static str
        ensures { result.now ≡ publish_error_name self }
    {
        match self {
            PublishError::NoMemory => "NoMemory",
            PublishError::Ended => "Ended",
        }
    }
}

impl fmt::Display for PublishError {
    ghost use Rattle.std.specs.Prelude.{Some};

    ghost output = { λ error. Some (publish_error_name error) };

    fn fmt<W: fmt::Write>(&self, f: &mut fmt::Formatter<W>) -> fmt::Result {
        let name = self.name();
        f.write_str(name)
    }
}

impl Error for PublishError {}

type ShownWriter<B, M> = Writer<
    Shown<B, M>,
    Entry<B, M>,
    LinkedList<Command<M>>,
    Published,
    Global,
>;

/// The writer, with the history that it has published and whether the bus has ended.
pub struct Publisher<B: BusBrand, M: Handle, R: Wait + Drop>
where
    Published: Protocol<Shown<B, M>, LinkedList<Command<M>>>,
    Shown<B, M>: Absorb<Entry<B, M>, State = LinkedList<Command<M>>>,
    Law: Rule<Command<M>, u64>,
{
    writer: ShownWriter<B, M>,
    // Kept for the end, which waits for the readers.
    rt: R,
    book: Book<B, M>,
    has_ended: bool,
}

impl<B: BusBrand, M: Handle, R: Wait + Drop> Model for Publisher<B, M, R>
where
    Published: Protocol<Shown<B, M>, LinkedList<Command<M>>>,
    Shown<B, M>: Absorb<Entry<B, M>, State = LinkedList<Command<M>>>,
    Law: Rule<Command<M>, u64>,
{
    ghost use Rattle.std.specs.Prelude.{◌≡◌, false, [], drop};
    ghost use Rattle.left_right.specs.Sides.{view as entered};
    ghost use Rattle.published.specs.Publication.{Publication};

    ghost Value = { Publication M };

    ghost view = { λ c. record { history = c.writer.desk.shown.value; has_ended = c.has_ended } };

    ghost invariant = { λ c. (c.has_ended ≡ false → drop c.writer.behind c.writer.log.items ≡ []) × (entered c.writer.desk.place ≡ c.writer.desk.shown.value) };
}

// Publishes the entries that were appended.
fn publish_log<B: BusBrand, M: Handle, R: Wait>(
    writer: ShownWriter<B, M>,
    rt: &R,
) -> (ShownWriter<B, M>, Result<(), AllocError>)
    requires { Continues writer.desk.shown.value (drop writer.behind writer.log.items) }
    ensures values { MatchResult result.1
        (λ _. (result.0.desk.shown.value ≡ fold (λ before after. after) writer.desk.shown.value (drop writer.behind writer.log.items)) × (drop result.0.behind result.0.log.items ≡ []))
        (λ _. result.0.desk.shown.value ≡ writer.desk.shown.value) }
    ensures view { view writer.desk.place ≡ writer.desk.shown.value → view result.0.desk.place ≡ result.0.desk.shown.value }
{
    writer.publish_as::<Sees, R>(rt)
}

// Publishes an entry. At an error what is published is what it was.
fn write<B: BusBrand, M: Handle, R: Wait>(
    mut writer: ShownWriter<B, M>,
    entry: Entry<B, M>,
    rt: &R,
) -> (ShownWriter<B, M>, Result<(), AllocError>)
    requires pending { drop writer.behind writer.log.items ≡ [] }
    requires begins { IsPrefix writer.desk.shown.value entry }
    ensures values { MatchResult result.1
        (λ _. (result.0.desk.shown.value ≡ entry) × (drop result.0.behind result.0.log.items ≡ []))
        (λ _. result.0.desk.shown.value ≡ writer.desk.shown.value) }
    ensures view { view writer.desk.place ≡ writer.desk.shown.value → view result.0.desk.place ≡ result.0.desk.shown.value }
{
    let Ok(()) = writer.append(entry) else {
        return (writer, Err(AllocError));
    };
    publish_log(writer, rt)
}

// Publishes the history as it is, in an entry without a command.
fn write_blank<B: BusBrand, M: Handle, R: Wait>(
    writer: ShownWriter<B, M>,
    rt: &R,
) -> Result<ShownWriter<B, M>, AllocError>
    requires pending { drop writer.behind writer.log.items ≡ [] }
    requires view { view writer.desk.place ≡ writer.desk.shown.value }
    ensures { IfOk result (λ w. (w.desk.shown.value ≡ writer.desk.shown.value) × (drop w.behind w.log.items ≡ []) × (view w.desk.place ≡ w.desk.shown.value)) }
{
    let entry = Entry::blank(writer.published().front());
    let (writer, written) = write(writer, entry, rt);
    match written {
        Ok(()) => Ok(writer),
        Err(_) => {
            drop(writer.take(rt));
            Err(AllocError)
        }
    }
}

impl<B: BusBrand, M: Handle, R: Wait + Drop> Publisher<B, M, R> {
    /// An opened history and the opening state, with room for this many readers. The key is that of the state's index
    /// of entries.
    pub fn new(
        rt: R,
        alloc: Global,
        key: IndexKey,
        opened: Opened<M>,
        readers: usize,
    ) -> Result<Publisher<B, M, R>, AllocError>
        requires name { opened ≡ B.book }
        requires readers { (0 < readers) × (readers < 2 ^ 32) }
        ensures { IfOk result (λ publisher. publisher ≡ nothing_published) }
    {
        let (book, front) = opened.open_named::<B>();
        let first = Shown::new(alloc, key, front.again())?;
        let second = Shown::new(alloc, key, front)?;
        // The log never has more than two entries, and after these two it has room for them.
        let writer = write_blank(Writer::new(alloc, first, second, readers)?, &rt)?;
        let writer = write_blank(writer, &rt)?;
        Ok(Publisher {
            writer,
            rt,
            book,
            has_ended: false,
        })
    }

    // Publishes one entry. At an error what is published is what it was, and the bus has ended.
    fn publish_entry(&mut self, entry: Entry<B, M>) -> Result<(), AllocError>
        requires not_ended { self.old.has_ended ≡ false }
        requires begins { IsPrefix self.old.history entry }
        ensures { MatchResult result
            (λ _. self.new ≡ record { history = entry; has_ended = false })
            (λ _. self.new ≡ record { history = self.old.history; has_ended = true }) }
    {
        self.has_ended = true;
        let written = replace_with(
            &mut self.writer,
            (entry, &self.rt),
            |writer, front_and_entry| -> (ShownWriter<B, M>, Result<(), AllocError>)
                requires pending { drop writer.behind writer.log.items ≡ [] }
                requires begins { IsPrefix writer.desk.shown.value front_and_entry.0 }
                ensures values { MatchResult result.1
                    (λ _. (result.0.desk.shown.value ≡ front_and_entry.entry.0) × (drop result.0.behind result.0.log.items ≡ []))
                    (λ _. result.0.desk.shown.value ≡ writer.desk.shown.value) }
                ensures view { view writer.desk.place ≡ writer.desk.shown.value → view result.0.desk.place ≡ result.0.desk.shown.value }
            { write(writer, front_and_entry.0, front_and_entry.1) },
        );
        match written {
            Ok(()) => {
                self.has_ended = false;
                Ok(())
            }
            Err(_) => Err(AllocError),
        }
    }

    /// Publishes a command: one that is accepted is the next one of the history, and any other changes nothing. At an
    /// error nothing was published, and the bus has ended.
    pub fn publish(&mut self, command: Command<M>) -> Result<Reply, PublishError>
        ensures reply { IfOk result (λ reply. reply ≡ reply_to (after self.old.history) command) }
        ensures history { MatchResult result (λ _. self.new.history ≡ with_next self.old.history command) (λ _. self.new.history ≡ self.old.history) }
        ensures goes_on { IfOk result (λ _. (self.old.has_ended ≡ false) × (self.new.has_ended ≡ false)) }
        ensures ends { IfErr result (λ _. self.new.has_ended ≡ true) }
        ensures ended { (result ≡ Err PublishError.Ended) ↔ (self.old.has_ended ≡ true) }
    {
        if self.has_ended {
            return Err(PublishError::Ended);
        }
        let reply = self.state().answer(&command);
        if let Reply::Refused(_) = reply {
            return Ok(reply);
        }
        let front = self.writer.published().front();
        // The history is as long as the published one, since this call alone adds to it.
        let Some(entry) = Entry::new(front, &self.book, command) else {
            self.has_ended = true;
            return Err(PublishError::NoMemory);
        };
        match self.publish_entry(entry) {
            Ok(()) => Ok(reply),
            Err(_) => Err(PublishError::NoMemory),
        }
    }

    /// Whether the bus has ended, so that nothing more is published.
    pub fn has_ended(&self) -> bool
        ensures { result ≡ self.now.has_ended }
    {
        self.has_ended
    }

    /// The published history.
    pub fn front(&self) -> HistoryPrefix<B, M>
        ensures { result ≡ self.now.history }
    {
        self.writer.published().front()
    }

    /// The published state.
    pub fn state(&self) -> &BusState<M>
        ensures state { result.now ≡ after self.now.history }
        ensures history { IsHistory self.now.history }
    {
        self.writer.published().state()
    }

    /// How many commands were accepted.
    pub fn commands(&self) -> u64
        ensures { result ≡ length self.now.history }
    {
        self.front().len()
    }

    /// How many commands of a connection were accepted, its Connect included; 0 where it isn't connected.
    pub fn commands_of(&self, connection: u64) -> u64
        ensures { result ≡ (if is_connected connection (after self.now.history).connections then length (own_commands connection self.now.history) else 0) }
    {
        self.state().commands_of(connection)
    }

    /// The published history. None where it has fewer commands than what was seen, as no history of this bus has.
    pub fn tell(&self, seen: &HistoryPrefix<B, M>) -> Option<HistoryPrefix<B, M>>
        ensures { MatchOption result (length self.now.history < length seen.now) (λ told_history. (told_history ≡ self.now.history) × IsPrefix seen.now told_history) }
    {
        let told_history = self.front();
        if seen.len() > told_history.len() {
            return None;
        }
        seen.begins(&told_history);
        Some(told_history)
    }

    /// A new reader, which is told the published history. `None` where all places of readers are in use.
    pub fn reader(&mut self) -> Option<StateReader<B, M>>
        ensures same { self.new ≡ self.old }
        ensures up_to_date { IfSome result (λ reader. view reader.reader.place ≡ self.old.history) }
    {
        let Ok(mut reader) = self.writer.factory().reader() else {
            return None;
        };
        let note = self.writer.tell::<Notes>();
        reader.learn::<Notes>(note);
        Some(StateReader { reader })
    }

    /// The published history as it is seen by a new reader. `None` where all places of readers are in use.
    pub fn history_reader(&mut self) -> Option<HistoryReader<B, M>>
        ensures same { self.new ≡ self.old }
        ensures seen { IfSome result (λ history_reader. history_reader ≡ self.old.history) }
    {
        let reader = self.reader()?;
        Some(HistoryReader::new(reader, self.writer.published().front()))
    }

    /// The published history as it is seen without a reader, until one is lent.
    pub fn history_without_reader(&self) -> HistoryReader<B, M>
        ensures { result ≡ self.now.history }
    {
        HistoryReader::without_reader(self.front())
    }
}

impl<B: BusBrand, M: Handle, R: Wait + Drop> Drop for Publisher<B, M, R>
where
    Published: Protocol<Shown<B, M>, LinkedList<Command<M>>>,
    Shown<B, M>: Absorb<Entry<B, M>, State = LinkedList<Command<M>>>,
    Law: Rule<Command<M>, u64>,
{
    fn drop(self) {
        let Self {
            writer,
            rt,
            book: _,
            has_ended: _,
        } = self;
        drop(writer.take(&rt));
    }
}
